// The blocks that are open at a place.
ghost use Rattle.std.specs.Prelude.{◌≡◌, ℕ, List, [], ◌∷◌, IfOk, OnOk, drop, length, nat_lt, option_map, map as each};
ghost use Rattle.star_tree.specs.Whole.{header_of};
ghost use Rattle.template_spec.specs.Misplaced as spec;
ghost use Rattle.template_pass.specs.Building as building;
ghost use Rattle.template_pass.specs.Levels as levels;
ghost use Rattle.template_pass.specs.Levels.{Open};
ghost use Rattle.template_checks.specs.Held.{blocks_of, head_of, open_of, opens_of, wrong_of};
ghost use Rattle.template_checks.specs.Walk.{same_form, waiting_line};

use crate::wrong::{Wrong, unless};
use star_tree::code::Header;
use std::alloc::Global;
use std::marker::Model;
use ytt_base::fault::FaultKind;
use ytt_base::text::Memory;

/// The form of a block's head.
#[derive(Clone, Copy)]
pub enum Form {
    If,
    For,
    Def,
    Other,
}

/// An open block.
#[derive(Clone, Copy)]
pub struct Block {
    /// The level of the collection to which its opener belongs.
    pub level: usize,
    pub form: Form,
    pub for_one: bool,
    pub line: u32,
    /// The level of the collection that holds the item for which alone it holds, once that has begun.
    pub one: Option<usize>,
    pub has_else: bool,
    /// How many rows stand before its opener.
    pub before: usize,
}

/// Open blocks, the innermost one first.
#[derive(Drop)]
pub struct Blocks {
    blocks: Vec<Block>,
}

impl Model for Blocks {
    ghost use Rattle.std.specs.Prelude.{List, reverse};
    ghost use Rattle.template_checks.specs.declared.blocks.Block.{Block};

    ghost Value = { List Block };

    ghost view = { λ s. reverse s.blocks.items };
}

pub fn form_of(header: &Header) -> Form
    ensures { (file : ℕ) → head_of result ≡ same_form (header_of file header.now) }
{
    match header {
        Header::If(_) => Form::If,
        Header::For(_, _) => Form::For,
        Header::Def(_, _) => Form::Def,
        Header::Elif(_) | Header::Else | Header::End => Form::Other,
    }
}

fn is_def(form: Form) -> bool
    ensures { result ≡ spec.is_def (head_of form) }
{
    match form {
        Form::Def => true,
        Form::If | Form::For | Form::Other => false,
    }
}

fn is_for(form: Form) -> bool
    ensures { result ≡ spec.is_for (head_of form) }
{
    match form {
        Form::For => true,
        Form::If | Form::Def | Form::Other => false,
    }
}

fn is_if(form: Form) -> bool
    ensures { result ≡ spec.is_if (head_of form) }
{
    match form {
        Form::If => true,
        Form::For | Form::Def | Form::Other => false,
    }
}

// ---- one block

/// Whether the text of an item in a collection of one level is over where an item of the other comes next.
fn is_over(one: Option<usize>, next: Option<usize>) -> bool
    ensures { result ≡ levels.is_over one next }
{
    match one {
        None => false,
        Some(level) => match next {
            None => true,
            Some(after) => !(level < after),
        },
    }
}

/// An item of this level has begun.
fn has_one(level: usize, block: Block) -> Block
    ensures { open_of result ≡ levels.has_one level (open_of block) }
{
    if block.for_one && block.one.is_none() {
        Block {
            one: Some(level),
            ..block
        }
    } else {
        block
    }
}

/// A block for one item whose item has not begun.
pub fn is_waiting(block: &Block) -> bool
    ensures { result ≡ levels.is_waiting (open_of block.now) }
{
    block.for_one && block.one.is_none()
}

// ---- all of them, the innermost one last

fn innermost_def(blocks: &[Block]) -> Option<Block>
    ensures { option_map open_of result ≡ levels.innermost_def (blocks_of blocks.now) }
{
    match blocks.split_last() {
        None => None,
        Some((block, outer)) => {
            if is_def(block.form) {
                return Some(*block);
            }
            innermost_def(outer)
        }
    }
}

/// The loop around a place, in the same function.
fn innermost_loop(blocks: &[Block]) -> Option<Block>
    ensures { option_map open_of result ≡ levels.innermost_loop (blocks_of blocks.now) }
{
    match blocks.split_last() {
        None => None,
        Some((block, outer)) => {
            if is_def(block.form) {
                return None;
            }
            if is_for(block.form) {
                return Some(*block);
            }
            innermost_loop(outer)
        }
    }
}

impl Blocks {
    pub fn new(alloc: Global) -> Blocks
        ensures { result ≡ [] }
    {
        Blocks {
            blocks: Vec::new(alloc),
        }
    }

    fn push(&mut self, block: Block) -> Result<(), Memory>
        ensures { OnOk result (opens_of self.new ≡ open_of block ∷ opens_of self.old) }
    {
        self.blocks.push(block)?;
        Ok(())
    }

    pub fn has_none(&self) -> bool
        ensures { result ≡ levels.no_block (opens_of self.now) }
    {
        self.blocks.is_empty()
    }

    /// Whether a further one may be opened.
    pub fn has_room(&self) -> bool
        ensures { result ≡ nat_lt (length (opens_of self.now)) spec.max_blocks }
    {
        self.blocks.len() < 50
    }

    /// The level to which a statement or an opener belongs.
    pub fn belongs(&self, next: Option<usize>) -> usize
        ensures { result ≡ levels.belongs (opens_of self.now) next }
    {
        match self.blocks.last() {
            None => match next {
                None => 0,
                Some(level) => level,
            },
            Some(block) => match next {
                None => block.level,
                Some(level) => {
                    if level < block.level {
                        block.level
                    } else {
                        level
                    }
                }
            },
        }
    }

    /// The level of the innermost block.
    pub fn innermost(&self) -> usize
        ensures { result ≡ building.innermost (opens_of self.now) }
    {
        match self.blocks.last() {
            Some(block) => block.level,
            None => 0,
        }
    }

    pub fn innermost_def(&self) -> Option<Block>
        ensures { option_map open_of result ≡ levels.innermost_def (opens_of self.now) }
    {
        innermost_def(self.blocks.as_slice())
    }

    pub fn innermost_loop(&self) -> Option<Block>
        ensures { option_map open_of result ≡ levels.innermost_loop (opens_of self.now) }
    {
        innermost_loop(self.blocks.as_slice())
    }

    /// The fault of the innermost block, where it is open at the end.
    pub fn left_open(&self, file: u32) -> Option<Wrong>
        ensures { wrong_of result ≡ levels.left_open file (opens_of self.now) }
    {
        let open = self.blocks.last();
        match open {
            Some(block) => unless(false, FaultKind::BlockOpen, file, block.line),
            None => None,
        }
    }

    /// Whether an item of this level begins in the innermost block's collection or below it.
    pub fn holds(&self, level: usize) -> bool
        ensures { result ≡ levels.stays_within (opens_of self.now) level }
    {
        match self.blocks.last() {
            Some(block) => !(level < block.level),
            None => true,
        }
    }

    /// Whether `elif` and `else` may stand here.
    pub fn takes_branch(&self) -> bool
        ensures { result ≡ levels.takes_branch (opens_of self.now) }
    {
        match self.blocks.last() {
            Some(block) => is_if(block.form) && !block.has_else && !block.for_one,
            None => false,
        }
    }

    /// Whether `end` may stand here, before an item of this level: in no item of its block.
    pub fn takes_end(&self, next: Option<usize>) -> bool
        ensures { result ≡ levels.takes_end (opens_of self.now) next }
    {
        match self.blocks.last() {
            Some(block) => !block.for_one && self.belongs(next) == block.level,
            None => false,
        }
    }

    /// The line of the innermost block, where it holds for one item that has not begun.
    pub fn waiting_line(&self) -> Option<u32>
        ensures { result ≡ waiting_line (opens_of self.now) }
    {
        match self.blocks.last() {
            Some(block) => {
                if is_waiting(block) {
                    return Some(block.line);
                }
                None
            }
            None => None,
        }
    }

    fn keep(&mut self, next: Option<usize>, block: Block) -> Result<(), Memory>
        ensures { OnOk result (opens_of self.new ≡ levels.keep next (open_of block) (opens_of self.old)) }
    {
        if block.for_one && is_over(block.one, next) {
            return Ok(());
        }
        self.push(block)
    }

    /// The blocks behind the beginning of an item: those for one item go with its text.
    pub fn advanced(
        &self,
        alloc: Global,
        level: usize,
        next: Option<usize>,
    ) -> Result<Blocks, Memory>
        ensures { IfOk result (λ bs. opens_of bs ≡ levels.advanced level next (opens_of self.now)) }
    {
        let mut kept = Blocks::new(alloc);
        for block in self.blocks.as_slice() {
            kept.keep(next, has_one(level, *block))?;
        }
        Ok(kept)
    }

    /// Opens a block.
    pub fn open(
        &mut self,
        next: Option<usize>,
        before: usize,
        line: u32,
        form: Form,
        for_one: bool,
    ) -> Result<(), Memory>
        ensures { OnOk result (opens_of self.new ≡ levels.opened (opens_of self.old) next before line (head_of form) for_one ∷ opens_of self.old) }
    {
        let level = self.belongs(next);
        self.push(Block {
            level,
            form,
            for_one,
            line,
            one: None,
            has_else: false,
            before,
        })
    }

    /// The innermost block has an `else`.
    pub fn put_else(&mut self) -> Result<(), Memory>
        ensures { OnOk result (opens_of self.new ≡ levels.with_else (opens_of self.old)) }
    {
        match self.blocks.pop() {
            Some(block) => self.push(Block {
                has_else: true,
                ..block
            }),
            None => Ok(()),
        }
    }

    pub fn close(&mut self)
        ensures { opens_of self.new ≡ drop 1 (opens_of self.old) }
    {
        self.blocks.pop();
    }
}
