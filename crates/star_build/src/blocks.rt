// The blocks that are open.
ghost use Rattle.std.specs.Prelude.{◌≡◌, [], ◌∷◌, ◌++◌, reverse, OnOk};
ghost use Rattle.star_build.specs.Around.{outermost};
ghost use Rattle.star_grammar.specs.Language as spec;
ghost use Rattle.star_grammar.specs.declared.part.Block.TheVariants as block;

use star_grammar::{Block, Kind, Terminal};
use std::alloc::Global;
use std::marker::Model;
use ytt_base::text::Memory;

/// Blocks, seen as their list, the innermost first. Where any block may be open around them, that stands behind them, and takes no
/// memory.
#[derive(Drop)]
pub struct Blocks {
    blocks: Vec<Block>,
    around: bool,
}

impl Model for Blocks {
    ghost use Rattle.std.specs.Prelude.{List, reverse, ◌++◌};
    ghost use Rattle.star_build.specs.Around.{outermost};
    ghost use Rattle.star_grammar.specs.declared.part.Block.{Block};

    ghost Value = { List Block };

    ghost view = { λ s. reverse s.blocks.items ++ outermost s.around };
}

fn block_of(kind: Kind) -> Block
    ensures { result ≡ spec.block_of kind }
{
    match kind {
        Kind::Def => Block::Function,
        Kind::For => Block::Loop,
        _ => Block::Branch,
    }
}

/// Whether a function is around, where the innermost block stands last.
fn is_in_function(blocks: &[Block], around: bool) -> bool
    ensures { result ≡ spec.in_function (reverse blocks.now ++ outermost around) }
{
    match blocks.split_last() {
        None => around,
        Some((Block::Anywhere | Block::Function, _)) => true,
        Some((Block::Loop | Block::Branch, outer)) => is_in_function(outer, around),
    }
}

/// Whether a loop of the same function is around, where the innermost block stands last.
fn is_in_loop(blocks: &[Block], around: bool) -> bool
    ensures { result ≡ spec.in_loop (reverse blocks.now ++ outermost around) }
{
    match blocks.split_last() {
        None => around,
        Some((Block::Function, _)) => false,
        Some((Block::Anywhere | Block::Loop, _)) => true,
        Some((Block::Branch, outer)) => is_in_loop(outer, around),
    }
}

impl Blocks {
    /// No block. It takes no memory.
    pub fn new(alloc: Global) -> Blocks
        ensures { result ≡ [] }
    {
        Blocks {
            blocks: Vec::new(alloc),
            around: false,
        }
    }

    /// Any block may be open around. It takes no memory.
    pub fn anywhere(alloc: Global) -> Blocks
        ensures { result ≡ block.Anywhere ∷ [] }
    {
        Blocks {
            blocks: Vec::new(alloc),
            around: true,
        }
    }

    fn push(&mut self, block: Block) -> Result<(), Memory>
        ensures { OnOk result (self.new ≡ block ∷ self.old) }
    {
        self.blocks.push(block)?;
        Ok(())
    }

    fn pop(&mut self)
        ensures { self.new ≡ spec.without_last self.old }
    {
        if self.blocks.pop().is_none() {
            self.around = false;
        }
    }

    /// Opens or closes a block, where the token does.
    pub fn put_token(&mut self, terminal: Terminal) -> Result<(), Memory>
        ensures { OnOk result (self.new ≡ spec.blocks_after terminal self.old) }
    {
        match terminal {
            Terminal::Enter(kind) => self.push(block_of(kind)),
            Terminal::Leave => {
                self.pop();
                Ok(())
            }
            _ => Ok(()),
        }
    }

    /// Whether one more may be open.
    pub fn has_room(&self) -> bool
        ensures { result ≡ spec.has_room self.now }
    {
        let most = if self.around { 49 } else { 50 };
        self.blocks.len() < most
    }

    pub fn in_function(&self) -> bool
        ensures { result ≡ spec.in_function self.now }
    {
        is_in_function(&self.blocks, self.around)
    }

    pub fn in_loop(&self) -> bool
        ensures { result ≡ spec.in_loop self.now }
    {
        is_in_loop(&self.blocks, self.around)
    }

    pub fn outside(&self) -> bool
        ensures { result ≡ spec.outside self.now }
    {
        matches!(self.blocks.last(), None | Some(Block::Anywhere))
    }
}
