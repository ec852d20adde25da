// The text of a block scalar, line by line.
ghost use Rattle.std.specs.Prelude.{◌≡◌, ◌+◌, ◌++◌, ◌∷◌, ◌^◌, ◌<◌, ◌≤◌, List, [], ℕ, IfOk, OnOk, string_bytes};
ghost use Rattle.yaml_spec.specs.Blocks as plain;
ghost use Rattle.yaml_spec.specs.Blocks.{block_text, end_breaks};
ghost use Rattle.yaml_spec.specs.Folding.{breaks};
ghost use Rattle.yaml_blocks.specs.BlockView.{held_chomp};
ghost use Rattle.yaml_blocks.specs.BlockLines.{before, with_contents};

use crate::header::Chomp;
use std::alloc::Global;
use yaml_text::{first, is_white};
use ytt_base::text::{Memory, Text};

/// The break behind the last line with content.
#[derive(Clone, Copy)]
pub enum Break {
    /// There is none: no line with content has come.
    Start,
    /// It stays.
    Kept,
    /// It is folded, unless the next line with content begins with white space.
    Folded,
}

impl Break {
    ghost use Rattle.std.specs.Prelude.{◌||◌, if◌then◌else◌};
    ghost use Rattle.yaml_blocks.specs.declared.blocktext.Break.TheVariants as break_;
    ghost use Rattle.yaml_blocks.specs.BlockLines.{is_start};

    fn after(is_literal: bool, starts_white: bool) -> Break
        ensures { result ≡ (if is_literal || starts_white then break_.Kept else break_.Folded) }
    {
        if is_literal || starts_white {
            Break::Kept
        } else {
            Break::Folded
        }
    }

    fn is_start(self) -> bool
        ensures { result ≡ is_start self }
    {
        matches!(self, Break::Start)
    }
}

/// A block scalar's text so far.
#[derive(Drop)]
pub struct BlockText {
    pub text: String,
    pub is_literal: bool,
    pub last: Break,
    /// The empty lines behind the last line with content.
    pub empties: usize,
}

fn push_breaks(text: &mut String, count: usize) -> Result<(), Memory>
    ensures { OnOk result (string_bytes text.new ≡ string_bytes text.old ++ breaks count) }
{
    for _ in 0..count {
        text.push_str("\n")?;
    }
    Ok(())
}

/// What stands before a line with content, after so many empty lines.
fn push_before(
    text: &mut String,
    last: Break,
    starts_white: bool,
    empties: usize,
) -> Result<(), Memory>
    requires { empties < 2 ^ 63 }
    ensures { OnOk result (string_bytes text.new ≡ string_bytes text.old ++ before last starts_white empties) }
{
    match last {
        Break::Start => push_breaks(text, empties),
        Break::Kept => push_breaks(text, empties + 1),
        Break::Folded if starts_white => push_breaks(text, empties + 1),
        Break::Folded if empties > 0 => push_breaks(text, empties),
        Break::Folded => Ok(text.push_str(" ")?),
    }
}

/// The number of breaks at the end, where no line has content or not, after so many empty lines.
fn end_breaks(chomp: Chomp, none_has_content: bool, empties: usize) -> usize
    requires { empties < 2 ^ 63 }
    ensures { breaks result ≡ end_breaks (held_chomp chomp) none_has_content empties }
{
    match chomp {
        Chomp::Strip => 0,
        Chomp::Clip => usize::from(!none_has_content),
        Chomp::Keep => empties + usize::from(!none_has_content),
    }
}

impl BlockText {
    /// A text without a line. It takes no memory.
    pub fn new(alloc: Global, is_literal: bool) -> BlockText
        ensures whole { (chomp : plain.Chomp) (contents : List (List ℕ)) → with_contents result chomp contents ≡ block_text is_literal chomp contents }
        ensures none { result.empties ≡ 0 }
    {
        BlockText {
            text: String::new(alloc),
            is_literal,
            last: Break::Start,
            empties: 0,
        }
    }

    /// Adds the content of a line.
    pub fn add(&mut self, content: &str) -> Result<(), Memory>
        requires { self.old.empties < 2 ^ 63 }
        ensures whole { OnOk result ((chomp : plain.Chomp) (contents : List (List ℕ)) → with_contents self.old chomp (content.now ∷ contents) ≡ with_contents self.new chomp contents) }
        ensures counted { OnOk result (self.new.empties ≤ self.old.empties + 1) }
    {
        if content.is_empty() {
            self.empties += 1;
            return Ok(());
        }
        let starts_white = is_white(first(content));
        push_before(&mut self.text, self.last, starts_white, self.empties)?;
        self.text.push_str(content)?;
        self.last = Break::after(self.is_literal, starts_white);
        self.empties = 0;
        Ok(())
    }

    /// The whole text, where no further line has content.
    pub fn finish(self, chomp: Chomp) -> Result<Text, Memory>
        requires { self.empties < 2 ^ 63 }
        ensures { IfOk result (λ t. t ≡ with_contents self (held_chomp chomp) []) }
    {
        let BlockText {
            mut text,
            last,
            empties,
            ..
        } = self;
        push_breaks(&mut text, end_breaks(chomp, last.is_start(), empties))?;
        Ok(Text::of_string(text))
    }
}
