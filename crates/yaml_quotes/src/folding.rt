// Folding of lines.
ghost use Rattle.std.specs.Prelude.{◌≡◌, List, [], ◌∷◌, false, IfOk, OnOk};
ghost use Rattle.yaml_spec.specs.Folding.{Fold, Part, fold_parts};
ghost use Rattle.yaml_quotes.specs.Joining.{part_of, with_parts};

use std::alloc::Global;
use ytt_base::text::{Memory, Text, Texts};

/// What stands between a folded text and its next part.
#[derive(Clone, Copy)]
pub enum Joint {
    /// Nothing: the next part is the first.
    Start,
    /// A break, which becomes a space unless an empty line follows.
    Break,
    /// Nothing: an escaped break, or breaks that the text holds already.
    Joined,
}

impl Joint {
    ghost use Rattle.std.specs.Prelude.{◌&&◌, not};
    ghost use Rattle.yaml_spec.specs.Folding.{is_empty_line};
    ghost use Rattle.yaml_quotes.specs.Joining.{glue, is_start, joint_after};

    fn after(joined: bool) -> Joint
        ensures { result ≡ joint_after joined }
    {
        if joined { Joint::Joined } else { Joint::Break }
    }

    fn glue(self) -> &'static str
        ensures { result.now ≡ glue self }
    {
        match self {
            Joint::Break => " ",
            Joint::Start | Joint::Joined => "",
        }
    }

    /// Whether the next part is an empty line, and so a break. The first part is none.
    fn is_break(self, part: &str, joined: bool) -> bool
        ensures { result ≡ (not (is_start self) && is_empty_line (part_of part.now joined)) }
    {
        match self {
            Joint::Start => false,
            Joint::Break | Joint::Joined => part.is_empty() && !joined,
        }
    }
}

/// A text that is folded part by part.
#[derive(Drop)]
pub struct Folded {
    pub text: String,
    pub joint: Joint,
}

impl Folded {
    /// A text without a part. It takes no memory.
    pub fn new(alloc: Global) -> Folded
        ensures { (parts : List Part) → with_parts result parts ≡ fold_parts parts }
    {
        Folded {
            text: String::new(alloc),
            joint: Joint::Start,
        }
    }

    /// Adds a part that isn't the last; `joined` says that an escaped break ends it.
    pub fn add(&mut self, part: &str, joined: bool) -> Result<(), Memory>
        ensures { OnOk result ((next : Part) (parts : List Part) → with_parts self.old (part_of part.now joined ∷ next ∷ parts) ≡ with_parts self.new (next ∷ parts)) }
    {
        if self.joint.is_break(part, joined) {
            self.text.push('\n')?;
            self.joint = Joint::Joined;
            return Ok(());
        }
        self.text.push_str(self.joint.glue())?;
        self.text.push_str(part)?;
        self.joint = Joint::after(joined);
        Ok(())
    }

    /// The whole text, where this part is the last.
    pub fn finish(self, part: &str) -> Result<Text, Memory>
        ensures { IfOk result (λ t. t ≡ with_parts self (part_of part.now false ∷ [])) }
    {
        let Folded { mut text, joint } = self;
        text.push_str(joint.glue())?;
        text.push_str(part)?;
        Ok(Text::of_string(text))
    }
}

/// The lines of a scalar as one line: a break between two lines is a space, and a break before so
/// many empty lines is so many breaks (YAML 1.2.2, 6.5). The first line and the last count as not
/// empty. The only error is want of memory.
pub fn fold(alloc: Global, parts: &Texts) -> Result<Text, Memory>
    ensures { IfOk result (λ t. t ≡ Fold parts.now) }
{
    let Some((last, front)) = parts.as_slice().split_last() else {
        return Ok(Text::new(alloc));
    };
    let mut folded = Folded::new(alloc);
    for part in front {
        folded.add(part.as_str(), false)?;
    }
    folded.finish(last.as_str())
}
