// By how much an alternative makes a text higher than its rule does at least.
ghost use Rattle.std.specs.Prelude.{◌≡◌};
ghost use Rattle.star_machine.specs.Weights as spec;

use ll::Shapes;
use star_grammar::Choice;

/// What an alternative makes, beside the least that its rule does.
#[derive(Clone, Copy)]
pub enum Growth {
    /// Nothing that is higher, as most do.
    None,
    /// A tree of this height, with so many levels more.
    New(u8, u8),
    /// So many levels more, above the innermost tree, or above a leaf.
    Above(u8),
    /// So many levels more, above all trees.
    Around(u8),
}

impl Growth {
    /// How many levels more it puts on a tree.
    pub fn levels(self) -> usize
        ensures { result ≡ spec.added self }
    {
        match self {
            Growth::None => 0,
            Growth::New(_, levels) | Growth::Above(levels) | Growth::Around(levels) =>
                levels as usize,
        }
    }

    /// How high a tree is at most that it makes behind these, below the levels that its rule puts on.
    pub fn high(self, shapes: &Shapes) -> usize
        ensures { result ≡ spec.grown self shapes.now }
    {
        match self {
            Growth::None => 0,
            Growth::New(high, _) => high as usize,
            Growth::Above(levels) => shapes.top().high.max(1) as usize + levels as usize,
            Growth::Around(levels) => shapes.highest() as usize + levels as usize,
        }
    }
}

/// What an alternative makes, beside the least that its rule does.
pub fn growth_of(choice: Choice) -> Growth
    ensures { result ≡ spec.growth choice }
{
    match choice {
        Choice::IfStmt
        | Choice::ForStmt
        | Choice::Elif
        | Choice::HeaderIf
        | Choice::HeaderElif
        | Choice::HeaderFor
        | Choice::Return
        | Choice::Load
        | Choice::Statement
        | Choice::Assign
        | Choice::Augment
        | Choice::LoadText
        | Choice::LoadNamed
        | Choice::Params
        | Choice::ExprNext
        | Choice::At
        | Choice::Given
        | Choice::Members
        | Choice::ListFor
        | Choice::Elements
        | Choice::Entries
        | Choice::DictFor
        | Choice::Pairs
        | Choice::ClauseFor
        | Choice::ClauseIf
        | Choice::Args
        | Choice::TargetsNext => Growth::New(1, 0),
        Choice::Listed | Choice::Dicted | Choice::TargetList => Growth::New(1, 1),
        Choice::Lambda
        | Choice::Not
        | Choice::Signed
        | Choice::Inverted
        | Choice::Grouped
        | Choice::StarArg
        | Choice::StarsArg
        | Choice::TargetConstant
        | Choice::TargetInt
        | Choice::TargetText
        | Choice::TargetGroup => Growth::New(2, 1),
        Choice::TargetDict => Growth::New(2, 2),
        Choice::ExprComma
        | Choice::IfElse
        | Choice::OrMore
        | Choice::AndMore
        | Choice::Compare
        | Choice::CompareIn
        | Choice::CompareNotIn
        | Choice::BarMore
        | Choice::CaretMore
        | Choice::AmpersandMore
        | Choice::ShiftMore
        | Choice::SumMore
        | Choice::ProductMore
        | Choice::SuffixMore
        | Choice::IndexComma
        | Choice::Named
        | Choice::TargetsComma
        | Choice::TargetIndex
        | Choice::MustDot
        | Choice::MustCall
        | Choice::TargetComma
        | Choice::GroupComma => Growth::Above(1),
        Choice::TargetDot | Choice::TargetCall | Choice::GroupDot | Choice::GroupCall =>
            Growth::Above(2),
        Choice::TargetFrom | Choice::TargetSlice => Growth::Around(1),
        Choice::GroupFrom | Choice::GroupSlice => Growth::Around(2),
        _ => Growth::None,
    }
}
