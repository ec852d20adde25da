// How high the trees are that alternatives and tokens make, and whether they are targets.
ghost use Rattle.std.specs.Prelude.{◌≡◌};
ghost use Rattle.star_grammar.specs.Effects as spec;

use ll::Effect::{self, Beside, Floor, Keep, Node, Push};
use ll::Flag::{self, All, Always, Never};
use star_grammar::{Action, Added, Kind, Made, Opened, Rule, Stated, Terminal};

fn opened_effect(action: Opened) -> Effect
    ensures { result ≡ spec.opened_effect action }
{
    match action {
        Opened::Exprs => Push(0, Always),
        Opened::Entries | Opened::Clauses | Opened::Params | Opened::Loads | Opened::Missing =>
            Push(0, Never),
        Opened::NoResult | Opened::EmptyTuple => Push(1, Never),
    }
}

fn added_effect(action: Added) -> Effect
    ensures { result ≡ spec.added_effect action }
{
    match action {
        Added::First => Beside(1, All),
        Added::Item => Beside(2, All),
        Added::EmptyList => Beside(1, Never),
        Added::ListFor | Added::Entry | Added::ForClause | Added::LoadAs => Beside(3, Never),
        Added::DictFor => Beside(4, Never),
        Added::IfClause
        | Added::Required
        | Added::Default
        | Added::Star
        | Added::Stars
        | Added::Load => Beside(2, Never),
        Added::BareStar => Floor,
        Added::GroupIndex => Beside(3, Always),
    }
}

fn made_effect(action: Made) -> Effect
    ensures { result ≡ spec.made_effect action }
{
    match action {
        Made::Tuple => Node(1, All),
        Made::Group | Made::List => Node(2, All),
        Made::Dict | Made::Unary | Made::Named | Made::Starred => Node(2, Never),
        Made::Binary | Made::Lambda | Made::Dot | Made::Call => Node(3, Never),
        Made::Conditional => Node(4, Never),
        Made::Index => Node(3, Always),
        Made::Slice => Node(5, Never),
    }
}

fn stated_effect(action: Stated) -> Effect
    ensures { result ≡ spec.stated_effect action }
{
    match action {
        Stated::Word | Stated::Evaluate => Beside(2, Never),
        Stated::WordExpr | Stated::Assign => Beside(3, Never),
        Stated::Load | Stated::Augment | Stated::For | Stated::Def => Beside(4, Never),
    }
}

/// What the end of an alternative makes of the shapes.
pub fn effect_of(action: Action) -> Effect
    ensures { result ≡ spec.effect_of action }
{
    match action {
        Action::Keep => Keep,
        Action::Floor => Floor,
        Action::Open(opened) => opened_effect(opened),
        Action::Add(added) => added_effect(added),
        Action::Make(made) => made_effect(made),
        Action::State(stated) => stated_effect(stated),
    }
}

fn leaf_flag(kind: Kind) -> Flag
    ensures { result ≡ spec.leaf_flag kind }
{
    match kind {
        Kind::Name => Always,
        _ => Never,
    }
}

/// What a token makes of the shapes.
pub fn given(terminal: Terminal) -> Effect
    ensures { result ≡ spec.given terminal }
{
    match terminal {
        Terminal::Kept(_) | Terminal::Enter(_) | Terminal::Leave => Push(0, Always),
        Terminal::Passed(_) => Keep,
        Terminal::Leaf(kind) => Push(1, leaf_flag(kind)),
        Terminal::Word => Push(0, Never),
        Terminal::Param => Push(1, Never),
    }
}

fn kind_of(terminal: Terminal) -> Kind
    ensures { result ≡ spec.kind_of terminal }
{
    match terminal {
        Terminal::Kept(kind)
        | Terminal::Passed(kind)
        | Terminal::Leaf(kind)
        | Terminal::Enter(kind) => kind,
        Terminal::Word | Terminal::Param => Kind::Name,
        Terminal::Leave => Kind::EndWord,
    }
}

fn place(kind: Kind) -> u32
    ensures { result ≡ spec.place kind }
{
    kind as u32
}

fn is_any_name(terminal: Terminal) -> bool
    ensures { result ≡ spec.is_any_name terminal }
{
    matches!(terminal, Terminal::Word | Terminal::Param)
}

/// Whether a token of this kind may stand there.
pub fn takes(terminal: Terminal, kind: Kind) -> bool
    ensures { result ≡ spec.takes terminal kind }
{
    place(kind) == place(kind_of(terminal))
        || (is_any_name(terminal) && place(kind) == place(Kind::Constant))
}

/// What a rule makes of the shapes at least.
pub fn least(rule: Rule) -> &'static [Effect]
    ensures { result.now ≡ spec.least rule }
{
    match rule {
        Rule::Stmt
        | Rule::ElseHead
        | Rule::EndHead
        | Rule::Header
        | Rule::Line
        | Rule::Simple
        | Rule::Small => &[Push(0, Always), Beside(2, Never)],
        Rule::DefHead => &[
            Push(0, Always),
            Push(0, Never),
            Push(0, Never),
            Beside(4, Never),
        ],
        Rule::IfHead | Rule::ElifHead => &[Push(0, Always), Push(1, Always), Beside(3, Never)],
        Rule::ForHead => &[
            Push(0, Always),
            Push(1, Always),
            Push(1, Always),
            Beside(4, Never),
        ],
        Rule::Result | Rule::Inside => &[Push(1, Never)],
        Rule::SmallMore => &[Beside(2, Never)],
        Rule::LoadsOpen
        | Rule::ParamsOpen
        | Rule::OptionalTest
        | Rule::SliceStep
        | Rule::NoPart
        | Rule::EntriesOpen
        | Rule::ClausesOpen => &[Push(0, Never)],
        Rule::LoadOne | Rule::ParamName | Rule::StarsName => &[Push(1, Never), Beside(2, Never)],
        Rule::LoadAs => &[Push(0, Never), Push(1, Never), Beside(3, Never)],
        Rule::Param => &[
            Push(1, Never),
            Beside(2, Never),
            Push(1, Always),
            Beside(2, Never),
        ],
        Rule::Default | Rule::IfClause => &[Push(1, Always), Beside(2, Never)],
        Rule::StarName => &[Floor],
        Rule::Expr
        | Rule::Test
        | Rule::Or
        | Rule::And
        | Rule::Not
        | Rule::Bar
        | Rule::Caret
        | Rule::Ampersand
        | Rule::Shift
        | Rule::Sum
        | Rule::Product
        | Rule::Unary
        | Rule::Operand
        | Rule::Arg
        | Rule::Targets
        | Rule::Target => &[Push(1, Always)],
        Rule::TupleRest | Rule::TargetsRest => &[Beside(1, All), Node(1, All)],
        Rule::TupleOpen => &[Beside(1, All)],
        Rule::Item | Rule::Argument | Rule::TargetItem => &[Push(1, Always), Beside(2, All)],
        Rule::OrStep
        | Rule::AndStep
        | Rule::BarStep
        | Rule::CaretStep
        | Rule::AmpersandStep
        | Rule::ShiftStep
        | Rule::SumStep
        | Rule::ProductStep => &[Push(0, Always), Push(1, Always), Node(3, Never)],
        Rule::Suffix | Rule::Dot => &[Push(0, Always), Push(0, Never), Node(3, Never)],
        Rule::Call => &[Push(0, Always), Push(0, Always), Node(3, Never)],
        Rule::Subscript => &[
            Push(0, Never),
            Push(0, Never),
            Push(0, Never),
            Node(5, Never),
        ],
        Rule::IndexMore | Rule::Index | Rule::TargetAfter => &[Node(3, Always)],
        Rule::SliceRest => &[Push(0, Never), Push(0, Never), Node(5, Never)],
        Rule::Slice => &[Node(5, Never)],
        Rule::Group => &[Push(0, Always), Push(1, Never), Node(2, All)],
        Rule::ExprsOpen => &[Push(0, Always)],
        Rule::List => &[
            Push(0, Always),
            Push(0, Always),
            Beside(1, Never),
            Node(2, All),
        ],
        Rule::Members => &[Beside(1, Never)],
        Rule::MembersMore | Rule::Joined => &[Beside(2, All)],
        Rule::Dict => &[Push(0, Always), Push(0, Never), Node(2, Never)],
        Rule::EntriesMore | Rule::EntryJoined => &[Beside(3, Never)],
        Rule::Pair | Rule::ForClause => &[Push(1, Always), Push(1, Always), Beside(3, Never)],
        Rule::MustIndex => &[Push(0, Always), Push(1, Always), Node(3, Always)],
        Rule::TargetSubscript => &[Push(1, Always), Node(3, Always)],
        Rule::GroupMore => &[Push(0, Always), Push(1, Always), Beside(3, Always)],
        Rule::GroupSubscript => &[Push(1, Always), Beside(3, Always)],
        Rule::GroupAfter | Rule::GroupClose => &[Beside(3, Always)],
        _ => &[],
    }
}
