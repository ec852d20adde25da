// What stands in the alternatives, and what their ends make.
ghost use Rattle.std.specs.Prelude.{◌≡◌, ◌≤◌, ◌<◌};
ghost use Rattle.star_grammar.specs.Table as spec;
ghost use Rattle.star_grammar.specs.declared.table.Choice.TheVariants as at;
ghost use Rattle.star_tables.specs.Places.{choice_place};

use crate::levels::level_symbols;
use star_grammar::Kind::{
    Assign, Augment, Break, Close, CloseBrace, CloseBracket, Colon, Comma, Constant, Continue, Def,
    Dot, Elif, Else, For, If, In, Int, LineEnd, Load, Name, Open, OpenBrace, OpenBracket, Pass,
    Return, Semicolon, Star, Stars, Text,
};
use star_grammar::Symbol::{Rule as The, Token};
use star_grammar::Terminal::{Enter, Kept, Leaf, Leave, Param, Passed, Word};
use star_grammar::{Action, Added, Choice, Made, Opened, Rule, Stated, Symbol};

/// The symbols of an alternative. The tables go by the order of the grammar; what they do not name is empty.
pub fn symbols_of(choice: Choice) -> &'static [Symbol]
    ensures { result.now ≡ spec.body choice }
{
    let place = choice as u8;
    if place < Choice::LoadsOpen as u8 {
        statement_symbols(choice)
    } else if place < Choice::Test as u8 {
        row_symbols(choice)
    } else if place < Choice::SuffixMore as u8 {
        level_symbols(choice)
    } else if place < Choice::List as u8 {
        operand_symbols(choice)
    } else if place < Choice::Targets as u8 {
        member_symbols(choice)
    } else {
        target_symbols(choice)
    }
}

/// Blocks, lines and statements.
fn statement_symbols(choice: Choice) -> &'static [Symbol]
    requires until { choice_place choice < choice_place at.LoadsOpen }
    ensures { result.now ≡ spec.body choice }
{
    match choice {
        Choice::Top => &[The(Rule::Stmt), The(Rule::TopEnd)],
        Choice::TopNext => &[Token(Passed(LineEnd)), The(Rule::Top)],
        Choice::File => &[The(Rule::Stmt), Token(Passed(LineEnd)), The(Rule::File)],
        Choice::DefStmt => &[
            The(Rule::DefHead),
            Token(Passed(LineEnd)),
            The(Rule::File),
            The(Rule::EndHead),
        ],
        Choice::IfStmt => &[
            The(Rule::IfHead),
            Token(Passed(LineEnd)),
            The(Rule::File),
            The(Rule::Elifs),
            The(Rule::EndHead),
        ],
        Choice::ForStmt => &[
            The(Rule::ForHead),
            Token(Passed(LineEnd)),
            The(Rule::File),
            The(Rule::EndHead),
        ],
        Choice::SimpleStmt => &[The(Rule::Simple)],
        Choice::Elif => &[
            The(Rule::ElifHead),
            Token(Passed(LineEnd)),
            The(Rule::File),
            The(Rule::Elifs),
        ],
        Choice::Else => &[The(Rule::ElseHead), Token(Passed(LineEnd)), The(Rule::File)],
        Choice::DefHead => &[
            Token(Enter(Def)),
            Token(Word),
            Token(Passed(Open)),
            The(Rule::ParamsOpen),
            The(Rule::Params),
            Token(Passed(Close)),
            Token(Passed(Colon)),
        ],
        Choice::IfHead => &[Token(Enter(If)), The(Rule::Test), Token(Passed(Colon))],
        Choice::ElifHead => &[Token(Kept(Elif)), The(Rule::Test), Token(Passed(Colon))],
        Choice::ElseHead => &[Token(Kept(Else)), Token(Passed(Colon))],
        Choice::ForHead => &[
            Token(Enter(For)),
            The(Rule::Targets),
            Token(Passed(In)),
            The(Rule::Expr),
            Token(Passed(Colon)),
        ],
        Choice::EndHead => &[Token(Leave)],
        Choice::HeaderDef => &[The(Rule::DefHead), The(Rule::LastEnd)],
        Choice::HeaderIf => &[The(Rule::IfHead), The(Rule::LastEnd)],
        Choice::HeaderElif => &[The(Rule::ElifHead), The(Rule::LastEnd)],
        Choice::HeaderElse => &[The(Rule::ElseHead), The(Rule::LastEnd)],
        Choice::HeaderFor => &[The(Rule::ForHead), The(Rule::LastEnd)],
        Choice::HeaderEnd => &[The(Rule::EndHead), The(Rule::LastEnd)],
        Choice::Line => &[The(Rule::Simple), The(Rule::LastEnd)],
        Choice::LastEnd => &[Token(Passed(LineEnd))],
        Choice::Simple | Choice::SimpleNext => &[The(Rule::Small), The(Rule::SimpleMore)],
        Choice::Semicolon => &[Token(Passed(Semicolon)), The(Rule::SimpleTail)],
        Choice::Return => &[Token(Kept(Return)), The(Rule::Result)],
        Choice::Break => &[Token(Kept(Break))],
        Choice::Continue => &[Token(Kept(Continue))],
        Choice::Pass => &[Token(Kept(Pass))],
        Choice::Load => &[
            Token(Kept(Load)),
            Token(Passed(Open)),
            Token(Leaf(Text)),
            The(Rule::LoadsOpen),
            The(Rule::Loads),
            Token(Passed(Close)),
        ],
        Choice::Statement => &[The(Rule::Expr), The(Rule::SmallMore)],
        Choice::Result => &[The(Rule::Expr)],
        Choice::Assign => &[Token(Passed(Assign)), The(Rule::Expr)],
        Choice::Augment => &[Token(Kept(Augment)), The(Rule::Expr)],
        _ => &[],
    }
}

/// Loads, parameters and rows of expressions.
fn row_symbols(choice: Choice) -> &'static [Symbol]
    requires from { choice_place at.LoadsOpen ≤ choice_place choice }
    requires until { choice_place choice < choice_place at.Test }
    ensures { result.now ≡ spec.body choice }
{
    match choice {
        Choice::LoadComma => &[Token(Passed(Comma)), The(Rule::LoadNext)],
        Choice::LoadText => &[The(Rule::LoadOne), The(Rule::Loads)],
        Choice::LoadNamed => &[The(Rule::LoadAs), The(Rule::Loads)],
        Choice::LoadOne => &[Token(Leaf(Text))],
        Choice::LoadAs => &[Token(Word), Token(Passed(Assign)), Token(Leaf(Text))],
        Choice::Params => &[The(Rule::Param), The(Rule::ParamsMore)],
        Choice::ParamsComma => &[Token(Passed(Comma)), The(Rule::Params)],
        Choice::Param => &[The(Rule::ParamName), The(Rule::Default)],
        Choice::StarParam => &[Token(Passed(Star)), The(Rule::StarName)],
        Choice::StarsParam => &[Token(Passed(Stars)), The(Rule::StarsName)],
        Choice::ParamName | Choice::StarName | Choice::StarsName => &[Token(Param)],
        Choice::Default => &[Token(Passed(Assign)), The(Rule::Test)],
        Choice::Expr => &[The(Rule::Test), The(Rule::ExprMore)],
        Choice::ExprComma => &[The(Rule::TupleRest)],
        Choice::TupleRest => &[The(Rule::TupleOpen), The(Rule::ExprTail)],
        Choice::TupleOpen => &[Token(Passed(Comma))],
        Choice::ExprNext => &[The(Rule::Item), The(Rule::ExprAfter)],
        Choice::ExprAfter => &[Token(Passed(Comma)), The(Rule::ExprTail)],
        Choice::Item => &[The(Rule::Test)],
        _ => &[],
    }
}

/// Operands and what follows them.
fn operand_symbols(choice: Choice) -> &'static [Symbol]
    requires from { choice_place at.SuffixMore ≤ choice_place choice }
    requires until { choice_place choice < choice_place at.List }
    ensures { result.now ≡ spec.body choice }
{
    match choice {
        Choice::SuffixMore => &[The(Rule::Suffix), The(Rule::PrimaryMore)],
        Choice::SuffixDot => &[The(Rule::Dot)],
        Choice::SuffixCall => &[The(Rule::Call)],
        Choice::SuffixIndex => &[Token(Kept(OpenBracket)), The(Rule::Subscript)],
        Choice::Dot => &[Token(Kept(Dot)), Token(Word)],
        Choice::Call => &[
            Token(Kept(Open)),
            The(Rule::ExprsOpen),
            The(Rule::Args),
            Token(Passed(Close)),
        ],
        Choice::From => &[
            The(Rule::NoPart),
            Token(Passed(Colon)),
            The(Rule::SliceRest),
        ],
        Choice::At => &[The(Rule::Test), The(Rule::IndexMore)],
        Choice::IndexComma => &[The(Rule::TupleRest), The(Rule::Index)],
        Choice::IndexSlice => &[Token(Passed(Colon)), The(Rule::SliceRest)],
        Choice::IndexEnd => &[The(Rule::Index)],
        Choice::Index | Choice::Slice => &[Token(Passed(CloseBracket))],
        Choice::SliceRest => &[
            The(Rule::OptionalTest),
            The(Rule::SliceStep),
            The(Rule::Slice),
        ],
        Choice::Given => &[The(Rule::Test)],
        Choice::SliceStep => &[Token(Passed(Colon)), The(Rule::OptionalTest)],
        Choice::Name => &[Token(Leaf(Name))],
        Choice::Constant => &[Token(Leaf(Constant))],
        Choice::Int => &[Token(Leaf(Int))],
        Choice::Text => &[Token(Leaf(Text))],
        Choice::Grouped => &[The(Rule::Group)],
        Choice::Listed => &[The(Rule::List)],
        Choice::Dicted => &[The(Rule::Dict)],
        Choice::Group => &[Token(Kept(Open)), The(Rule::Inside), Token(Passed(Close))],
        Choice::Inside => &[The(Rule::Expr)],
        _ => &[],
    }
}

/// Displays, clauses and arguments.
fn member_symbols(choice: Choice) -> &'static [Symbol]
    requires from { choice_place at.List ≤ choice_place choice }
    requires until { choice_place choice < choice_place at.Targets }
    ensures { result.now ≡ spec.body choice }
{
    match choice {
        Choice::List => &[
            Token(Kept(OpenBracket)),
            The(Rule::ExprsOpen),
            The(Rule::Members),
            Token(Passed(CloseBracket)),
        ],
        Choice::Members => &[The(Rule::Test), The(Rule::MembersMore)],
        Choice::ListFor | Choice::DictFor => &[
            The(Rule::ClausesOpen),
            The(Rule::ForClause),
            The(Rule::Clauses),
        ],
        Choice::MembersComma => &[The(Rule::Joined), Token(Passed(Comma)), The(Rule::Elements)],
        Choice::Elements => &[The(Rule::Item), The(Rule::ElementsMore)],
        Choice::ElementsComma => &[Token(Passed(Comma)), The(Rule::Elements)],
        Choice::Dict => &[
            Token(Kept(OpenBrace)),
            The(Rule::EntriesOpen),
            The(Rule::Entries),
            Token(Passed(CloseBrace)),
        ],
        Choice::Entries => &[
            The(Rule::Test),
            Token(Passed(Colon)),
            The(Rule::Test),
            The(Rule::EntriesMore),
        ],
        Choice::EntriesComma => &[
            The(Rule::EntryJoined),
            Token(Passed(Comma)),
            The(Rule::Pairs),
        ],
        Choice::Pairs => &[The(Rule::Pair), The(Rule::PairsMore)],
        Choice::PairsComma => &[Token(Passed(Comma)), The(Rule::Pairs)],
        Choice::Pair => &[The(Rule::Test), Token(Passed(Colon)), The(Rule::Test)],
        Choice::ClauseFor => &[The(Rule::ForClause), The(Rule::Clauses)],
        Choice::ClauseIf => &[The(Rule::IfClause), The(Rule::Clauses)],
        Choice::ForClause => &[
            Token(Passed(For)),
            The(Rule::Targets),
            Token(Passed(In)),
            The(Rule::Or),
        ],
        Choice::IfClause => &[Token(Passed(If)), The(Rule::Or)],
        Choice::Args => &[The(Rule::Argument), The(Rule::ArgsMore)],
        Choice::ArgsComma => &[Token(Passed(Comma)), The(Rule::Args)],
        Choice::Argument => &[The(Rule::Arg)],
        Choice::StarArg => &[Token(Kept(Star)), The(Rule::Test)],
        Choice::StarsArg => &[Token(Kept(Stars)), The(Rule::Test)],
        Choice::Plain => &[The(Rule::Test), The(Rule::ArgMore)],
        Choice::Named => &[Token(Passed(Assign)), The(Rule::Test)],
        _ => &[],
    }
}

/// Targets.
fn target_symbols(choice: Choice) -> &'static [Symbol]
    requires from { choice_place at.Targets ≤ choice_place choice }
    ensures { result.now ≡ spec.body choice }
{
    match choice {
        Choice::Targets => &[The(Rule::Target), The(Rule::TargetsMore)],
        Choice::TargetsComma => &[The(Rule::TargetsRest)],
        Choice::TargetsRest => &[The(Rule::TupleOpen), The(Rule::TargetsTail)],
        Choice::TargetsNext => &[The(Rule::TargetItem), The(Rule::TargetsAfter)],
        Choice::TargetsAfter => &[Token(Passed(Comma)), The(Rule::TargetsTail)],
        Choice::TargetItem => &[The(Rule::Target)],
        Choice::TargetName => &[Token(Leaf(Name)), The(Rule::TargetMore)],
        Choice::TargetConstant => &[Token(Leaf(Constant)), The(Rule::MustIndex)],
        Choice::TargetInt => &[Token(Leaf(Int)), The(Rule::MustIndex)],
        Choice::TargetText => &[Token(Leaf(Text)), The(Rule::MustIndex)],
        Choice::TargetGroup => &[The(Rule::Group), The(Rule::GroupMore)],
        Choice::TargetList => &[The(Rule::List), The(Rule::GroupMore)],
        Choice::TargetDict => &[The(Rule::Dict), The(Rule::MustIndex)],
        Choice::TargetIndex | Choice::MustIndex => &[
            Token(Kept(OpenBracket)),
            The(Rule::TargetSubscript),
        ],
        Choice::TargetDot | Choice::MustDot | Choice::GroupDot => &[
            The(Rule::Dot),
            The(Rule::MustIndex),
        ],
        Choice::TargetCall | Choice::MustCall | Choice::GroupCall => &[
            The(Rule::Call),
            The(Rule::MustIndex),
        ],
        Choice::TargetFrom | Choice::GroupFrom => &[
            The(Rule::NoPart),
            Token(Passed(Colon)),
            The(Rule::SliceRest),
            The(Rule::MustIndex),
        ],
        Choice::TargetAt => &[The(Rule::Test), The(Rule::TargetAfter)],
        Choice::TargetComma => &[
            The(Rule::TupleRest),
            The(Rule::Index),
            The(Rule::TargetMore),
        ],
        Choice::TargetSlice | Choice::GroupSlice => &[
            Token(Passed(Colon)),
            The(Rule::SliceRest),
            The(Rule::MustIndex),
        ],
        Choice::TargetStop => &[The(Rule::Index), The(Rule::TargetMore)],
        Choice::GroupIndex => &[Token(Kept(OpenBracket)), The(Rule::GroupSubscript)],
        Choice::GroupAt => &[The(Rule::Test), The(Rule::GroupAfter)],
        Choice::GroupComma => &[
            The(Rule::TupleRest),
            The(Rule::GroupClose),
            The(Rule::TargetMore),
        ],
        Choice::GroupStop => &[The(Rule::GroupClose), The(Rule::TargetMore)],
        Choice::GroupClose => &[Token(Passed(CloseBracket))],
        _ => &[],
    }
}

/// What the end of an alternative makes.
pub fn action_of(choice: Choice) -> Action
    ensures { result ≡ spec.action_of choice }
{
    match choice {
        Choice::DefHead => Action::State(Stated::Def),
        Choice::IfHead | Choice::ElifHead | Choice::Return => Action::State(Stated::WordExpr),
        Choice::ElseHead | Choice::EndHead | Choice::Break | Choice::Continue | Choice::Pass =>
            Action::State(Stated::Word),
        Choice::ForHead => Action::State(Stated::For),
        Choice::Load => Action::State(Stated::Load),
        Choice::Assign => Action::State(Stated::Assign),
        Choice::Augment => Action::State(Stated::Augment),
        Choice::SmallEnd => Action::State(Stated::Evaluate),
        Choice::NoResult => Action::Open(Opened::NoResult),
        Choice::LoadsOpen => Action::Open(Opened::Loads),
        Choice::ParamsOpen => Action::Open(Opened::Params),
        Choice::NotGiven | Choice::NoStep | Choice::NoPart => Action::Open(Opened::Missing),
        Choice::Empty => Action::Open(Opened::EmptyTuple),
        Choice::ExprsOpen => Action::Open(Opened::Exprs),
        Choice::EntriesOpen => Action::Open(Opened::Entries),
        Choice::ClausesOpen => Action::Open(Opened::Clauses),
        Choice::LoadOne => Action::Add(Added::Load),
        Choice::LoadAs => Action::Add(Added::LoadAs),
        Choice::ParamName => Action::Add(Added::Required),
        Choice::Default => Action::Add(Added::Default),
        Choice::StarName => Action::Add(Added::Star),
        Choice::BareStar => Action::Add(Added::BareStar),
        Choice::StarsName => Action::Add(Added::Stars),
        Choice::TupleOpen => Action::Add(Added::First),
        Choice::Item
        | Choice::MembersEnd
        | Choice::Joined
        | Choice::Argument
        | Choice::TargetItem => Action::Add(Added::Item),
        Choice::NoMembers => Action::Add(Added::EmptyList),
        Choice::ListFor => Action::Add(Added::ListFor),
        Choice::DictFor => Action::Add(Added::DictFor),
        Choice::EntriesEnd | Choice::EntryJoined | Choice::Pair => Action::Add(Added::Entry),
        Choice::ForClause => Action::Add(Added::ForClause),
        Choice::IfClause => Action::Add(Added::IfClause),
        Choice::GroupClose => Action::Add(Added::GroupIndex),
        Choice::TupleRest | Choice::TargetsRest => Action::Make(Made::Tuple),
        Choice::Lambda => Action::Make(Made::Lambda),
        Choice::IfElse => Action::Make(Made::Conditional),
        Choice::OrStep
        | Choice::AndStep
        | Choice::Compare
        | Choice::CompareIn
        | Choice::CompareNotIn
        | Choice::BarStep
        | Choice::CaretStep
        | Choice::AmpersandStep
        | Choice::ShiftStep
        | Choice::SignStep
        | Choice::StarStep
        | Choice::TimesStep => Action::Make(Made::Binary),
        Choice::Not | Choice::Signed | Choice::Inverted => Action::Make(Made::Unary),
        Choice::Dot => Action::Make(Made::Dot),
        Choice::Call => Action::Make(Made::Call),
        Choice::Index => Action::Make(Made::Index),
        Choice::Slice => Action::Make(Made::Slice),
        Choice::Group => Action::Make(Made::Group),
        Choice::List => Action::Make(Made::List),
        Choice::Dict => Action::Make(Made::Dict),
        Choice::StarArg | Choice::StarsArg => Action::Make(Made::Starred),
        Choice::Named => Action::Make(Made::Named),
        Choice::NoDefault | Choice::GroupEnd => Action::Floor,
        _ => Action::Keep,
    }
}
