// The alternative of a rule by the token ahead.
ghost use Rattle.std.specs.Prelude.{◌≡◌, ◌≤◌, ◌<◌};
ghost use Rattle.star_grammar.specs.Predict as spec;
ghost use Rattle.star_grammar.specs.declared.table.Rule.TheVariants as at;
ghost use Rattle.star_tables.specs.Places.{rule_place};

use star_grammar::{Choice, Kind, Rule};

/// The alternative of a rule that begins with a token of this kind, or that is empty before it; where there is none, one
/// that refuses the token. The tables go by the order of the grammar.
pub fn choice_at(rule: Rule, kind: Kind) -> Choice
    ensures { result ≡ spec.predict rule kind }
{
    let place = rule as u8;
    if place < Rule::LoadsOpen as u8 {
        statement_choice(rule, kind)
    } else if place < Rule::Test as u8 {
        row_choice(rule, kind)
    } else if place < Rule::PrimaryMore as u8 {
        operator_choice(rule, kind)
    } else if place < Rule::List as u8 {
        operand_choice(rule, kind)
    } else if place < Rule::Targets as u8 {
        member_choice(rule, kind)
    } else {
        target_choice(rule, kind)
    }
}

/// Blocks, lines and statements.
fn statement_choice(rule: Rule, kind: Kind) -> Choice
    requires until { rule_place rule < rule_place at.LoadsOpen }
    ensures { result ≡ spec.predict rule kind }
{
    match rule {
        Rule::Top => match kind {
            Kind::TextEnd => Choice::TopEmpty,
            _ => Choice::Top,
        },
        Rule::TopEnd => match kind {
            Kind::LineEnd => Choice::TopNext,
            _ => Choice::TopStop,
        },
        Rule::File => match kind {
            Kind::Elif | Kind::Else | Kind::EndWord => Choice::FileEnd,
            _ => Choice::File,
        },
        Rule::Stmt => match kind {
            Kind::Def => Choice::DefStmt,
            Kind::If => Choice::IfStmt,
            Kind::For => Choice::ForStmt,
            _ => Choice::SimpleStmt,
        },
        Rule::Elifs => match kind {
            Kind::Elif => Choice::Elif,
            Kind::Else => Choice::Else,
            _ => Choice::ElifsEnd,
        },
        Rule::DefHead => Choice::DefHead,
        Rule::IfHead => Choice::IfHead,
        Rule::ElifHead => Choice::ElifHead,
        Rule::ElseHead => Choice::ElseHead,
        Rule::ForHead => Choice::ForHead,
        Rule::EndHead => Choice::EndHead,
        Rule::Header => match kind {
            Kind::Def => Choice::HeaderDef,
            Kind::If => Choice::HeaderIf,
            Kind::Elif => Choice::HeaderElif,
            Kind::Else => Choice::HeaderElse,
            Kind::For => Choice::HeaderFor,
            _ => Choice::HeaderEnd,
        },
        Rule::Line => Choice::Line,
        Rule::LastEnd => match kind {
            Kind::LineEnd => Choice::LastEnd,
            _ => Choice::NoLastEnd,
        },
        Rule::Simple => Choice::Simple,
        Rule::SimpleMore => match kind {
            Kind::Semicolon => Choice::Semicolon,
            _ => Choice::SimpleEnd,
        },
        Rule::SimpleTail => match kind {
            Kind::LineEnd | Kind::TextEnd => Choice::SimpleStop,
            _ => Choice::SimpleNext,
        },
        Rule::Small => match kind {
            Kind::Return => Choice::Return,
            Kind::Break => Choice::Break,
            Kind::Continue => Choice::Continue,
            Kind::Pass => Choice::Pass,
            Kind::Load => Choice::Load,
            _ => Choice::Statement,
        },
        Rule::Result => match kind {
            Kind::Semicolon | Kind::LineEnd | Kind::TextEnd => Choice::NoResult,
            _ => Choice::Result,
        },
        Rule::SmallMore => match kind {
            Kind::Assign => Choice::Assign,
            Kind::Augment => Choice::Augment,
            _ => Choice::SmallEnd,
        },
        _ => unreachable!(),
    }
}

/// Loads, parameters and rows of expressions.
fn row_choice(rule: Rule, kind: Kind) -> Choice
    requires from { rule_place at.LoadsOpen ≤ rule_place rule }
    requires until { rule_place rule < rule_place at.Test }
    ensures { result ≡ spec.predict rule kind }
{
    match rule {
        Rule::LoadsOpen => Choice::LoadsOpen,
        Rule::Loads => match kind {
            Kind::Comma => Choice::LoadComma,
            _ => Choice::LoadsEnd,
        },
        Rule::LoadNext => match kind {
            Kind::Text => Choice::LoadText,
            Kind::Close => Choice::LoadStop,
            _ => Choice::LoadNamed,
        },
        Rule::LoadOne => Choice::LoadOne,
        Rule::LoadAs => Choice::LoadAs,
        Rule::ParamsOpen => Choice::ParamsOpen,
        Rule::Params => match kind {
            Kind::Colon | Kind::Close => Choice::ParamsEnd,
            _ => Choice::Params,
        },
        Rule::ParamsMore => match kind {
            Kind::Comma => Choice::ParamsComma,
            _ => Choice::ParamsStop,
        },
        Rule::Param => match kind {
            Kind::Star => Choice::StarParam,
            Kind::Stars => Choice::StarsParam,
            _ => Choice::Param,
        },
        Rule::ParamName => Choice::ParamName,
        Rule::Default => match kind {
            Kind::Assign => Choice::Default,
            _ => Choice::NoDefault,
        },
        Rule::StarName => match kind {
            Kind::Name | Kind::Constant => Choice::StarName,
            _ => Choice::BareStar,
        },
        Rule::StarsName => Choice::StarsName,
        Rule::Expr => Choice::Expr,
        Rule::ExprMore => match kind {
            Kind::Comma => Choice::ExprComma,
            _ => Choice::ExprEnd,
        },
        Rule::TupleRest => Choice::TupleRest,
        Rule::TupleOpen => Choice::TupleOpen,
        Rule::ExprTail => match kind {
            Kind::Colon
            | Kind::Semicolon
            | Kind::Close
            | Kind::CloseBracket
            | Kind::Assign
            | Kind::Augment
            | Kind::LineEnd
            | Kind::TextEnd => Choice::ExprStop,
            _ => Choice::ExprNext,
        },
        Rule::ExprAfter => match kind {
            Kind::Comma => Choice::ExprAfter,
            _ => Choice::ExprLast,
        },
        Rule::Item => Choice::Item,
        _ => unreachable!(),
    }
}

/// Tests and operators.
fn operator_choice(rule: Rule, kind: Kind) -> Choice
    requires from { rule_place at.Test ≤ rule_place rule }
    requires until { rule_place rule < rule_place at.PrimaryMore }
    ensures { result ≡ spec.predict rule kind }
{
    match rule {
        Rule::Test => match kind {
            Kind::Lambda => Choice::Lambda,
            _ => Choice::Test,
        },
        Rule::TestMore => match kind {
            Kind::If => Choice::IfElse,
            _ => Choice::TestEnd,
        },
        Rule::Or => Choice::Or,
        Rule::OrMore => match kind {
            Kind::Or => Choice::OrMore,
            _ => Choice::OrEnd,
        },
        Rule::OrStep => Choice::OrStep,
        Rule::And => Choice::And,
        Rule::AndMore => match kind {
            Kind::And => Choice::AndMore,
            _ => Choice::AndEnd,
        },
        Rule::AndStep => Choice::AndStep,
        Rule::Not => match kind {
            Kind::Not => Choice::Not,
            _ => Choice::Comparison,
        },
        Rule::CompareMore => match kind {
            Kind::Compare => Choice::Compare,
            Kind::In => Choice::CompareIn,
            Kind::Not => Choice::CompareNotIn,
            _ => Choice::CompareEnd,
        },
        Rule::Bar => Choice::Bar,
        Rule::BarMore => match kind {
            Kind::Bar => Choice::BarMore,
            _ => Choice::BarEnd,
        },
        Rule::BarStep => Choice::BarStep,
        Rule::Caret => Choice::Caret,
        Rule::CaretMore => match kind {
            Kind::Caret => Choice::CaretMore,
            _ => Choice::CaretEnd,
        },
        Rule::CaretStep => Choice::CaretStep,
        Rule::Ampersand => Choice::Ampersand,
        Rule::AmpersandMore => match kind {
            Kind::Ampersand => Choice::AmpersandMore,
            _ => Choice::AmpersandEnd,
        },
        Rule::AmpersandStep => Choice::AmpersandStep,
        Rule::Shift => Choice::Shift,
        Rule::ShiftMore => match kind {
            Kind::Shift => Choice::ShiftMore,
            _ => Choice::ShiftEnd,
        },
        Rule::ShiftStep => Choice::ShiftStep,
        Rule::Sum => Choice::Sum,
        Rule::SumMore => match kind {
            Kind::Sign => Choice::SumMore,
            _ => Choice::SumEnd,
        },
        Rule::SumStep => Choice::SignStep,
        Rule::Product => Choice::Product,
        Rule::ProductMore => match kind {
            Kind::Star | Kind::Times => Choice::ProductMore,
            _ => Choice::ProductEnd,
        },
        Rule::ProductStep => match kind {
            Kind::Star => Choice::StarStep,
            _ => Choice::TimesStep,
        },
        Rule::Unary => match kind {
            Kind::Sign => Choice::Signed,
            Kind::Tilde => Choice::Inverted,
            _ => Choice::Primary,
        },
        _ => unreachable!(),
    }
}

/// Operands and what follows them.
fn operand_choice(rule: Rule, kind: Kind) -> Choice
    requires from { rule_place at.PrimaryMore ≤ rule_place rule }
    requires until { rule_place rule < rule_place at.List }
    ensures { result ≡ spec.predict rule kind }
{
    match rule {
        Rule::PrimaryMore => match kind {
            Kind::Dot | Kind::Open | Kind::OpenBracket => Choice::SuffixMore,
            _ => Choice::SuffixEnd,
        },
        Rule::Suffix => match kind {
            Kind::Dot => Choice::SuffixDot,
            Kind::Open => Choice::SuffixCall,
            _ => Choice::SuffixIndex,
        },
        Rule::Dot => Choice::Dot,
        Rule::Call => Choice::Call,
        Rule::Subscript => match kind {
            Kind::Colon => Choice::From,
            _ => Choice::At,
        },
        Rule::IndexMore => match kind {
            Kind::Comma => Choice::IndexComma,
            Kind::Colon => Choice::IndexSlice,
            _ => Choice::IndexEnd,
        },
        Rule::Index => Choice::Index,
        Rule::SliceRest => Choice::SliceRest,
        Rule::OptionalTest => match kind {
            Kind::Colon | Kind::CloseBracket => Choice::NotGiven,
            _ => Choice::Given,
        },
        Rule::SliceStep => match kind {
            Kind::Colon => Choice::SliceStep,
            _ => Choice::NoStep,
        },
        Rule::Slice => Choice::Slice,
        Rule::NoPart => Choice::NoPart,
        Rule::Operand => match kind {
            Kind::Name => Choice::Name,
            Kind::Constant => Choice::Constant,
            Kind::Int => Choice::Int,
            Kind::Text => Choice::Text,
            Kind::Open => Choice::Grouped,
            Kind::OpenBracket => Choice::Listed,
            _ => Choice::Dicted,
        },
        Rule::Group => Choice::Group,
        Rule::Inside => match kind {
            Kind::Close => Choice::Empty,
            _ => Choice::Inside,
        },
        Rule::ExprsOpen => Choice::ExprsOpen,
        _ => unreachable!(),
    }
}

/// Displays, clauses and arguments.
fn member_choice(rule: Rule, kind: Kind) -> Choice
    requires from { rule_place at.List ≤ rule_place rule }
    requires until { rule_place rule < rule_place at.Targets }
    ensures { result ≡ spec.predict rule kind }
{
    match rule {
        Rule::List => Choice::List,
        Rule::Members => match kind {
            Kind::CloseBracket => Choice::NoMembers,
            _ => Choice::Members,
        },
        Rule::MembersMore => match kind {
            Kind::For => Choice::ListFor,
            Kind::Comma => Choice::MembersComma,
            _ => Choice::MembersEnd,
        },
        Rule::Joined => Choice::Joined,
        Rule::Elements => match kind {
            Kind::CloseBracket => Choice::ElementsEnd,
            _ => Choice::Elements,
        },
        Rule::ElementsMore => match kind {
            Kind::Comma => Choice::ElementsComma,
            _ => Choice::ElementsStop,
        },
        Rule::EntriesOpen => Choice::EntriesOpen,
        Rule::Dict => Choice::Dict,
        Rule::Entries => match kind {
            Kind::CloseBrace => Choice::NoEntries,
            _ => Choice::Entries,
        },
        Rule::EntriesMore => match kind {
            Kind::For => Choice::DictFor,
            Kind::Comma => Choice::EntriesComma,
            _ => Choice::EntriesEnd,
        },
        Rule::EntryJoined => Choice::EntryJoined,
        Rule::Pairs => match kind {
            Kind::CloseBrace => Choice::PairsEnd,
            _ => Choice::Pairs,
        },
        Rule::PairsMore => match kind {
            Kind::Comma => Choice::PairsComma,
            _ => Choice::PairsStop,
        },
        Rule::Pair => Choice::Pair,
        Rule::ClausesOpen => Choice::ClausesOpen,
        Rule::Clauses => match kind {
            Kind::For => Choice::ClauseFor,
            Kind::If => Choice::ClauseIf,
            _ => Choice::ClausesEnd,
        },
        Rule::ForClause => Choice::ForClause,
        Rule::IfClause => Choice::IfClause,
        Rule::Args => match kind {
            Kind::Close | Kind::TextEnd => Choice::ArgsEnd,
            _ => Choice::Args,
        },
        Rule::ArgsMore => match kind {
            Kind::Comma => Choice::ArgsComma,
            _ => Choice::ArgsStop,
        },
        Rule::Argument => Choice::Argument,
        Rule::Arg => match kind {
            Kind::Star => Choice::StarArg,
            Kind::Stars => Choice::StarsArg,
            _ => Choice::Plain,
        },
        Rule::ArgMore => match kind {
            Kind::Assign => Choice::Named,
            _ => Choice::ArgEnd,
        },
        _ => unreachable!(),
    }
}

/// Targets.
fn target_choice(rule: Rule, kind: Kind) -> Choice
    requires from { rule_place at.Targets ≤ rule_place rule }
    ensures { result ≡ spec.predict rule kind }
{
    match rule {
        Rule::Targets => Choice::Targets,
        Rule::TargetsMore => match kind {
            Kind::Comma => Choice::TargetsComma,
            _ => Choice::TargetsEnd,
        },
        Rule::TargetsRest => Choice::TargetsRest,
        Rule::TargetsTail => match kind {
            Kind::In => Choice::TargetsStop,
            _ => Choice::TargetsNext,
        },
        Rule::TargetsAfter => match kind {
            Kind::Comma => Choice::TargetsAfter,
            _ => Choice::TargetsLast,
        },
        Rule::TargetItem => Choice::TargetItem,
        Rule::Target => match kind {
            Kind::Name => Choice::TargetName,
            Kind::Constant => Choice::TargetConstant,
            Kind::Int => Choice::TargetInt,
            Kind::Text => Choice::TargetText,
            Kind::Open => Choice::TargetGroup,
            Kind::OpenBracket => Choice::TargetList,
            _ => Choice::TargetDict,
        },
        Rule::TargetMore => match kind {
            Kind::OpenBracket => Choice::TargetIndex,
            Kind::Dot => Choice::TargetDot,
            Kind::Open => Choice::TargetCall,
            _ => Choice::TargetEnd,
        },
        Rule::MustIndex => match kind {
            Kind::OpenBracket => Choice::MustIndex,
            Kind::Dot => Choice::MustDot,
            _ => Choice::MustCall,
        },
        Rule::TargetSubscript => match kind {
            Kind::Colon => Choice::TargetFrom,
            _ => Choice::TargetAt,
        },
        Rule::TargetAfter => match kind {
            Kind::Comma => Choice::TargetComma,
            Kind::Colon => Choice::TargetSlice,
            _ => Choice::TargetStop,
        },
        Rule::GroupMore => match kind {
            Kind::OpenBracket => Choice::GroupIndex,
            Kind::Dot => Choice::GroupDot,
            Kind::Open => Choice::GroupCall,
            _ => Choice::GroupEnd,
        },
        Rule::GroupSubscript => match kind {
            Kind::Colon => Choice::GroupFrom,
            _ => Choice::GroupAt,
        },
        Rule::GroupAfter => match kind {
            Kind::Comma => Choice::GroupComma,
            Kind::Colon => Choice::GroupSlice,
            _ => Choice::GroupStop,
        },
        Rule::GroupClose => Choice::GroupClose,
        _ => unreachable!(),
    }
}
