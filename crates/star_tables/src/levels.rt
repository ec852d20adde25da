// Tests and operators: each level stands on the one that binds tighter.
ghost use Rattle.std.specs.Prelude.{◌≡◌, ◌≤◌, ◌<◌};
ghost use Rattle.star_grammar.specs.Table as spec;
ghost use Rattle.star_grammar.specs.declared.table.Choice.TheVariants as at;
ghost use Rattle.star_tables.specs.Places.{choice_place};

use star_grammar::Symbol::{Rule as The, Token};
use star_grammar::Terminal::{Kept, Passed};
use star_grammar::{Choice, Kind, Rule, Symbol};

/// `or` and its right side, in which `and` binds tighter.
fn or_step() -> &'static [Symbol]
    ensures { result.now ≡ spec.body at.OrStep }
{
    &[Token(Kept(Kind::Or)), The(Rule::And)]
}

/// `and` and its right side, in which `not` binds tighter.
fn and_step() -> &'static [Symbol]
    ensures { result.now ≡ spec.body at.AndStep }
{
    &[Token(Kept(Kind::And)), The(Rule::Not)]
}

/// A comparison, behind which no other stands.
fn compare() -> &'static [Symbol]
    ensures { result.now ≡ spec.body at.Compare }
{
    &[Token(Kept(Kind::Compare)), The(Rule::Bar)]
}

/// A sign and its right side: a further sign takes all that stands before it.
fn sign_step() -> &'static [Symbol]
    ensures { result.now ≡ spec.body at.SignStep }
{
    &[Token(Kept(Kind::Sign)), The(Rule::Product)]
}

/// The symbols of an alternative from tests on, as far as operands.
pub fn level_symbols(choice: Choice) -> &'static [Symbol]
    requires from { choice_place at.Test ≤ choice_place choice }
    requires until { choice_place choice < choice_place at.SuffixMore }
    ensures { result.now ≡ spec.body choice }
{
    match choice {
        Choice::Test => &[The(Rule::Or), The(Rule::TestMore)],
        Choice::Lambda => &[
            Token(Kept(Kind::Lambda)),
            The(Rule::ParamsOpen),
            The(Rule::Params),
            Token(Passed(Kind::Colon)),
            The(Rule::Test),
        ],
        Choice::IfElse => &[
            Token(Kept(Kind::If)),
            The(Rule::Or),
            Token(Passed(Kind::Else)),
            The(Rule::Test),
        ],
        Choice::Or => &[The(Rule::And), The(Rule::OrMore)],
        Choice::OrMore => &[The(Rule::OrStep), The(Rule::OrMore)],
        Choice::OrStep => or_step(),
        Choice::And => &[The(Rule::Not), The(Rule::AndMore)],
        Choice::AndMore => &[The(Rule::AndStep), The(Rule::AndMore)],
        Choice::AndStep => and_step(),
        Choice::Not => &[Token(Kept(Kind::Not)), The(Rule::Not)],
        Choice::Comparison => &[The(Rule::Bar), The(Rule::CompareMore)],
        Choice::Compare => compare(),
        Choice::CompareIn => &[Token(Kept(Kind::In)), The(Rule::Bar)],
        Choice::CompareNotIn => &[
            Token(Kept(Kind::Not)),
            Token(Passed(Kind::In)),
            The(Rule::Bar),
        ],
        Choice::Bar => &[The(Rule::Caret), The(Rule::BarMore)],
        Choice::BarMore => &[The(Rule::BarStep), The(Rule::BarMore)],
        Choice::BarStep => &[Token(Kept(Kind::Bar)), The(Rule::Caret)],
        Choice::Caret => &[The(Rule::Ampersand), The(Rule::CaretMore)],
        Choice::CaretMore => &[The(Rule::CaretStep), The(Rule::CaretMore)],
        Choice::CaretStep => &[Token(Kept(Kind::Caret)), The(Rule::Ampersand)],
        Choice::Ampersand => &[The(Rule::Shift), The(Rule::AmpersandMore)],
        Choice::AmpersandMore => &[The(Rule::AmpersandStep), The(Rule::AmpersandMore)],
        Choice::AmpersandStep => &[Token(Kept(Kind::Ampersand)), The(Rule::Shift)],
        Choice::Shift => &[The(Rule::Sum), The(Rule::ShiftMore)],
        Choice::ShiftMore => &[The(Rule::ShiftStep), The(Rule::ShiftMore)],
        Choice::ShiftStep => &[Token(Kept(Kind::Shift)), The(Rule::Sum)],
        Choice::Sum => &[The(Rule::Product), The(Rule::SumMore)],
        Choice::SumMore => &[The(Rule::SumStep), The(Rule::SumMore)],
        Choice::SignStep => sign_step(),
        Choice::Product => &[The(Rule::Unary), The(Rule::ProductMore)],
        Choice::ProductMore => &[The(Rule::ProductStep), The(Rule::ProductMore)],
        Choice::StarStep => &[Token(Kept(Kind::Star)), The(Rule::Unary)],
        Choice::TimesStep => &[Token(Kept(Kind::Times)), The(Rule::Unary)],
        Choice::Signed => &[Token(Kept(Kind::Sign)), The(Rule::Unary)],
        Choice::Inverted => &[Token(Kept(Kind::Tilde)), The(Rule::Unary)],
        Choice::Primary => &[The(Rule::Operand), The(Rule::PrimaryMore)],
        _ => &[],
    }
}
