// Where an alternative may begin, and where a token may stand.
ghost use Rattle.std.specs.Prelude.{◌≡◌};
ghost use Rattle.ll.specs.Shapes as shape;
ghost use Rattle.star_grammar.specs.Language as spec;
ghost use Rattle.star_grammar.specs.Language.{value};

use ll::Shapes;
use star_build::{Blocks, Parts};
use star_grammar::{Choice, Terminal, Token};
use star_tables::{kind_of, name_in, takes};

/// Whether the innermost tree is a target.
fn is_target(shapes: &Shapes) -> bool
    ensures { result ≡ (shape.top shapes.now).target }
{
    shapes.top().target
}

/// Whether an alternative may begin after what was read.
pub fn allows(choice: Choice, parts: &Parts, shapes: &Shapes, blocks: &Blocks) -> bool
    ensures { result ≡ spec.allowed choice (value parts.now shapes.now blocks.now) }
{
    match choice {
        Choice::Assign | Choice::GroupEnd => is_target(shapes),
        Choice::Augment => parts.is_place() && is_target(shapes),
        Choice::Named => parts.is_name() && shapes.top().high == 1,
        Choice::Params => !parts.has_stars(),
        Choice::StarParam => !parts.has_star(),
        Choice::NoDefault => parts.may_be_required(),
        Choice::Return => blocks.in_function(),
        Choice::Break | Choice::Continue => blocks.in_loop(),
        Choice::Load => blocks.outside(),
        Choice::DefStmt | Choice::IfStmt | Choice::ForStmt => blocks.has_room(),
        _ => true,
    }
}

/// Whether no parameter has the token's name, where it is a parameter.
fn is_free(terminal: Terminal, token: &Token, parts: &Parts) -> bool
    ensures { result ≡ spec.is_free terminal token.now.kind parts.now }
{
    match terminal {
        Terminal::Param => !parts.has_name(name_in(&token.kind)),
        _ => true,
    }
}

/// Whether a token may stand here.
pub fn may_stand(terminal: Terminal, token: &Token, parts: &Parts) -> bool
    ensures { result ≡ spec.may_stand terminal token.now.kind parts.now }
{
    takes(terminal, kind_of(&token.kind)) && is_free(terminal, token, parts)
}
