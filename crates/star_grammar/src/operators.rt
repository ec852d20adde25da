// Operators, by their tokens.
ghost use Rattle.std.specs.Prelude.{◌≡◌};
ghost use Rattle.star_grammar.specs.Trees as spec;

use crate::token::Mark;
use sqlite_items::Boxed;
use star_tree::code::{BinOp, Expr, UnOp};

/// An operator before its operand.
pub fn unary_of(mark: Mark) -> UnOp
    ensures { result ≡ spec.unary_of mark }
{
    match mark {
        Mark::Plus => UnOp::Plus,
        Mark::Tilde => UnOp::Invert,
        Mark::Not => UnOp::Not,
        _ => UnOp::Minus,
    }
}

/// An operator between two operands, where `not` is the first word of `not in`.
fn binary_of(mark: Mark) -> BinOp
    ensures { result ≡ spec.binary_of mark }
{
    match mark {
        Mark::Minus => BinOp::Subtract,
        Mark::Star => BinOp::Multiply,
        Mark::DoubleSlash => BinOp::FloorDivide,
        Mark::Percent => BinOp::Remainder,
        Mark::Ampersand => BinOp::BitAnd,
        Mark::Bar => BinOp::BitOr,
        Mark::Caret => BinOp::BitXor,
        Mark::ShiftLeft => BinOp::ShiftLeft,
        Mark::ShiftRight => BinOp::ShiftRight,
        Mark::Equal => BinOp::Equal,
        Mark::Unequal => BinOp::Unequal,
        Mark::Less => BinOp::Less,
        Mark::Greater => BinOp::Greater,
        Mark::AtMost => BinOp::AtMost,
        Mark::AtLeast => BinOp::AtLeast,
        Mark::In => BinOp::In,
        Mark::Not => BinOp::NotIn,
        _ => BinOp::Add,
    }
}

/// The operator of an assignment that is one.
pub fn augmented_of(mark: Mark) -> BinOp
    ensures { result ≡ spec.augmented_of mark }
{
    match mark {
        Mark::MinusAssign => BinOp::Subtract,
        Mark::StarAssign => BinOp::Multiply,
        Mark::DoubleSlashAssign => BinOp::FloorDivide,
        Mark::PercentAssign => BinOp::Remainder,
        Mark::AmpersandAssign => BinOp::BitAnd,
        Mark::BarAssign => BinOp::BitOr,
        Mark::CaretAssign => BinOp::BitXor,
        Mark::ShiftLeftAssign => BinOp::ShiftLeft,
        Mark::ShiftRightAssign => BinOp::ShiftRight,
        _ => BinOp::Add,
    }
}

/// Two operands and what stands between them.
pub fn operation(line: u32, mark: Mark, left: Boxed<Expr>, right: Boxed<Expr>) -> Expr
    ensures { result ≡ spec.operation line mark left right }
{
    match mark {
        Mark::And => Expr::And(line, left, right),
        Mark::Or => Expr::Or(line, left, right),
        _ => Expr::Binary(line, binary_of(mark), left, right),
    }
}
