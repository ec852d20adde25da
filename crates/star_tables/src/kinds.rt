// What a token is, as far as the grammar looks at it.
ghost use Rattle.std.specs.Prelude.{◌≡◌};
ghost use Rattle.star_grammar.specs.Language as spec;
ghost use Rattle.star_grammar.specs.declared.token.TokenKind.TheVariants as token;

use star_grammar::{Kind, Mark, TokenKind};
use ytt_base::text::Text;

fn is_constant(name: &Text) -> bool
    ensures { result ≡ spec.is_constant name.now }
{
    let name = name.as_str();
    name == "None" || name == "True" || name == "False"
}

fn kind_of_mark(mark: Mark) -> Kind
    ensures { result ≡ spec.kind_of_mark mark }
{
    match mark {
        Mark::Plus | Mark::Minus => Kind::Sign,
        Mark::Star => Kind::Star,
        Mark::Stars => Kind::Stars,
        Mark::DoubleSlash | Mark::Percent => Kind::Times,
        Mark::Tilde => Kind::Tilde,
        Mark::Ampersand => Kind::Ampersand,
        Mark::Bar => Kind::Bar,
        Mark::Caret => Kind::Caret,
        Mark::ShiftLeft | Mark::ShiftRight => Kind::Shift,
        Mark::Equal | Mark::Unequal | Mark::Less | Mark::Greater | Mark::AtMost | Mark::AtLeast =>
            Kind::Compare,
        Mark::Assign => Kind::Assign,
        Mark::Comma => Kind::Comma,
        Mark::Colon => Kind::Colon,
        Mark::Semicolon => Kind::Semicolon,
        Mark::Dot => Kind::Dot,
        Mark::Open => Kind::Open,
        Mark::Close => Kind::Close,
        Mark::OpenBracket => Kind::OpenBracket,
        Mark::CloseBracket => Kind::CloseBracket,
        Mark::OpenBrace => Kind::OpenBrace,
        Mark::CloseBrace => Kind::CloseBrace,
        Mark::And => Kind::And,
        Mark::Break => Kind::Break,
        Mark::Continue => Kind::Continue,
        Mark::Def => Kind::Def,
        Mark::Elif => Kind::Elif,
        Mark::Else => Kind::Else,
        Mark::End => Kind::EndWord,
        Mark::For => Kind::For,
        Mark::If => Kind::If,
        Mark::In => Kind::In,
        Mark::Lambda => Kind::Lambda,
        Mark::Load => Kind::Load,
        Mark::Not => Kind::Not,
        Mark::Or => Kind::Or,
        Mark::Pass => Kind::Pass,
        Mark::Return => Kind::Return,
        Mark::LineEnd => Kind::LineEnd,
        Mark::TextEnd => Kind::TextEnd,
        _ => Kind::Augment,
    }
}

fn kind_of_name(name: &Text) -> Kind
    ensures { result ≡ spec.kind_of_token (token.Name name.now) }
{
    if is_constant(name) {
        Kind::Constant
    } else {
        Kind::Name
    }
}

/// What a token is, as far as the grammar looks at it.
pub fn kind_of(token: &TokenKind) -> Kind
    ensures { result ≡ spec.kind_of_token token.now }
{
    match token {
        TokenKind::Name(name) => kind_of_name(name),
        TokenKind::Int(_) => Kind::Int,
        TokenKind::Text(_) => Kind::Text,
        TokenKind::Mark(mark) => kind_of_mark(*mark),
    }
}

/// The name that a token is.
pub fn name_in(token: &TokenKind) -> &str
    ensures { result.now ≡ spec.name_in token.now }
{
    match token {
        TokenKind::Name(name) => name.as_str(),
        _ => "",
    }
}
