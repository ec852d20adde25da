// Tokens.

use ytt_base::fault::FaultKind;
use ytt_base::text::Text;

/// A token whose text is always the same, the end of a line of code, or the end of the text.
#[derive(Clone, Copy)]
pub enum Mark {
    /// `+`
    Plus,
    /// `-`
    Minus,
    /// `*`
    Star,
    /// `**`
    Stars,
    /// `//`
    DoubleSlash,
    /// `%`
    Percent,
    /// `~`
    Tilde,
    /// `&`
    Ampersand,
    /// `|`
    Bar,
    /// `^`
    Caret,
    /// `<<`
    ShiftLeft,
    /// `>>`
    ShiftRight,
    /// `==`
    Equal,
    /// `!=`
    Unequal,
    /// `<`
    Less,
    /// `>`
    Greater,
    /// `<=`
    AtMost,
    /// `>=`
    AtLeast,
    /// `=`
    Assign,
    /// `+=`
    PlusAssign,
    /// `-=`
    MinusAssign,
    /// `*=`
    StarAssign,
    /// `//=`
    DoubleSlashAssign,
    /// `%=`
    PercentAssign,
    /// `&=`
    AmpersandAssign,
    /// `|=`
    BarAssign,
    /// `^=`
    CaretAssign,
    /// `<<=`
    ShiftLeftAssign,
    /// `>>=`
    ShiftRightAssign,
    /// `,`
    Comma,
    /// `:`
    Colon,
    /// `;`
    Semicolon,
    /// `.`
    Dot,
    /// `(`
    Open,
    /// `)`
    Close,
    /// `[`
    OpenBracket,
    /// `]`
    CloseBracket,
    /// `{`
    OpenBrace,
    /// `}`
    CloseBrace,
    And,
    Break,
    Continue,
    Def,
    Elif,
    Else,
    End,
    For,
    If,
    In,
    Lambda,
    Load,
    Not,
    Or,
    Pass,
    Return,
    /// The end of a line outside brackets that has a token.
    LineEnd,
    /// The end of the text.
    TextEnd,
}

/// What a token is. A name, an integer and a text have their values, a text its bytes in UTF-8.
#[derive(Drop)]
pub enum TokenKind {
    Name(Text),
    Int(i128),
    Text(Text),
    Mark(Mark),
}

/// A token: from which byte of the text to which it stands, and the line, from 1, where it begins.
#[derive(Drop)]
pub struct Token {
    pub kind: TokenKind,
    pub start: u64,
    pub end: u64,
    pub line: u32,
}

/// Where code stands: in comments, or in a file of its own, whose lines hold comments themselves.
#[derive(Clone, Copy)]
pub enum Origin {
    Comment,
    File,
}

/// What a letter of a text says: nothing, a byte, or a character by its number.
#[derive(Clone, Copy)]
pub enum Said {
    Nothing,
    Byte(u8),
    Char(u32),
}

/// A letter of a text as it is written: what it says, and how many bytes it has.
#[derive(Clone, Copy)]
pub struct Letter {
    pub said: Said,
    pub size: usize,
}

/// How a text is written: without escapes, in three quotes, and whether it may hold line ends; and
/// its quote.
#[derive(Clone, Copy)]
pub struct Form {
    pub raw: bool,
    pub triple: bool,
    pub lines: bool,
    pub quote: u8,
}

/// What stands at the front of a text: bytes that are no token, the end of a line, a token with its
/// bytes and the line ends in it, or what is no token.
#[derive(Drop)]
pub enum Piece {
    Blank(usize),
    LineEnd,
    Whole(TokenKind, usize, usize),
    Refused(FaultKind),
}

/// Where in a text the next piece stands: behind so many bytes, on which line, in how many brackets,
/// and whether no token stands before it on its line of code.
#[derive(Clone, Copy)]
pub struct Cursor {
    pub at: u64,
    pub line: u32,
    pub depth: u32,
    pub fresh: bool,
}
