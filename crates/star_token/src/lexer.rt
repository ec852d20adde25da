// Cutting a text into tokens.
ghost use Rattle.std.specs.Prelude.{◌≡◌, ◌++◌, ◌∷◌, [], IfOk, OnOk, true};
ghost use Rattle.star_grammar.specs.Tokens as spec;
ghost use Rattle.star_grammar.specs.declared.token.Origin.TheVariants as origin;
ghost use Rattle.star_token.specs.Outcome.{HasCut, HasTokens};

use crate::found::Tokens;
use crate::front::front;
use sqlite_items::Items;
use star_grammar::{Cursor, Mark, Origin, Piece, Token, TokenKind};
use star_letters::behind;
use std::alloc::Global;
use ytt_base::fault::{Fault, FaultKind, Place, Stop};
use ytt_base::text::{Memory, Text};

/// Why a text has no tokens: a piece of it that is none, with its line, or want of memory.
#[derive(Clone, Copy)]
pub enum Halt {
    Refused(FaultKind, u32),
    Memory,
}

impl From<Memory> for Halt {
    ghost use Rattle.std.specs.Prelude.{◌≡◌};
    ghost use Rattle.star_token.specs.declared.lexer.Halt.TheVariants as halt;

    ghost from_gives = { λ _ h. h ≡ halt.Memory };

    fn from(_: Memory) -> Self {
        Halt::Memory
    }
}

/// How many line ends further down a line is, up to the last line that is counted.
fn lower(line: u32, ends: usize) -> u32
    ensures { result ≡ spec.lower line ends }
{
    match u32::try_from(ends) {
        Ok(ends) => line.saturating_add(ends),
        Err(_) => u32::MAX,
    }
}

fn size_of(piece: &Piece) -> usize
    ensures { result ≡ spec.size_of piece.now }
{
    match piece {
        Piece::Blank(size) | Piece::Whole(_, size, _) => *size,
        Piece::LineEnd | Piece::Refused(_) => 1,
    }
}

fn ends_in(piece: &Piece) -> usize
    ensures { result ≡ spec.ends_in piece.now }
{
    match piece {
        Piece::Whole(_, _, ends) => *ends,
        Piece::LineEnd => 1,
        Piece::Blank(_) | Piece::Refused(_) => 0,
    }
}

fn depth_of_mark(depth: u32, mark: Mark) -> u32
    ensures { result ≡ spec.depth_of_mark depth mark }
{
    match mark {
        Mark::Open | Mark::OpenBracket | Mark::OpenBrace => lower(depth, 1),
        Mark::Close | Mark::CloseBracket | Mark::CloseBrace => depth.saturating_sub(1),
        _ => depth,
    }
}

fn depth_after(depth: u32, piece: &Piece) -> u32
    ensures { result ≡ spec.depth_after depth piece.now }
{
    match piece {
        Piece::Whole(TokenKind::Mark(mark), _, _) => depth_of_mark(depth, *mark),
        _ => depth,
    }
}

/// Whether no token stands on the line of code behind a piece.
fn fresh_after(cursor: Cursor, piece: &Piece) -> bool
    ensures { result ≡ spec.fresh_after cursor piece.now }
{
    match piece {
        Piece::Whole(..) => false,
        Piece::LineEnd => cursor.depth == 0 || cursor.fresh,
        Piece::Blank(_) | Piece::Refused(_) => cursor.fresh,
    }
}

/// Where the next piece stands.
fn moved(cursor: Cursor, piece: &Piece) -> Cursor
    ensures { result ≡ spec.moved cursor piece.now }
{
    Cursor {
        at: cursor.at.saturating_add(size_of(piece) as u64),
        line: lower(cursor.line, ends_in(piece)),
        depth: depth_after(cursor.depth, piece),
        fresh: fresh_after(cursor, piece),
    }
}

fn token_at(cursor: Cursor, kind: TokenKind, size: usize) -> Token
    ensures { result ≡ spec.token_at cursor kind size }
{
    Token {
        kind,
        start: cursor.at,
        end: cursor.at.saturating_add(size as u64),
        line: cursor.line,
    }
}

/// Adds the token that a piece is, where it is one: a line end ends a line of code that has a token.
fn push(found: &mut Items<Token>, cursor: Cursor, piece: Piece) -> Result<(), Memory>
    ensures { OnOk result (found.new ≡ found.old ++ spec.tokens_in cursor piece) }
{
    match piece {
        Piece::Whole(kind, size, _) => found.push(token_at(cursor, kind, size))?,
        Piece::LineEnd => {
            if cursor.depth == 0 && !cursor.fresh {
                found.push(token_at(cursor, TokenKind::Mark(Mark::LineEnd), 1))?;
            }
        }
        Piece::Blank(_) | Piece::Refused(_) => {}
    }
    Ok(())
}

/// The tokens of a text whose first line is this one, with its end.
fn cut(alloc: Global, text: &[u8], origin: Origin, line: u32) -> Result<Items<Token>, Halt>
    ensures { HasCut origin line text.now result }
{
    let mut found = Items::new(alloc);
    let mut cursor = Cursor {
        at: 0,
        line,
        depth: 0,
        fresh: true,
    };
    let mut rest = text;
    while let Some((_, more)) = rest.split_first() {
        let piece = front(alloc, origin, rest)?;
        if let Piece::Refused(kind) = piece {
            return Err(Halt::Refused(kind, cursor.line));
        }
        let size = size_of(&piece);
        let next = moved(cursor, &piece);
        push(&mut found, cursor, piece)?;
        cursor = next;
        rest = behind(more, size.saturating_sub(1));
    }
    push_end(&mut found, cursor)?;
    Ok(found)
}

/// Adds the text's end.
fn push_end(found: &mut Items<Token>, cursor: Cursor) -> Result<(), Memory>
    ensures { OnOk result (found.new ≡ found.old ++ spec.end_at cursor ∷ []) }
{
    found.push(token_at(cursor, TokenKind::Mark(Mark::TextEnd), 0))?;
    Ok(())
}

fn tokens_of(
    alloc: Global,
    text: &str,
    origin: Origin,
    file: u32,
    line: u32,
) -> Result<Tokens, Stop>
    ensures cut { HasTokens origin file line text.now result }
    ensures ended { IfOk result (λ ts. spec.ends ts.tokens ≡ true) }
{
    match cut(alloc, text.as_bytes(), origin, line) {
        Ok(tokens) => Ok(Tokens { file, tokens }),
        Err(Halt::Memory) => Err(Stop::Memory),
        Err(Halt::Refused(kind, line)) => Err(Stop::Fault(Fault {
            kind,
            place: Some(Place { file, line }),
            detail: Text::new(alloc),
        })),
    }
}

/// The tokens of the code of comments, in the file of this number.
///
/// `line` is the line of the text's first byte. A text is cut into names, keywords, integers, texts in quotes, operators
/// and punctuation, the longest at its front first; spaces and tabs may stand between any two, and a line end outside brackets
/// that has a token before it is one. The last token is the text's end. The first piece that is no token is refused at its line: an
/// integer past 2^127 - 1 as IntWide; a float, `/` and `/=` as FloatRefused; anything else, an open text and a wrong escape
/// too, as CodeForm. Want of memory is `Stop::Memory`.
pub fn tokens(alloc: Global, text: &str, file: u32, line: u32) -> Result<Tokens, Stop>
    ensures cut { HasTokens origin.Comment file line text.now result }
    ensures ended { IfOk result (λ ts. spec.ends ts.tokens ≡ true) }
{
    tokens_of(alloc, text, Origin::Comment, file, line)
}

/// The tokens of a file of code, from its first line on: as `tokens`, but `#` begins a comment up to the line's end, and texts
/// in three quotes hold line ends.
pub fn file_tokens(alloc: Global, text: &str, file: u32) -> Result<Tokens, Stop>
    ensures cut { HasTokens origin.File file 1 text.now result }
    ensures ended { IfOk result (λ ts. spec.ends ts.tokens ≡ true) }
{
    tokens_of(alloc, text, Origin::File, file, 1)
}
