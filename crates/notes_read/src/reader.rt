// Reading comments.
ghost use Rattle.std.specs.Prelude.{◌≡◌, ℕ, drop, Ok, IfOk};
ghost use Rattle.notes_read.specs.Depths as depths;
ghost use Rattle.notes_read.specs.View.{said_of};
ghost use Rattle.star_grammar.specs.CodeReaders as brackets;
ghost use Rattle.star_grammar.specs.CodeReaders.{GivesCode};
ghost use Rattle.star_grammar.specs.Tokens as lexed;
ghost use Rattle.star_lines.specs.Depths as lines;
ghost use Rattle.star_tree.specs.Whole.{header_of};
ghost use Rattle.template_spec.specs.Comments as spec;
ghost use Rattle.yaml_noted.specs.View.{comment_of};
ghost use Rattle.ytt_base.specs.Outcomes.{Gives, place_at};

use crate::code::{read_expr, read_header, read_simple};
use crate::comment::Comment;
use crate::notes::{fault, read_note};
use crate::words::{begins, behind, is_for_one, is_header, without_end};
use star_grammar::{Mark, Token, TokenKind};
use star_token::tokens;
use star_tree::code::Header;
use std::alloc::Global;
use yaml_noted::RawComment;
use ytt_base::fault::{FaultKind, Place, Stop};
use ytt_base::text::{Memory, Text};

/// The value expression that code is.
fn read_value(alloc: Global, code: &str, at: Place) -> Result<Comment, Stop>
    ensures { GivesCode (said_of at.file) result (λ r. spec.value_said r at code.now) }
{
    Ok(Comment::Value(read_expr(alloc, code, at)?))
}

fn read_statements(alloc: Global, code: &str, at: Place) -> Result<Comment, Stop>
    ensures { GivesCode (said_of at.file) result (λ r. spec.statements_said r at code.now) }
{
    Ok(Comment::Code(read_simple(alloc, code, at)?))
}

/// What a head or an end of a block says.
fn said(header: Header, for_one: bool) -> Comment
    ensures { (file : ℕ) → spec.header_said for_one (header_of file header) ≡ Ok (said_of file result) }
{
    match header {
        Header::Elif(test) => Comment::Elif(test),
        Header::Else => Comment::Else,
        Header::End => Comment::End,
        head => Comment::Open(head, for_one),
    }
}

/// The head or the end of a block that code is.
fn read_head(alloc: Global, code: &str, at: Place) -> Result<Comment, Stop>
    ensures { GivesCode (said_of at.file) result (λ r. spec.head_said r at code.now) }
{
    let text = without_end(alloc, code)?;
    let header = read_header(alloc, &text, at)?;
    Ok(said(header, is_for_one(code)))
}

/// Code on a line of its own.
fn read_alone(alloc: Global, code: &str, at: Place) -> Result<Comment, Stop>
    ensures { GivesCode (said_of at.file) result (λ r. spec.code_said r at code.now) }
{
    if is_header(code) {
        read_head(alloc, code, at)
    } else {
        read_statements(alloc, code, at)
    }
}

/// A comment that begins with `#@`; `marked` is what stands behind that.
fn read_marked(
    alloc: Global,
    text: &str,
    marked: &str,
    own_line: bool,
    at: Place,
) -> Result<Comment, Stop>
    requires { marked.now ≡ drop 2 text.now }
    ensures { GivesCode (said_of at.file) result (λ r. spec.marked_said r at own_line text.now) }
{
    match behind(text, "#@ ") {
        None => read_note(alloc, marked, at),
        Some(code) => {
            if own_line {
                read_alone(alloc, code, at)
            } else {
                read_value(alloc, code, at)
            }
        }
    }
}

/// A comment that doesn't begin with `#@`.
fn read_plain(alloc: Global, text: &str, ignore_unknown: bool, at: Place) -> Result<Comment, Stop>
    ensures { Gives (said_of at.file) result (spec.plain_said ignore_unknown at text.now) }
{
    if begins(text, "#!") || ignore_unknown {
        Ok(Comment::Ignored)
    } else {
        Err(fault(alloc, FaultKind::PlainComment, at))
    }
}

/// What a comment of a template says.
///
/// `file` is the number of its file, which faults and places name. A comment that begins with `#@` and a space is code: the value
/// expression of the item on its line, or on a line of its own the simple statements of a line, or the head or the end of a block,
/// where `if/end`, `for/end` and `def/end` are heads for one item. With a name directly behind `#@` it is a note, whose arguments
/// stand behind the first space. One that begins with `#!` says nothing, and any other comment says nothing under `ignore_unknown`.
///
/// Faults are NoteForm for a note without a name, and for one of `yaml/` or `data/` with arguments; NoteUnknown for another name than
/// those of the table, which it tells; PlainComment for any other comment, each at the comment's line; and those of its code, where
/// `read_expr`, `read_args`, `read_simple`, `read_header` and `tokens` tell them. Want of memory is `Stop::Memory`.
#[tactic(auto, unfolding(template_spec::specs::Comments::comment_said))]
pub fn read_comment(
    alloc: Global,
    comment: &RawComment,
    file: u32,
    ignore_unknown: bool,
) -> Result<Comment, Stop>
    ensures said { GivesCode (said_of file) result (λ r. spec.comment_said r ignore_unknown (place_at file comment.now.line) (comment_of comment.now)) }
{
    let at = Place {
        file,
        line: comment.line,
    };
    let text = comment.text.as_str();
    match behind(text, "#@") {
        None => read_plain(alloc, text, ignore_unknown, at),
        Some(marked) => read_marked(alloc, text, marked, comment.own_line, at),
    }
}

fn depth_of_mark(depth: u32, mark: Mark) -> u32
    ensures { result ≡ lexed.depth_of_mark depth mark }
{
    match mark {
        Mark::Open | Mark::OpenBracket | Mark::OpenBrace => depth.saturating_add(1),
        Mark::Close | Mark::CloseBracket | Mark::CloseBrace => depth.saturating_sub(1),
        _ => depth,
    }
}

fn depth_behind(depth: u32, token: &TokenKind) -> u32
    ensures { result ≡ brackets.depth_behind depth token.now }
{
    match token {
        TokenKind::Mark(mark) => depth_of_mark(depth, *mark),
        _ => depth,
    }
}

/// How many brackets are open behind tokens, where so many are open before them.
fn open_brackets(tokens: &[Token], before: u32) -> u32
    ensures { result ≡ brackets.brackets before tokens.now }
{
    let mut depth = before;
    for token in tokens {
        depth = depth_behind(depth, &token.kind);
    }
    depth
}

/// How many brackets are open behind a line of code, where so many are open before it, or `None` where a piece of it is no token. The
/// only error is want of memory.
#[tactic(auto, using(crate::proofs::Longer::depths))]
pub fn depth_behind_code(alloc: Global, code: &str, before: u32) -> Result<Option<u32>, Memory>
    ensures depth { IfOk result (λ d. d ≡ lines.depth_behind before code.now) }
{
    match tokens(alloc, code, 1, 1) {
        Ok(found) => Ok(Some(open_brackets(found.tokens.as_slice(), before))),
        Err(Stop::Fault(_)) => Ok(None),
        Err(Stop::Memory) => Err(Memory),
    }
}

/// How many brackets are open at the end of a comment's code, or `None` for a comment that is no code and where a piece of it is no
/// token.
///
/// Where some are open, the comment goes on with the code on the line below (`depths_tell`). The `/end` of a head counts for nothing. The
/// only error is want of memory.
pub fn depth_of(alloc: Global, comment: &RawComment) -> Result<Option<u32>, Memory>
    ensures depth { IfOk result (λ d. d ≡ depths.depth_of comment.now.text) }
{
    match behind(comment.text.as_str(), "#@ ") {
        None => Ok(None),
        Some(code) => {
            let text = without_end(alloc, code)?;
            depth_behind_code(alloc, text.as_str(), 0)
        }
    }
}
