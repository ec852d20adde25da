// A comment that is kept while it may go on.
ghost use Rattle.std.specs.Prelude.{◌≡◌, IfOk, Some, string_bytes};
ghost use Rattle.notes_read.specs.Depths.{depth_of};
ghost use Rattle.notes_read.specs.View.{said_of};
ghost use Rattle.star_grammar.specs.CodeReaders.{GivesCode};
ghost use Rattle.template_events.specs.Heard.{AreOpen, TellsOpen};
ghost use Rattle.template_events.specs.Hearing.{longer_by};
ghost use Rattle.template_events.specs.View.{kept_of, longer_of};
ghost use Rattle.template_spec.specs.Comments.{comment_said};
ghost use Rattle.yaml_noted.specs.View.{comment_of};
ghost use Rattle.ytt_base.specs.Outcomes.{place_at};

use crate::longer::Longer;
use notes_read::{Comment, depth_behind_code, depth_of, read_comment};
use std::alloc::Global;
use yaml_noted::RawComment;
use ytt_base::fault::Stop;
use ytt_base::text::{Memory, Text};

/// A comment as it stands in the text, or once it went on.
#[derive(Drop)]
pub enum Kept<'a> {
    Read(&'a RawComment),
    Longer(Longer),
}

/// With what a comment goes on.
#[derive(Clone, Copy, Drop)]
pub struct Growth<'a> {
    /// The code of the comment below it.
    pub code: &'a str,
    /// How many brackets are open before that.
    pub open: u32,
}

pub fn line_of(comment: &Kept<'_>) -> u32
    ensures { result ≡ (kept_of comment.now).line }
{
    match comment {
        Kept::Read(read) => read.line,
        Kept::Longer(longer) => longer.line,
    }
}

/// How many brackets are open at a comment's end, if it is code. Of one that didn't go on that is counted here: most are never asked.
fn depth_at_end(alloc: Global, comment: &Kept<'_>) -> Result<Option<u32>, Memory>
    ensures { IfOk result (λ d. d ≡ depth_of (kept_of comment.now).text) }
{
    match comment {
        Kept::Read(read) => depth_of(alloc, read),
        Kept::Longer(longer) => Ok(longer.depth),
    }
}

/// How many brackets are open at a comment's end, if it is code that may go on.
pub fn open_at_end(alloc: Global, comment: &Kept<'_>) -> Result<Option<u32>, Memory>
    ensures open { IfOk result (AreOpen (kept_of comment.now).text) }
    ensures may { TellsOpen (kept_of comment.now) result }
{
    match depth_at_end(alloc, comment)? {
        Some(open) if open > 0 => Ok(Some(open)),
        _ => Ok(None),
    }
}

/// A comment as it stands, in a text of its own that may grow, where so many brackets are open at its end.
fn copied(alloc: Global, comment: &RawComment, depth: u32) -> Result<Longer, Memory>
    requires { depth_of comment.now.text ≡ Some depth }
    ensures { IfOk result (λ l. longer_of l ≡ comment_of comment.now) }
{
    Ok(Longer {
        line: comment.line,
        own_line: comment.own_line,
        text: String::from_str(alloc, comment.text.as_str())?,
        depth: Some(depth),
    })
}

/// A comment with more code, behind a line end.
fn with_code(alloc: Global, longer: Longer, growth: Growth<'_>) -> Result<Longer, Memory>
    requires { depth_of (string_bytes longer.text) ≡ Some growth.open }
    ensures { IfOk result (λ l. longer_of l ≡ longer_by (longer_of longer) growth.entry.code.now) }
{
    let Longer {
        line,
        own_line,
        mut text,
        ..
    } = longer;
    text.push_str("\n")?;
    text.push_str(growth.code)?;
    Ok(Longer {
        line,
        own_line,
        text,
        depth: depth_behind_code(alloc, growth.code, growth.open)?,
    })
}

/// A comment with the code of the one below it.
pub fn grown<'a>(alloc: Global, comment: Kept<'a>, growth: Growth<'_>) -> Result<Kept<'a>, Memory>
    requires { depth_of (kept_of comment).text ≡ Some growth.open }
    ensures { IfOk result (λ k. kept_of k ≡ longer_by (kept_of comment.entry) growth.entry.code.now) }
{
    let longer = match comment {
        Kept::Read(read) => copied(alloc, read, growth.open)?,
        Kept::Longer(longer) => longer,
    };
    Ok(Kept::Longer(with_code(alloc, longer, growth)?))
}

fn whole(longer: Longer) -> RawComment
    ensures { comment_of result ≡ longer_of longer }
{
    RawComment {
        line: longer.line,
        own_line: longer.own_line,
        text: Text::of_string(longer.text),
    }
}

/// What a comment says.
pub fn said_by(
    alloc: Global,
    comment: Kept<'_>,
    file: u32,
    ignore_unknown: bool,
) -> Result<Comment, Stop>
    ensures { GivesCode (said_of file) result (λ r. comment_said r ignore_unknown (place_at file (kept_of comment.entry).line) (kept_of comment.entry)) }
{
    match comment {
        Kept::Read(read) => read_comment(alloc, read, file, ignore_unknown),
        Kept::Longer(longer) => read_comment(alloc, &whole(longer), file, ignore_unknown),
    }
}
