// The value that begins on a line of a block.
ghost use Rattle.std.specs.Prelude.{◌≡◌, ◌+◌, ◌<◌, ◌≤◌, ◌^◌, [], ◌∷◌, ◌++◌, IfOk, length, true};
ghost use Rattle.ytt_base.specs.Outcomes.{Gives};
ghost use Rattle.yaml_spec.specs.Noted.{is_note};
ghost use Rattle.yaml_spec.specs.Openers.{starts_block};
ghost use Rattle.yaml_spec.specs.Quotes.{starts_quote};
ghost use Rattle.yaml_spec.specs.Values.{ended, has_stray_note, noted, value};
ghost use Rattle.yaml_noted.specs.View.{comments_of, content_of};
ghost use Rattle.yaml_rows.specs.Pieces.{block_value, flow_value, plain_value, quote_value};
ghost use Rattle.yaml_rows.specs.View.{value_of};
ghost use Rattle.yaml_text.specs.View.{cursor_of};

use std::alloc::Global;
use yaml_blocks::{ends_header, header_rest, read_block_at};
use yaml_flow::read_flow;
use yaml_noted::{Comments, Content, RawComment};
use yaml_plain::read_plain_scalar;
use yaml_quotes::read_quote;
use yaml_text::{
    Cursor, first, is_note, refusal, skip_white, starts_block, starts_collection, starts_quote,
};
use ytt_base::fault::{FaultKind, Place, Stop};
use ytt_base::text::{Memory, Text};
use ytt_base::tree::Tree;

/// A value, and what stands around it.
#[derive(Drop)]
pub struct Value {
    pub content: Content,
    /// The comments that go to the next item.
    pub loose: Comments,
    /// The comment that belongs to the item here.
    pub trailing: Option<RawComment>,
    /// Its last line.
    pub last: u32,
}

/// The comments with one more behind them.
fn with_comment(mut comments: Comments, comment: RawComment) -> Result<Comments, Memory>
    ensures { IfOk result (λ cs. cs ≡ comments ++ comment ∷ []) }
{
    comments.push(comment)?;
    Ok(comments)
}

/// A value with a comment behind it, or with none where the text is empty. The comment belongs to an
/// item that starts on its line, and else goes to the next item; a note may not.
#[tactic(auto, unfolding(yaml_spec::specs::Values::noted))]
fn read_noted(
    alloc: Global,
    is_owned: bool,
    content: Content,
    loose: Comments,
    place: Place,
    last: u32,
    text: &str,
) -> Result<Value, Stop>
    ensures { Gives value_of result (noted is_owned (content_of content) (comments_of loose) place last text.now) }
{
    if text.is_empty() {
        return Ok(Value {
            content,
            loose,
            trailing: None,
            last,
        });
    }
    if !is_owned && is_note(text) {
        return Err(refusal(alloc, FaultKind::YamlOut, place));
    }
    let comment = RawComment {
        line: place.line,
        own_line: false,
        text: Text::of(alloc, text)?,
    };
    if is_owned {
        return Ok(Value {
            content,
            loose,
            trailing: Some(comment),
            last,
        });
    }
    Ok(Value {
        content,
        loose: with_comment(loose, comment)?,
        trailing: None,
        last,
    })
}

/// The value that ends at a place, behind which its line holds nothing more, or white space and a
/// comment. `owner` is the line on which an item starts.
#[tactic(auto, unfolding(yaml_spec::specs::Values::ended))]
fn read_ended(
    alloc: Global,
    owner: u32,
    content: Content,
    loose: Comments,
    end: Cursor<'_>,
) -> Result<Value, Stop>
    ensures { Gives value_of result (ended owner (content_of content) (comments_of loose) (cursor_of end.entry)) }
{
    let rest = skip_white(end.text);
    if rest.is_empty() || (first(rest) == b'#' && rest.len() < end.text.len()) {
        let is_owned = end.place.line == owner;
        return read_noted(
            alloc,
            is_owned,
            content,
            loose,
            end.place,
            end.place.line,
            rest,
        );
    }
    Err(refusal(alloc, FaultKind::YamlForm, end.place))
}

/// The value that a flow collection is, with the comment behind it.
fn read_flow_value(
    alloc: Global,
    left: u32,
    open_place: Place,
    owner: u32,
    comments: Comments,
    cursor: Cursor<'_>,
) -> Result<Value, Stop>
    ensures { Gives value_of result (flow_value left open_place owner (comments_of comments) (cursor_of cursor.entry)) }
{
    let (content, loose, end) = read_flow(alloc, left, open_place, comments, cursor)?;
    read_ended(alloc, owner, content, loose, end)
}

/// The value that a string in quotes is, with the comment behind it.
fn read_quote_value(
    alloc: Global,
    open_place: Place,
    owner: u32,
    comments: Comments,
    cursor: Cursor<'_>,
) -> Result<Value, Stop>
    requires { starts_quote cursor.text.now ≡ true }
    ensures { Gives value_of result (quote_value open_place owner (comments_of comments) (cursor_of cursor.entry)) }
{
    let (text, end) = read_quote(alloc, open_place, cursor)?;
    read_ended(
        alloc,
        owner,
        Content::Scalar(Tree::Str(text)),
        comments,
        end,
    )
}

/// Whether a comment that no item may have stands behind a header's indicators.
fn has_stray_note(is_owned: bool, text: &str) -> bool
    ensures { result ≡ has_stray_note is_owned text.now }
{
    !is_owned && ends_header(text) && is_note(skip_white(text))
}

/// The value that a block scalar is, with the comment on the line of its header.
#[tactic(auto, unfolding(crate::specs::Pieces::block_value))]
fn read_block_value(
    alloc: Global,
    least: usize,
    owner: u32,
    comments: Comments,
    cursor: Cursor<'_>,
) -> Result<Value, Stop>
    requires opens { starts_block cursor.text.now ≡ true }
    requires bound { least ≤ 2 ^ 63 }
    requires fits { cursor.place.line + length cursor.below.now < 2 ^ 32 }
    ensures { Gives value_of result (block_value least owner (comments_of comments) (cursor_of cursor.entry)) }
{
    let is_owned = cursor.place.line == owner;
    if has_stray_note(is_owned, header_rest(cursor.text)) {
        return Err(refusal(alloc, FaultKind::YamlOut, cursor.place));
    }
    let (text, comment, end) = read_block_at(alloc, least, cursor)?;
    let content = Content::Scalar(Tree::Str(text));
    read_noted(
        alloc,
        is_owned,
        content,
        comments,
        cursor.place,
        end.place.line,
        comment,
    )
}

/// The value that a plain scalar is, with the comment behind it.
fn read_plain_value(
    alloc: Global,
    least: usize,
    owner: u32,
    comments: Comments,
    cursor: Cursor<'_>,
) -> Result<Value, Stop>
    ensures { Gives value_of result (plain_value least owner (comments_of comments) (cursor_of cursor.entry)) }
{
    let (tree, end) = read_plain_scalar(alloc, false, least, cursor)?;
    read_ended(alloc, owner, Content::Scalar(tree), comments, end)
}

/// The value at its first character: a flow collection, or a scalar of any style (YAML 1.2.2, 7.5 and
/// 8.1), and the comment behind it.
///
/// At most `left` collections may nest in it. Its lines have at least the indent `least`, and what it
/// leaves open is told at `open_place`. `comments` stand before it, and `owner` is the line on which an
/// item starts, or 0.
#[tactic(auto, unfolding(yaml_spec::specs::Values::value))]
pub fn read_value(
    alloc: Global,
    left: u32,
    open_place: Place,
    least: usize,
    owner: u32,
    comments: Comments,
    cursor: Cursor<'_>,
) -> Result<Value, Stop>
    requires bound { least ≤ 2 ^ 63 }
    requires fits { cursor.place.line + length cursor.below.now < 2 ^ 32 }
    ensures { Gives value_of result (value left open_place least owner (comments_of comments) (cursor_of cursor.entry)) }
{
    if starts_collection(cursor.text) {
        return read_flow_value(alloc, left, open_place, owner, comments, cursor);
    }
    if starts_quote(cursor.text) {
        return read_quote_value(alloc, open_place, owner, comments, cursor);
    }
    if starts_block(cursor.text) {
        return read_block_value(alloc, least, owner, comments, cursor);
    }
    read_plain_value(alloc, least, owner, comments, cursor)
}
