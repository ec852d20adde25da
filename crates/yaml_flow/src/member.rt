// How a member begins in brackets, and what follows it.
ghost use Rattle.std.specs.Prelude.{◌≡◌, ◌<◌, ◌≤◌, IfOk};
ghost use Rattle.ytt_base.specs.Outcomes.{Gives};
ghost use Rattle.yaml_flow.specs.Members.{closing, ending, ends_pair, member_start, pair_start, value_place};
ghost use Rattle.yaml_flow.specs.View.{end_of, start_of, value_start};
ghost use Rattle.yaml_noted.specs.View.{comments_of};
ghost use Rattle.yaml_spec.specs.Flow.{is_key_end, is_single_pair, size};
ghost use Rattle.yaml_text.specs.View.{cursor_of};

use crate::key::read_key;
use crate::token::{behind_mark, next_token};
use sqlite_items::Items;
use std::alloc::Global;
use yaml_noted::Comments;
use yaml_text::{
    Cursor, behind, first, is_flow_indicator, is_gap, refusal, skip_white, starts_collection,
    starts_quote,
};
use ytt_base::fault::{FaultKind, Place, Stop};
use ytt_base::tree::Key;

/// Where the node of a member begins.
#[derive(Drop)]
pub(crate) struct Start<'a> {
    /// The key before it, for a pair.
    pub(crate) key: Option<Key>,
    /// Whether there is a node; a key alone has none.
    pub(crate) has_node: bool,
    /// The comments before it and behind the key.
    pub(crate) comments: Comments,
    pub(crate) cursor: Cursor<'a>,
}

/// The mark that closes a map or a list.
pub(crate) fn closing(is_map: bool) -> u8
    ensures { result ≡ closing is_map }
{
    if is_map { b'}' } else { b']' }
}

/// Whether a colon that ends a key begins the text: behind quotes or brackets any, else one before a
/// gap or an indicator (YAML 1.2.2, 7.4.2).
fn is_key_end(is_closed: bool, text: &str) -> bool
    ensures { result ≡ is_key_end is_closed text.now }
{
    if first(text) != b':' {
        return false;
    }
    let rest = behind(text, 1);
    is_closed || is_gap(rest) || is_flow_indicator(first(rest))
}

/// Whether a member that began here and ends there is the key of a single pair.
pub(crate) fn is_single_pair(here: Cursor<'_>, there: Cursor<'_>) -> bool
    ensures { result ≡ is_single_pair (cursor_of here.entry) (cursor_of there.entry) }
{
    let is_closed = starts_quote(here.text) || starts_collection(here.text);
    here.place.line == there.place.line && is_key_end(is_closed, skip_white(there.text))
}

/// Whether the pair ends here: no value stands before this text.
fn ends_pair(text: &str) -> bool
    ensures { result ≡ ends_pair text.now }
{
    first(text) == b',' || first(text) == b'}'
}

/// Where the value of a key begins, if it has one, behind its colon, which may stand on a later line;
/// with the comments between. `is_closed` says that the key is in quotes.
#[tactic(auto, unfolding(crate::specs::Members::value_place))]
fn value_place<'a>(
    alloc: Global,
    open_place: Place,
    is_closed: bool,
    cursor: Cursor<'a>,
) -> Result<(bool, Comments, Cursor<'a>), Stop>
    ensures place { Gives value_start result (value_place open_place is_closed (cursor_of cursor.entry)) }
    ensures within { IfOk result (λ v. size (cursor_of v.2) ≤ size (cursor_of cursor.entry)) }
{
    let (comments, here) = next_token(alloc, open_place, Items::new(alloc), cursor)?;
    if !is_key_end(is_closed, here.text) {
        return Ok((false, comments, here));
    }
    let (comments, value) = next_token(alloc, open_place, comments, behind_mark(here))?;
    Ok((!ends_pair(value.text), comments, value))
}

/// Where the value of a pair begins, with its key.
#[tactic(auto, unfolding(crate::specs::Members::pair_start))]
fn pair_start<'a>(alloc: Global, open_place: Place, cursor: Cursor<'a>) -> Result<Start<'a>, Stop>
    ensures start { Gives start_of result (pair_start open_place (cursor_of cursor.entry)) }
    ensures within { IfOk result (λ s. size (cursor_of s.cursor) ≤ size (cursor_of cursor.entry)) }
{
    let (key, is_closed, behind) = read_key(alloc, cursor)?;
    let (has_node, comments, value) = value_place(alloc, open_place, is_closed, behind)?;
    Ok(Start {
        key: Some(key),
        has_node,
        comments,
        cursor: value,
    })
}

/// Where the node of a member begins: an element is a node, and a pair has it behind its key.
#[tactic(auto, unfolding(crate::specs::Members::member_start))]
pub(crate) fn member_start<'a>(
    alloc: Global,
    open_place: Place,
    is_map: bool,
    cursor: Cursor<'a>,
) -> Result<Start<'a>, Stop>
    ensures start { Gives start_of result (member_start open_place is_map (cursor_of cursor.entry)) }
    ensures within { IfOk result (λ s. size (cursor_of s.cursor) ≤ size (cursor_of cursor.entry)) }
{
    if is_map {
        return pair_start(alloc, open_place, cursor);
    }
    Ok(Start {
        key: None,
        has_node: true,
        comments: Items::new(alloc),
        cursor,
    })
}

/// What follows a member: a comma, or the bracket that closes its collection. Whether it was the last,
/// and the place behind the mark, with the comments before it behind those that stood there already.
#[tactic(auto, unfolding(crate::specs::Members::ending))]
pub(crate) fn read_end<'a>(
    alloc: Global,
    open_place: Place,
    is_map: bool,
    comments: Comments,
    cursor: Cursor<'a>,
) -> Result<(bool, Comments, Cursor<'a>), Stop>
    ensures end { Gives end_of result (ending open_place is_map (comments_of comments) (cursor_of cursor.entry)) }
    ensures within { IfOk result (λ e. size (cursor_of e.2) < size (cursor_of cursor.entry)) }
{
    let (comments, end) = next_token(alloc, open_place, comments, cursor)?;
    let mark = first(end.text);
    if mark == b',' {
        return Ok((false, comments, behind_mark(end)));
    }
    if mark == closing(is_map) {
        return Ok((true, comments, behind_mark(end)));
    }
    Err(refusal(alloc, FaultKind::YamlForm, end.place))
}
