// Documents, one after another.
ghost use Rattle.std.specs.Prelude.{◌≡◌, ◌≤◌, ◌^◌, [], Ok, option_map, OnOk, true, false};
ghost use Rattle.ytt_base.specs.Outcomes.{Gives};
ghost use Rattle.yaml_noted.specs.View.{comment_of, comments_of, content_of, documents_of, items_of, noted_of};
ghost use Rattle.yaml_rows.specs.View.{row_of};
ghost use Rattle.yaml_spec.specs.Held.{plain_line, plain_lines};
ghost use Rattle.yaml_spec.specs.Read.{document_note, implicit, is_start, marker_row, segments};
ghost use Rattle.yaml_spec.specs.Rows.{has_value};
ghost use Rattle.yaml_read.specs.Documents.{and_items, documents_behind, explicit_part, front_part, items_in, passed_behind, segment_part};
ghost use Rattle.yaml_read.specs.Lines.{FitLines};
ghost use Rattle.yaml_read.specs.Segments.{BeginsWithMarker, FitSegment, segment_of};
ghost use Rattle.yaml_read.specs.View.{part_of, passed_of};

use crate::between::{first_content, push_comments, read_ended};
use crate::markers::{behind_marker, is_start};
use crate::pass::{Passed, pass_lines};
use crate::segments::{Segment, first_line, split_front, split_segment};
use sqlite_items::Items;
use std::alloc::Global;
use yaml_entries::{Found, row_comment};
use yaml_noted::{Comments, Content, NotedDocs, NotedItem, NotedItems, RawComment};
use yaml_rows::{MAX_DEPTH, Row, has_value, open_place_of, row_value};
use yaml_text::{first, refusal};
use ytt_base::fault::{FaultKind, Place, Stop};
use ytt_base::line::Line;
use ytt_base::text::Memory;

/// What stands behind `---`, as a row without a head.
fn marker_row<'a>(alloc: Global, segment: Segment<'a>) -> Row<'a>
    requires { is_start (plain_line segment.marker.now) ≡ true }
    ensures row { row_of [] result ≡ marker_row (segment_of segment.entry) }
    ensures bound { result.least ≤ 2 ^ 63 }
{
    let place = segment.marker.place;
    Row {
        place,
        indent: 0,
        heads: Items::new(alloc),
        is_owned: true,
        least: 0,
        open_place: open_place_of(segment.stop, place),
        text: behind_marker(segment.marker),
        below: segment.lines,
    }
}

/// A document that begins at this place.
fn document(
    place: Place,
    before: Comments,
    trailing: Option<RawComment>,
    content: Content,
) -> NotedItem
    ensures { noted_of result ≡ (document_note place (comments_of before) (option_map comment_of trailing), content_of content) }
{
    NotedItem {
        place,
        key: None,
        before,
        trailing,
        flow: false,
        content,
    }
}

/// What a document holds that begins behind its marker.
fn pass_behind(alloc: Global, segment: Segment<'_>, row: &Row<'_>) -> Result<Passed, Stop>
    requires row { row_of [] row.now ≡ marker_row (segment_of segment) }
    requires bound { row.now.least ≤ 2 ^ 63 }
    requires some { has_value (marker_row (segment_of segment)) ≡ true }
    requires fits { FitSegment segment }
    ensures { Gives passed_of result (passed_behind (segment_of segment.entry) (marker_row (segment_of segment.entry))) }
{
    let value = row_value(alloc, MAX_DEPTH, row, Items::new(alloc))?;
    let skip = value.last.saturating_sub(row.place.line);
    let found = Found {
        content: value.content,
        trailing: value.trailing,
    };
    pass_lines(
        alloc,
        segment.stop,
        false,
        skip,
        value.loose,
        Some(found),
        segment.lines,
    )
}

/// A document with its marker, behind these comments.
fn read_explicit(
    alloc: Global,
    before: Comments,
    segment: Segment<'_>,
) -> Result<(Option<NotedItem>, Comments), Stop>
    requires start { is_start (plain_line segment.marker.now) ≡ true }
    requires fits { FitSegment segment }
    ensures { Gives part_of result (explicit_part (comments_of before) (segment_of segment.entry)) }
{
    let place = segment.marker.place;
    let row = marker_row(alloc, segment);
    if has_value(&row) {
        let Passed { found, after } = pass_behind(alloc, segment, &row)?;
        let item = document(place, before, found.trailing, found.content);
        return Ok((Some(item), after));
    }
    let trailing = row_comment(alloc, &row)?;
    let none: Comments = Items::new(alloc);
    let Passed { found, after } = pass_lines(
        alloc,
        segment.stop,
        false,
        0,
        none,
        None,
        segment.lines,
    )?;
    let item = document(place, before, trailing, found.content);
    Ok((Some(item), after))
}

/// What a marker and the lines below it give, behind these comments: a document, or what closes one.
/// `is_closed` says that a `...` stands before it.
fn read_segment(
    alloc: Global,
    is_closed: bool,
    before: Comments,
    segment: Segment<'_>,
) -> Result<(Option<NotedItem>, Comments), Stop>
    requires { FitSegment segment }
    ensures { Gives part_of result (segment_part is_closed (comments_of before) (segment_of segment.entry)) }
{
    if is_start(segment.marker) {
        return read_explicit(alloc, before, segment);
    }
    if is_closed {
        return Err(refusal(alloc, FaultKind::YamlForm, segment.marker.place));
    }
    let comments = read_ended(alloc, before, segment)?;
    Ok((None, comments))
}

/// What the lines before the first marker give: a document, where they have content. `stop` is the
/// line of the marker, or 0.
fn read_front(
    alloc: Global,
    front: &[Line],
    stop: u32,
) -> Result<(Option<NotedItem>, Comments), Stop>
    requires { FitLines (plain_lines front.now) }
    ensures { Gives part_of result (front_part (plain_lines front.now) stop) }
{
    let none: Comments = Items::new(alloc);
    let Some(line) = first_content(front) else {
        return Ok((None, push_comments(alloc, none, front)?));
    };
    if first(line.text.as_str()) == b'%' {
        return Err(refusal(alloc, FaultKind::YamlOut, line.place));
    }
    let Passed { found, after } = pass_lines(alloc, stop, true, 0, none, None, front)?;
    let before: Comments = Items::new(alloc);
    let item = document(line.place, before, found.trailing, found.content);
    Ok((Some(item), after))
}

/// Puts a document behind others, if there is one.
fn put_document(items: &mut NotedItems, item: Option<NotedItem>) -> Result<(), Memory>
    ensures { OnOk result (items_of items.new ≡ and_items (items_of items.old) (items_in (option_map noted_of item))) }
{
    if let Some(item) = item {
        items.push(item)?;
    }
    Ok(())
}

/// The documents of lines that begin with a marker, behind these items and comments.
fn read_segments(
    alloc: Global,
    first_items: NotedItems,
    before: Comments,
    lines: &[Line],
) -> Result<NotedDocs, Stop>
    requires marked { BeginsWithMarker lines.now }
    requires fits { FitLines (plain_lines lines.now) }
    ensures { Gives documents_of result (let cut = segments (plain_lines lines.now) in documents_behind (items_of first_items) false (comments_of before) cut.1) }
{
    let mut items = first_items;
    let mut comments = before;
    let mut is_closed = false;
    let mut rest = lines;
    'segments: while let Some(segment) = split_segment(rest) {
        let (item, after) = read_segment(alloc, is_closed, comments, segment)?;
        is_closed = item.is_none();
        put_document(&mut items, item)?;
        comments = after;
        rest = segment.next;
    }
    Ok(NotedDocs {
        items,
        after: comments,
    })
}

/// The documents of the lines of a text (YAML 1.2.2, 9.1 and 9.2).
pub fn read_documents(alloc: Global, lines: &[Line]) -> Result<NotedDocs, Stop>
    requires { FitLines (plain_lines lines.now) }
    ensures { Gives documents_of result (let cut = segments (plain_lines lines.now) in implicit cut.0 cut.1) }
{
    let (front, rest) = split_front(lines);
    let (item, after) = read_front(alloc, front, first_line(rest))?;
    let mut items: NotedItems = Items::new(alloc);
    put_document(&mut items, item)?;
    read_segments(alloc, items, after, rest)
}
