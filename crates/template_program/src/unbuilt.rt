// Where a template isn't built yet.
ghost use Rattle.std.specs.Prelude.{◌≡◌, [], None};
ghost use Rattle.template_tree.specs.View.{branches_of, content_of, in_content, item_of, items_of, node_of, notes_of, template_of};
ghost use Rattle.star_unbuilt.specs.Places.{earlier};
ghost use Rattle.passes_spec.specs.Unbuilt.{first_unbuilt as plain_first, unbuilt_branches, unbuilt_content, unbuilt_item, unbuilt_items, unbuilt_notes};

use star_unbuilt::{see_load, see_note};
use template_tree::{TContent, TElif, TElifs, TElse, TItem, TItems, TNode, TNotes, Template};
use ytt_base::fault::Place;

/// Sees which notes aren't built.
fn see_notes(file: u32, notes: &TNotes, first: &mut Option<Place>)
    ensures { first.new ≡ earlier first.old (unbuilt_notes (notes_of file notes.now)) }
{
    for note in notes.as_slice() {
        let place = Place {
            file,
            line: note.line,
        };
        see_note(place, note.name.as_str(), first);
    }
}

/// Sees where items aren't built.
#[cycle(unbuilt)]
fn see_items(file: u32, items: &TItems, first: &mut Option<Place>)
    ensures { first.new ≡ earlier first.old (unbuilt_items (items_of file items.now)) }
{
    let items = items.as_slice();
    let mut left = items.len();
    while left > 0 {
        left -= 1;
        see_item(file, &items[left], first);
    }
}

#[cycle(unbuilt)]
fn see_item(file: u32, item: &TItem, first: &mut Option<Place>)
    ensures { first.new ≡ earlier first.old (unbuilt_item (item_of file item.now)) }
{
    match item {
        TItem::Node(node) => see_node(file, node, first),
        TItem::Code(stmt) => see_load(file, stmt, first),
        TItem::If(_, _, body, elifs, last) => {
            see_items(file, body, first);
            see_elifs(file, elifs, first);
            see_else(file, last, first);
        }
        TItem::For(_, _, _, body) | TItem::Def(_, _, _, _, body) => see_items(file, body, first),
    }
}

#[cycle(unbuilt)]
fn see_elifs(file: u32, elifs: &TElifs, first: &mut Option<Place>)
    ensures { first.new ≡ earlier first.old (unbuilt_branches (branches_of file elifs.now None)) }
{
    let elifs = elifs.as_slice();
    let mut left = elifs.len();
    while left > 0 {
        left -= 1;
        see_elif(file, &elifs[left], first);
    }
}

#[cycle(unbuilt)]
fn see_elif(file: u32, elif: &TElif, first: &mut Option<Place>)
    ensures { first.new ≡ earlier first.old (unbuilt_items (items_of file elif.now.body)) }
{
    see_items(file, &elif.body, first);
}

#[cycle(unbuilt)]
fn see_else(file: u32, last: &Option<TElse>, first: &mut Option<Place>)
    ensures { first.new ≡ earlier first.old (unbuilt_branches (branches_of file [] last.now)) }
{
    match last {
        Some(last) => see_items(file, &last.body, first),
        None => {}
    }
}

#[cycle(unbuilt)]
fn see_node(file: u32, node: &TNode, first: &mut Option<Place>)
    ensures { first.new ≡ earlier first.old (unbuilt_item (node_of file node.now)) }
{
    see_notes(file, &node.notes, first);
    see_value(file, node, first);
}

#[cycle(unbuilt)]
fn see_value(file: u32, node: &TNode, first: &mut Option<Place>)
    ensures { first.new ≡ earlier first.old (unbuilt_content (in_content file node.now.value (content_of file node.now.content))) }
{
    match &node.value {
        Some(_) => {}
        None => see_content(file, &node.content, first),
    }
}

#[cycle(unbuilt)]
fn see_content(file: u32, content: &TContent, first: &mut Option<Place>)
    ensures { first.new ≡ earlier first.old (unbuilt_content (content_of file content.now)) }
{
    match content {
        TContent::Scalar(_) => {}
        TContent::Map(pairs) => see_items(file, pairs, first),
        TContent::List(elements) => see_items(file, elements, first),
    }
}

/// The first place at the least line where a template isn't built.
pub(crate) fn first_unbuilt(template: &Template) -> Option<Place>
    ensures { result ≡ plain_first (unbuilt_items (template_of template.now)) }
{
    let mut first = None;
    see_items(template.file, &template.items, &mut first);
    first
}
