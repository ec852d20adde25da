// Items as instructions, with the numbers of their functions. `next` is the next number; `asked` is whether text templates
// are asked for.
ghost use Rattle.std.specs.Prelude.{◌≡◌, ℕ, [], IfOk};
ghost use Rattle.template_tree.specs.View.{branches_of, content_of, item_of, items_of, node_of, template_of};
ghost use Rattle.template_program.specs.Emits.{EmitsCode, content_in};
ghost use Rattle.template_program.specs.Programs.{HasCode};
ghost use Rattle.template_spec.specs.Compiled.{branches_code, content_code, item_code, items_code};
ghost use Rattle.text_template_spec.specs.TextTemplates.{texted_branches, texted_content, texted_item, texted_items};
ghost use Rattle.ytt_base.specs.Outcomes.{place_at};

use crate::holds::{fragment, holds};
use crate::parts::{put, put_def, put_elif, put_for, put_if, put_notes, put_simple};
use crate::texts::{asked_in, put_key, put_scalar};
use notes_read::{a_code_reader_exists, code_readers_agree};
use sqlite_items::{Boxed, Items};
use star_number::number_owned;
use star_tree::code::{Expr, NodeOp, Program, Stmt};
use std::alloc::Global;
use template_tree::{TContent, TElif, TElifs, TElse, TItem, TItems, TNode, Template};
use ytt_base::fault::{Place, Stop};

/// The program of a template, in the template's file: its statements, the heads and ends of its blocks, and
/// a part of a node for each start, note, key, value and end, in the order of the text. A key and a value that are
/// text templates are expressions. A block is closed at its own line. The number of each function is how many others
/// begin before it in the text. The first fault of a text template in text order is the refusal, and `Stop::Memory`
/// comes where there was no room.
pub(crate) fn program(alloc: Global, template: Template) -> Result<Program, Stop>
    ensures code { HasCode (template_of template) result }
    ensures file { IfOk result (λ p. p.file ≡ template.file) }
{
    a_code_reader_exists();
    code_readers_agree();
    let mut next = 0;
    let mut code = Items::new(alloc);
    let Template { file, items } = template;
    put_items(alloc, file, false, items, &mut next, &mut code)?;
    Ok(Program { file, code })
}

#[cycle(compile)]
fn put_items(
    alloc: Global,
    file: u32,
    asked: bool,
    mut items: TItems,
    next: &mut usize,
    code: &mut Items<Stmt>,
) -> Result<(), Stop>
    ensures { EmitsCode file code.old code.new next.old next.new items_code result (λ r. texted_items r asked (items_of file items)) }
{
    while let Some(item) = items.pop() {
        put_item(alloc, file, asked, item, next, code)?;
    }
    Ok(())
}

#[cycle(compile)]
fn put_item(
    alloc: Global,
    file: u32,
    asked: bool,
    item: TItem,
    next: &mut usize,
    code: &mut Items<Stmt>,
) -> Result<(), Stop>
    ensures { EmitsCode file code.old code.new next.old next.new item_code result (λ r. texted_item r asked (item_of file item)) }
{
    match item {
        TItem::Node(node) => put_node(alloc, file, asked, node, next, code),
        TItem::Code(stmt) => Ok(put_simple(alloc, file, stmt, next, code)?),
        TItem::If(place, test, body, elifs, last) => {
            put_if(alloc, file, place.line, test, next, code)?;
            put_items(alloc, file, asked, body, next, code)?;
            put_branches(alloc, file, asked, place.line, elifs, last, next, code)
        }
        TItem::For(place, target, members, body) => {
            put_for(alloc, file, place.line, target, members, next, code)?;
            put_items(alloc, file, asked, body, next, code)?;
            Ok(put(code, Stmt::Close(place.line))?)
        }
        TItem::Def(place, name, params, kind, body) => {
            let builds = fragment(kind, &body);
            put_def(alloc, file, place.line, name, params, builds, next, code)?;
            put_items(alloc, file, asked, body, next, code)?;
            Ok(put(code, Stmt::Close(place.line))?)
        }
    }
}

#[cycle(compile)]
fn put_branches(
    alloc: Global,
    file: u32,
    asked: bool,
    line: u32,
    mut elifs: TElifs,
    last: Option<TElse>,
    next: &mut usize,
    code: &mut Items<Stmt>,
) -> Result<(), Stop>
    ensures { EmitsCode file code.old code.new next.old next.new (branches_code (place_at file line)) result (λ r. texted_branches r asked (branches_of file elifs last)) }
{
    while let Some(elif) = elifs.pop() {
        let TElif { place, test, body } = elif;
        put_elif(alloc, file, place.line, test, next, code)?;
        put_items(alloc, file, asked, body, next, code)?;
    }
    put_else(alloc, file, asked, line, last, next, code)
}

#[cycle(compile)]
fn put_else(
    alloc: Global,
    file: u32,
    asked: bool,
    line: u32,
    last: Option<TElse>,
    next: &mut usize,
    code: &mut Items<Stmt>,
) -> Result<(), Stop>
    ensures { EmitsCode file code.old code.new next.old next.new (branches_code (place_at file line)) result (λ r. texted_branches r asked (branches_of file [] last)) }
{
    match last {
        None => Ok(put(code, Stmt::Close(line))?),
        Some(TElse { place, body }) => {
            put(code, Stmt::Else(place.line))?;
            put_items(alloc, file, asked, body, next, code)?;
            Ok(put(code, Stmt::Close(line))?)
        }
    }
}

#[cycle(compile)]
fn put_node(
    alloc: Global,
    file: u32,
    asked: bool,
    node: TNode,
    next: &mut usize,
    code: &mut Items<Stmt>,
) -> Result<(), Stop>
    ensures { EmitsCode file code.old code.new next.old next.new item_code result (λ r. texted_item r asked (node_of file node)) }
{
    let holds = holds(&node);
    let TNode {
        place: Place { line, .. },
        kind,
        key,
        notes,
        value,
        content,
    } = node;
    let place = Place { file, line };
    let asked = asked_in(asked, &notes);
    put(code, Stmt::Node(NodeOp::Start(place, kind, holds)))?;
    put_notes(alloc, file, &notes, next, code)?;
    put_key(alloc, asked, place, key, next, code)?;
    put_content(alloc, asked, place, content, value, next, code)?;
    Ok(put(code, Stmt::Node(NodeOp::End(place)))?)
}

#[cycle(compile)]
fn put_content(
    alloc: Global,
    asked: bool,
    place: Place,
    content: TContent,
    value: Option<Boxed<Expr>>,
    next: &mut usize,
    code: &mut Items<Stmt>,
) -> Result<(), Stop>
    ensures { EmitsCode place.file code.old code.new next.old next.new (content_code place) result (λ r. texted_content r asked place (content_in place.file value content)) }
{
    match value {
        Some(expr) => {
            let numbered = number_owned(alloc, place.file, expr, next)?;
            Ok(put(code, Stmt::Node(NodeOp::ValueFrom(place, numbered)))?)
        }
        None => put_written(alloc, asked, place, content, next, code),
    }
}

#[cycle(compile)]
fn put_written(
    alloc: Global,
    asked: bool,
    place: Place,
    content: TContent,
    next: &mut usize,
    code: &mut Items<Stmt>,
) -> Result<(), Stop>
    ensures { EmitsCode place.file code.old code.new next.old next.new (content_code place) result (λ r. texted_content r asked place (content_of place.file content)) }
{
    match content {
        TContent::Scalar(scalar) => put_scalar(alloc, asked, place, scalar, next, code),
        TContent::Map(pairs) => put_items(alloc, place.file, asked, pairs, next, code),
        TContent::List(elements) => put_items(alloc, place.file, asked, elements, next, code),
    }
}
