// Noted documents.

use std::alloc::Global;
use test_shown::Shown;
use yaml_noted::{Comments, Content, NotedDocs, NotedItem, NotedItems, RawComment};
use ytt_base::text::Memory;
use ytt_base::tree::{Key, Tree};

fn truth_word(is: bool) -> &'static str {
    if is { "true" } else { "false" }
}

/// A key: `null`, `true`, `7` or `'text'`.
fn put_key(out: &mut Shown, key: &Key) {
    match key {
        Key::Null => out.put("null"),
        Key::Bool(is) => out.put(truth_word(*is)),
        Key::Int(n) => out.put_number(*n),
        Key::Str(text) => out.put_quoted(text.as_str()),
    }
}

/// A scalar, as a key is.
fn put_scalar(out: &mut Shown, tree: &Tree) {
    match tree {
        Tree::Null => out.put("null"),
        Tree::Bool(is) => out.put(truth_word(*is)),
        Tree::Int(n) => out.put_number(*n),
        Tree::Str(text) => out.put_quoted(text.as_str()),
        Tree::List(_) | Tree::Map(_) => out.put("no scalar"),
    }
}

/// `2# c` for a comment that stands alone on line 2, and `2+# c` for one behind something.
fn put_comment(out: &mut Shown, comment: &RawComment) {
    out.put_number(i128::from(comment.line));
    out.put(if comment.own_line { "" } else { "+" });
    out.put(comment.text.as_str());
}

/// Comments, each in round brackets.
fn put_comments(out: &mut Shown, comments: &Comments) {
    for comment in comments.as_slice() {
        out.put("(");
        put_comment(out, comment);
        out.put(")");
    }
}

/// The comments before an item, `~` where it stands in brackets, its line, and its key and `=`, if it has one.
fn put_front(out: &mut Shown, item: &NotedItem) {
    put_comments(out, &item.before);
    out.put(if item.flow { "~" } else { "" });
    out.put_number(i128::from(item.place.line));
    out.put(":");
    if let Some(key) = &item.key {
        put_key(out, key);
        out.put("=");
    }
}

/// The comment on an item's line, as `<2+# c>`, if it has one.
fn put_trailing(out: &mut Shown, comment: &Option<RawComment>) {
    if let Some(comment) = comment {
        out.put("<");
        put_comment(out, comment);
        out.put(">");
    }
}

/// Items with a text between: what each holds, as `'a'`, `[1:'a' 2:7]` or `{1:'a'=7 2:null=[]}`, with what is noted of it.
#[cycle(items)]
fn put_items(out: &mut Shown, between: &str, items: &NotedItems) {
    for (at, item) in items.as_slice().iter().enumerate() {
        out.put(if at > 0 { between } else { "" });
        put_front(out, item);
        put_content(out, &item.content);
        put_trailing(out, &item.trailing);
    }
}

#[cycle(items)]
fn put_content(out: &mut Shown, content: &Content) {
    match content {
        Content::Scalar(tree) => put_scalar(out, tree),
        Content::List(items) => {
            out.put("[");
            put_items(out, " ", items);
            out.put("]");
        }
        Content::Map(items) => {
            out.put("{");
            put_items(out, " ", items);
            out.put("}");
        }
    }
}

/// Documents with ` | ` between, and behind ` after ` the comments behind them, if there are any. The
/// error is want of memory.
pub fn shown_documents(alloc: Global, documents: &NotedDocs) -> Result<String, Memory> {
    let mut out = Shown::new(alloc);
    put_items(&mut out, " | ", &documents.items);
    if !documents.after.is_empty() {
        out.put(" after ");
        put_comments(&mut out, &documents.after);
    }
    out.take()
}
