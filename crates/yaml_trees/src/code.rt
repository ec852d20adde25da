// Code in comments.
ghost use Rattle.std.specs.Prelude.{◌≡◌, ◌||◌};
ghost use Rattle.std.specs.Option.{option_map};
ghost use Rattle.yaml_noted.specs.View.{comment_of, comments_of, content_of, documents_of, items_of};
ghost use Rattle.yaml_spec.specs.Noted.{code_among, code_beside, code_in_some, code_within, has_code, is_note};

use yaml_noted::{Comments, Content, NotedDocs, NotedItem, NotedItems, RawComment};
use yaml_text::is_note;

fn is_code(comment: &RawComment) -> bool
    ensures { result ≡ is_note comment.now.text }
{
    is_note(comment.text.as_str())
}

fn code_in_some(comments: &Comments) -> bool
    ensures { result ≡ code_in_some (comments_of comments.now) }
{
    for comment in comments.as_slice() {
        if is_code(comment) {
            return true;
        }
    }
    false
}

fn code_beside(trailing: &Option<RawComment>) -> bool
    ensures { result ≡ code_beside (option_map comment_of trailing.now) }
{
    match trailing {
        Some(comment) => is_code(comment),
        None => false,
    }
}

#[cycle(code)]
#[tactic(auto, using(yaml_noted::proofs::Views::views))]
fn code_within(content: &Content) -> bool
    ensures { result ≡ code_within (content_of content.now) }
{
    match content {
        Content::Scalar(_) => false,
        Content::Map(items) => code_among(items),
        Content::List(items) => code_among(items),
    }
}

#[cycle(code)]
fn code_at(item: &NotedItem) -> bool
    ensures { result ≡ (code_in_some (comments_of item.now.before) || code_beside (option_map comment_of item.now.trailing) || code_within (content_of item.now.content)) }
{
    code_in_some(&item.before) || code_beside(&item.trailing) || code_within(&item.content)
}

#[cycle(code)]
fn code_among(items: &NotedItems) -> bool
    ensures { result ≡ code_among (items_of items.now) }
{
    for item in items.as_slice() {
        if code_at(item) {
            return true;
        }
    }
    false
}

/// Whether a comment of the documents begins with `#@`, which makes their text a template.
pub fn has_code(documents: &NotedDocs) -> bool
    ensures { result ≡ has_code (documents_of documents.now) }
{
    code_among(&documents.items) || code_in_some(&documents.after)
}
