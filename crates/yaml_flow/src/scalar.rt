// Scalars in brackets.
ghost use Rattle.std.specs.Prelude.{◌≡◌, ◌≤◌, IfOk, true};
ghost use Rattle.ytt_base.specs.Outcomes.{Gives};
ghost use Rattle.yaml_flow.specs.Members.{plain_scalar, quoted_scalar};
ghost use Rattle.yaml_flow.specs.View.{node_of};
ghost use Rattle.yaml_noted.specs.View.{comments_of};
ghost use Rattle.yaml_spec.specs.Flow.{flow_scalar, size};
ghost use Rattle.yaml_spec.specs.Quotes.{starts_quote};
ghost use Rattle.yaml_text.specs.View.{cursor_of};

use std::alloc::Global;
use yaml_noted::{Comments, Content};
use yaml_plain::read_plain_scalar;
use yaml_quotes::read_quote;
use yaml_text::{Cursor, starts_quote};
use ytt_base::fault::{Place, Stop};
use ytt_base::tree::Tree;

/// A scalar in quotes.
#[tactic(auto, using(yaml_noted::proofs::Views::views))]
fn read_quoted_scalar<'a>(
    alloc: Global,
    open_place: Place,
    comments: Comments,
    cursor: Cursor<'a>,
) -> Result<(Content, Comments, Cursor<'a>), Stop>
    requires { starts_quote cursor.text.now ≡ true }
    ensures node { Gives node_of result (quoted_scalar open_place (comments_of comments) (cursor_of cursor.entry)) }
    ensures within { IfOk result (λ n. size (cursor_of n.2) ≤ size (cursor_of cursor.entry)) }
{
    let (text, behind) = read_quote(alloc, open_place, cursor)?;
    Ok((Content::Scalar(Tree::Str(text)), comments, behind))
}

/// A plain scalar.
#[tactic(auto, using(yaml_noted::proofs::Views::views))]
fn read_plain<'a>(
    alloc: Global,
    comments: Comments,
    cursor: Cursor<'a>,
) -> Result<(Content, Comments, Cursor<'a>), Stop>
    ensures node { Gives node_of result (plain_scalar (comments_of comments) (cursor_of cursor.entry)) }
    ensures within { IfOk result (λ n. size (cursor_of n.2) ≤ size (cursor_of cursor.entry)) }
{
    let (tree, behind) = read_plain_scalar(alloc, true, 0, cursor)?;
    Ok((Content::Scalar(tree), comments, behind))
}

/// A scalar in brackets, with the comments before it, and the place behind it (YAML 1.2.2, 7.3).
/// A quote that nothing closes is told at `open_place`.
pub(crate) fn read_scalar<'a>(
    alloc: Global,
    open_place: Place,
    comments: Comments,
    cursor: Cursor<'a>,
) -> Result<(Content, Comments, Cursor<'a>), Stop>
    ensures node { Gives node_of result (flow_scalar open_place (comments_of comments) (cursor_of cursor.entry)) }
    ensures within { IfOk result (λ n. size (cursor_of n.2) ≤ size (cursor_of cursor.entry)) }
{
    if starts_quote(cursor.text) {
        read_quoted_scalar(alloc, open_place, comments, cursor)
    } else {
        read_plain(alloc, comments, cursor)
    }
}
