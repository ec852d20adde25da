// The heads of a line.
ghost use Rattle.std.specs.Prelude.{◌≡◌, ◌+◌, ◌<◌, ◌^◌, IfOk, length};
ghost use Rattle.yaml_spec.specs.Rows as plain;
ghost use Rattle.yaml_spec.specs.Rows.{has_tab_before, is_dash};
ghost use Rattle.yaml_rows.specs.Heads.{key_head, with_heads};
ghost use Rattle.yaml_rows.specs.View.{heads_of};

use crate::keys::read_key;
use crate::row::{Head, Heads, Mark};
use sqlite_items::Items;
use std::alloc::Global;
use yaml_text::{behind, first, indent, is_gap, skip_white};
use ytt_base::text::Memory;

/// Whether the white space at the start of a text has a tab.
#[tactic(auto, using(crate::proofs::DashHeads::whites))]
pub fn has_tab_before(text: &str) -> bool
    ensures { result ≡ has_tab_before text.now }
{
    indent(text) < text.len() - skip_white(text).len()
}

/// Whether a dash that begins an element starts the text.
fn is_dash(text: &str) -> bool
    ensures { result ≡ is_dash text.now }
{
    first(text) == b'-' && is_gap(behind(text, 1))
}

/// The heads with the key at the start of a text behind them, if one stands there, and the text
/// behind them.
fn read_key_head<'a>(
    alloc: Global,
    mut heads: Heads,
    column: usize,
    has_tab: bool,
    text: &'a str,
) -> Result<(Heads, &'a str), Memory>
    ensures { IfOk result (λ r. (heads_of r.0, r.1.now) ≡ with_heads (heads_of heads) (key_head column has_tab text.now)) }
{
    match read_key(alloc, text)? {
        Some((mark, behind)) => {
            heads.push(Head {
                column,
                has_tab,
                mark,
            })?;
            Ok((heads, skip_white(behind)))
        }
        None => Ok((heads, text)),
    }
}

/// The heads of a line from a column on, and the text behind them (YAML 1.2.2, 8.2.1 and 8.2.3).
/// `has_tab` says that a tab stands before the first.
pub fn read_heads<'a>(
    alloc: Global,
    column: usize,
    has_tab: bool,
    text: &'a str,
) -> Result<(Heads, &'a str), Memory>
    requires { column + length text.now < 2 ^ 63 }
    ensures { IfOk result (λ r. (heads_of r.0, r.1.now) ≡ plain.heads_of (length text.now) column has_tab text.now) }
{
    let mut heads = Items::new(alloc);
    let mut here = column;
    let mut tab = has_tab;
    let mut rest = text;
    'dashes: while is_dash(rest) {
        heads.push(Head {
            column: here,
            has_tab: tab,
            mark: Mark::Dash,
        })?;
        let behind = behind(rest, 1);
        rest = skip_white(behind);
        here += 1 + (behind.len() - rest.len());
        tab = has_tab_before(behind);
    }
    read_key_head(alloc, heads, here, tab, rest)
}
