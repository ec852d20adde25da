// The value of a text.
ghost use Rattle.std.specs.Prelude.{◌≡◌};
ghost use Rattle.module_spec.specs.JsonCodec.{decode, tree_read};
ghost use Rattle.star_steps.specs.Names.{Gives, Owns, or_fail, seen, state_in, tree_of};
ghost use Rattle.star_values.specs.declared.value.Value.TheVariants as value;
ghost use Rattle.ytt_base.specs.declared.fault.FaultKind.TheVariants as kind;
ghost use Rattle.mod_json.specs.View.{text_at};
ghost use Rattle.mod_json.specs.Walk.{Tells};

use crate::encoding::MAX_DEPTH;
use crate::given::give_tree;
use crate::read::tree_of;
use object_arena::{Arena, Ref};
use serde_json::Value as Json;
use star_steps::{Given, refusal};
use ytt_base::fault::{FaultKind, Place, Stop};
use ytt_base::tree::Tree;

/// A fresh value of a JSON text; the last of members with one key counts. It takes a sixteenth of the bytes of the text and of a text that it
/// is, and its members, as steps. Refusals, at the place: `CodecForm` of a text that isn't JSON, and of a number that is no integer of 64
/// bits; `TooDeep` of more than 100 levels; `Steps`.
pub fn decode(arena: &mut Arena, steps: &mut u64, text: Ref, at: Place) -> Given
    requires { Owns (seen arena.old) (value.Text text) }
    ensures { Gives (decode at (text_at (seen arena.old) text) (state_in (seen arena.old) steps.old)) result (seen arena.old) (seen arena.new) steps.new }
{
    let tree = tree_read(arena, arena.text(text).as_str(), at)?;
    if tree.depth() > MAX_DEPTH {
        return Err(refusal(arena, FaultKind::TooDeep, at));
    }
    give_tree(arena, steps, text, &tree, at)
}

/// The tree that a text is.
fn tree_read(arena: &Arena, text: &str, at: Place) -> Result<Tree, Stop>
    ensures { Tells tree_of result (or_fail kind.CodecForm at (tree_read text.now)) }
{
    match Json::from_str(arena.alloc(), text) {
        Ok(json) => match tree_of(arena.alloc(), &json)? {
            Some(tree) => Ok(tree),
            None => Err(refusal(arena, FaultKind::CodecForm, at)),
        },
        Err(error) => {
            if error.is_memory() {
                return Err(Stop::Memory);
            }
            Err(refusal(arena, FaultKind::CodecForm, at))
        }
    }
}
