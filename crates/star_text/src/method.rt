// A call of a method of a text.
ghost use Rattle.std.specs.Prelude.{◌≡◌, ℕ, List};
ghost use Rattle.star_steps.specs.Names.{Gives, Owns, OwnsAll, seen, state_in, text_value, value_of};
ghost use Rattle.star_values.specs.Owns.{OwnsArguments};
ghost use Rattle.star_values.specs.View.{arguments_in};
ghost use Rattle.star_values.specs.declared.value.Value.TheVariants as value;
ghost use Rattle.text_spec.specs.Methods.{method_in, method_row, row_of, text_method, text_methods};
ghost use Rattle.star_text.specs.Calls.{GivesWith, MethodAnswers, RefusesOther};
ghost use Rattle.star_text.specs.View.{method_of};

use crate::answers::{Made, answer_bytes, answer_members, give, owned};
use crate::costs::pay_operation;
use crate::format::format;
use crate::kinds::read_operands;
use crate::rows::answer;
use crate::table::{TextMethod, method_named, signature_of};
use object_arena::{Arena, CallArgs, Ref, Value, Work};
use star_calls::bind_named;
use star_steps::{Given, refusal};
use ytt_base::fault::{Fault, FaultKind, Place, Stop};
use ytt_base::text::Text;

/// What a method of a text answers: the arguments are bound (`ArgBind`), each is read as its kind
/// (`ValueKind`), the steps are taken (`Steps`), and what must be found and isn't there is `KeyMissing`, each at the place.
fn call(
    arena: &mut Arena,
    place: Place,
    method: TextMethod,
    text: Ref,
    args: CallArgs,
    steps: &mut u64,
) -> Given
    requires text { Owns (seen arena.old) (value.Text text) }
    requires args { OwnsArguments (seen arena.old) args }
    ensures { GivesWith (value.Text text) (method_row place (method_of method)) args result (seen arena.old) (seen arena.new) steps.old steps.new }
{
    let signature = signature_of(method);
    let values = bind_named(arena, signature.needed, signature.optional, args, place)?;
    let answer = answered(arena, place, method, text, values.as_slice(), steps)?;
    give(arena, place, answer)
}

/// The answer for these values of its parameters, behind its cost.
fn answered(
    arena: &Arena,
    place: Place,
    method: TextMethod,
    text: Ref,
    values: &[Value],
    steps: &mut u64,
) -> Result<Made, Stop>
    requires text { Owns (seen arena.now) (value.Text text) }
    requires values { OwnsAll (seen arena.now) values.now }
    ensures { MethodAnswers (seen arena.now) place method (value.Text text) values.now result steps.old steps.new }
{
    let kinds = signature_of(method).kinds;
    let operands = match read_operands(arena, kinds, values)? {
        Some(operands) => operands,
        None => return Err(refusal(arena, FaultKind::ValueKind, place)),
    };
    let receiver = arena.text(text).as_str();
    let answer = answer(arena.alloc(), method, receiver, &operands)?;
    let bytes = Some(answer_bytes(&answer));
    let members = Some(answer_members(&answer));
    pay_operation(
        arena,
        place,
        Value::Text(text),
        values,
        bytes,
        members,
        steps,
    )?;
    Ok(owned(arena.alloc(), answer)?)
}

/// What a method of a text answers, by its name: the arguments are bound (`ArgBind`), each is read as its kind (`ValueKind`), the steps
/// are taken (`Steps`), and what must be found and isn't there is `KeyMissing`; so is a name that no method has, with the name. Of
/// `format` faults come in the text's order: `ValueKind` of a field in no proper form, `IndexRange` and `KeyMissing` of an argument that
/// there isn't. Each stands at the place. Another value has no such methods: `ValueKind`.
pub fn text_method(
    arena: &mut Arena,
    work: &mut Work,
    on: Value,
    name: &Text,
    args: CallArgs,
    at: Place,
) -> Given
    requires on { Owns (seen arena.old) on }
    requires args { OwnsArguments (seen arena.old) args }
    ensures row { GivesWith on (text_method at name.now) args result (seen arena.old) (seen arena.new) work.old.steps work.new.steps }
    ensures other { RefusesOther on at result (seen arena.old) (seen arena.new) work.old.steps work.new.steps }
    ensures depth { work.new.depth ≡ work.old.depth }
{
    match on {
        Value::Text(text) => by_name(arena, at, name, text, args, &mut work.steps),
        _ => Err(refusal(arena, FaultKind::ValueKind, at)),
    }
}

fn by_name(
    arena: &mut Arena,
    place: Place,
    name: &Text,
    text: Ref,
    args: CallArgs,
    steps: &mut u64,
) -> Given
    requires text { Owns (seen arena.old) (value.Text text) }
    requires args { OwnsArguments (seen arena.old) args }
    ensures { (t : List ℕ) → value_of (seen arena.old) (value.Text text) ≡ text_value t →
        Gives (text_method place name.now t (arguments_in (seen arena.old).held args) (state_in (seen arena.old) steps.old)) result (seen arena.old)
        (seen arena.new) steps.new }
{
    if name.as_str() == "format" {
        format(arena, place, text, args, steps)
    } else {
        by_table(arena, place, name, text, args, steps)
    }
}

/// A call of a method of the table.
fn by_table(
    arena: &mut Arena,
    place: Place,
    name: &Text,
    text: Ref,
    args: CallArgs,
    steps: &mut u64,
) -> Given
    requires text { Owns (seen arena.old) (value.Text text) }
    requires args { OwnsArguments (seen arena.old) args }
    ensures { (t : List ℕ) → value_of (seen arena.old) (value.Text text) ≡ text_value t →
        Gives (row_of place name.now (method_in name.now text_methods) t (arguments_in (seen arena.old).held args) (state_in (seen arena.old) steps.old))
        result (seen arena.old) (seen arena.new) steps.new }
{
    match method_named(name.as_str()) {
        Some(method) => call(arena, place, method, text, args, steps),
        None => {
            let detail = name.copy()?;
            Err(Stop::Fault(Fault {
                kind: FaultKind::KeyMissing,
                place: Some(place),
                detail,
            }))
        }
    }
}
