// What the notes of an item say of its type.
ghost use Rattle.std.specs.Prelude.{◌≡◌, List};
ghost use Rattle.ytt_base.specs.Outcomes.{fault_at};
ghost use Rattle.ytt_base.specs.View.{tree_of};
ghost use Rattle.ytt_base.specs.declared.fault.FaultKind.TheVariants as kind;
ghost use Rattle.ytt_base.specs.declared.fault.Stop.TheVariants as stop;
ghost use Rattle.value_spec.specs.Values as plain;
ghost use Rattle.star_values.specs.Objects.{seen};
ghost use Rattle.star_values.specs.Owns.{Owns, OwnsAll, OwnsOption, note_values};
ghost use Rattle.star_values.specs.View.{View, arguments_in, notes_in, option_in, value_of};
ghost use Rattle.node_build.specs.Parts.{Spends, Tells};
ghost use Rattle.schema_spec.specs.Arguments.{no_arguments, only_argument};
ghost use Rattle.schema_spec.specs.Reading.{and_any, and_default, and_nullable, converted, nothing_said, read_notes, recast_fault, says_any};
ghost use Rattle.schema_read.specs.View.{given, said_of, with_note};

use node_build::to_tree;
use object_arena::{Arena, BuiltNote, CallArgs, Value, Work};
use star_steps::refusal;
use ytt_base::fault::{Fault, FaultKind, Place, Stop};
use ytt_base::tree::Tree;

/// What the notes of an item say: whether null may stand, whether anything may, and another default, if there is one.
#[derive(Drop)]
pub(crate) struct Said {
    pub(crate) nullable: bool,
    pub(crate) is_any: bool,
    pub(crate) default: Option<Tree>,
}

/// The refusal of a schema at a place.
pub(crate) fn schema_form(arena: &Arena, place: Place) -> Stop
    ensures { result ≡ stop.Fault (fault_at kind.SchemaForm place) }
{
    refusal(arena, FaultKind::SchemaForm, place)
}

/// Whether there is no argument.
fn has_none(args: &CallArgs) -> bool
    ensures { (held : List plain.Value) → result ≡ no_arguments (arguments_in held args.now) }
{
    args.positional.is_empty() && args.named.is_empty()
}

/// The one argument by position, where there is no other.
fn only_argument(args: &CallArgs) -> Option<Value>
    ensures value { (held : List plain.Value) → option_in held result ≡ only_argument (arguments_in held args.now) }
    ensures owned { (a : View) → OwnsAll a args.now.positional → OwnsOption a result }
{
    if !args.named.is_empty() {
        return None;
    }
    match args.positional.as_slice() {
        [] => None,
        [value] => Some(*value),
        [_, _, ..] => None,
    }
}

/// Whether the one argument is `any=True`.
fn says_any(args: &CallArgs) -> bool
    ensures { (held : List plain.Value) → result ≡ says_any (arguments_in held args.now) }
{
    if !args.positional.is_empty() {
        return false;
    }
    match args.named.as_slice() {
        [] => false,
        [only] => only.name.as_str() == "any" && matches!(only.value, Value::Bool(true)),
        [_, _, ..] => false,
    }
}

/// A refusal; that a value has no tree is one of the schema.
fn recast(arena: &Arena, place: Place, fault: Fault) -> Stop
    ensures { result ≡ stop.Fault (recast_fault place fault) }
{
    match fault.kind {
        FaultKind::NotYaml => schema_form(arena, place),
        _ => Stop::Fault(fault),
    }
}

/// The tree of an argument, for the steps of its size.
fn converted(arena: &Arena, place: Place, value: Value, steps: &mut u64) -> Result<Tree, Stop>
    requires { Owns (seen arena.now) value }
    ensures { Spends tree_of result (seen arena.now) steps.old steps.new (converted place (value_of (seen arena.now) value)) }
{
    let mut work = Work {
        steps: *steps,
        depth: 0,
    };
    let tree = to_tree(arena, &mut work, value, place);
    *steps = work.steps;
    match tree {
        Ok(tree) => Ok(tree),
        Err(Stop::Memory) => Err(Stop::Memory),
        Err(Stop::Fault(fault)) => Err(recast(arena, place, fault)),
    }
}

/// `schema/nullable`: null may stand.
fn and_nullable(arena: &Arena, place: Place, args: &CallArgs, said: Said) -> Result<Said, Stop>
    ensures { Tells said_of result (and_nullable place (given (seen arena.now) args.now) (said_of said)) }
{
    if !has_none(args) {
        return Err(schema_form(arena, place));
    }
    Ok(Said {
        nullable: true,
        is_any: said.is_any,
        default: said.default,
    })
}

/// `schema/type any=True`: anything may stand.
fn and_any(arena: &Arena, place: Place, args: &CallArgs, said: Said) -> Result<Said, Stop>
    ensures { Tells said_of result (and_any place (given (seen arena.now) args.now) (said_of said)) }
{
    if !says_any(args) {
        return Err(schema_form(arena, place));
    }
    Ok(Said {
        nullable: said.nullable,
        is_any: true,
        default: said.default,
    })
}

/// `schema/default`: another default, which a list's item doesn't have.
fn and_default(
    arena: &Arena,
    place: Place,
    in_list: bool,
    args: &CallArgs,
    said: Said,
    steps: &mut u64,
) -> Result<Said, Stop>
    requires { OwnsAll (seen arena.now) args.now.positional }
    ensures { Spends said_of result (seen arena.now) steps.old steps.new (and_default place in_list (given (seen arena.now) args.now) (said_of said)) }
{
    if in_list {
        return Err(schema_form(arena, place));
    }
    match only_argument(args) {
        None => Err(schema_form(arena, place)),
        Some(value) => {
            let tree = converted(arena, place, value, steps)?;
            Ok(Said {
                nullable: said.nullable,
                is_any: said.is_any,
                default: Some(tree),
            })
        }
    }
}

/// What one note says beside what was said. A note of another name says nothing of the type.
fn read_note(
    arena: &Arena,
    place: Place,
    in_list: bool,
    note: &BuiltNote,
    said: Said,
    steps: &mut u64,
) -> Result<Said, Stop>
    requires { OwnsAll (seen arena.now) note.now.args.positional }
    ensures { Spends said_of result (seen arena.now) steps.old steps.new (with_note place in_list (seen arena.now) note.now said) }
{
    let name = note.name.as_str();
    if name == "schema/nullable" {
        and_nullable(arena, place, &note.args, said)
    } else if name == "schema/type" {
        and_any(arena, place, &note.args, said)
    } else if name == "schema/default" {
        and_default(arena, place, in_list, &note.args, said, steps)
    } else {
        Ok(said)
    }
}

/// What the notes of an item at a place say; the later one of a name holds. An argument in another form is `SchemaForm`, and so is one that
/// has no tree; what nests deeper than 100 is `TooDeep`.
pub(crate) fn read_notes(
    arena: &Arena,
    place: Place,
    in_list: bool,
    notes: &[BuiltNote],
    steps: &mut u64,
) -> Result<Said, Stop>
    requires { OwnsAll (seen arena.now) (note_values notes.now) }
    ensures { Spends said_of result (seen arena.now) steps.old steps.new (read_notes place in_list (notes_in (seen arena.now).held notes.now) nothing_said) }
{
    let mut said = Said {
        nullable: false,
        is_any: false,
        default: None,
    };
    for note in notes {
        said = read_note(arena, place, in_list, note, said, steps)?;
    }
    Ok(said)
}
