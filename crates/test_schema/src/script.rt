// Documents that are built by scripts: commands with a `;` between, each of which is a call of the builder.
ghost use Rattle.std.specs.Prelude.{◌≡◌, ◌∷◌, [], IfOk};
ghost use Rattle.node_build.specs.View.{OwnsNodes};
ghost use Rattle.star_values.specs.Objects.{seen};
ghost use Rattle.star_values.specs.Owns.{Owns, OwnsAll, OwnsBuilt, note_values};
ghost use Rattle.star_values.specs.View.{View};

use crate::arguments::value_of;
use crate::owned::is_owned;
use node_build::Builder;
use object_arena::{Arena, Built, BuiltNote, CallArgs, ItemKind, NamedValue, Value, Values, Work};
use sqlite_items::Items;
use star_tree::Holds;
use std::alloc::Global;
use std::test::Fail;
use ytt_base::fault::Place;
use ytt_base::text::{Memory, Text};
use ytt_base::tree::Key;

/// What an item of this name holds.
fn holds_of(name: &str) -> Result<Holds, Fail> {
    match name {
        "one" => Ok(Holds::One),
        "map" => Ok(Holds::Map),
        "list" => Ok(Holds::List),
        _ => Err(Fail::from("an item that holds neither one value nor a map nor a list")),
    }
}

/// A scalar that is written: `null`, `true`, `1`, `''` or another text.
fn scalar_of(alloc: Global, word: &str) -> Result<Key, Memory> {
    match word {
        "null" => Ok(Key::Null),
        "true" => Ok(Key::Bool(true)),
        "1" => Ok(Key::Int(1)),
        "''" => Ok(Key::Str(Text::new(alloc))),
        _ => Ok(Key::Str(Text::of(alloc, word)?)),
    }
}

/// `scalar WORD`: a written value.
fn scalar(alloc: Global, builder: &mut Builder, word: &str) -> Result<(), Fail>
    ensures { (a : View) → OwnsNodes a builder.old → OwnsNodes a builder.new }
{
    let key = scalar_of(alloc, word)?;
    builder.scalar(&key)?;
    Ok(())
}

/// A note without arguments.
fn bare(alloc: Global, name: &str) -> Result<BuiltNote, Memory>
    ensures bare { IfOk result (λ note. (note.args.positional ≡ []) × (note.args.named ≡ [])) }
    ensures owned { (a : View) → IfOk result (λ note. OwnsAll a (note_values (note ∷ []))) }
{
    Ok(BuiltNote {
        name: Text::of(alloc, name)?,
        args: CallArgs {
            positional: Items::new(alloc),
            named: Items::new(alloc),
        },
    })
}

/// A note with one argument, which has a name unless it is empty.
fn note_of(
    alloc: Global,
    arena: &Arena,
    name: &str,
    argument: &str,
    value: Value,
) -> Result<BuiltNote, Memory>
    requires { Owns (seen arena.now) value }
    ensures { IfOk result (λ note. OwnsAll (seen arena.now) (note_values (note ∷ []))) }
{
    let mut note = bare(alloc, name)?;
    if argument == "" {
        note.args.positional.push(value)?;
    } else {
        let name = Text::of(alloc, argument)?;
        note.args.named.push(NamedValue { name, value })?;
    }
    Ok(note)
}

/// Puts a note behind those of the innermost item.
fn put(arena: &Arena, builder: &mut Builder, note: BuiltNote) -> Result<(), Memory>
    requires note { OwnsAll (seen arena.now) (note_values (note ∷ [])) }
    requires nodes { OwnsNodes (seen arena.now) builder.old }
    ensures { OwnsNodes (seen arena.now) builder.new }
{
    builder.note(note)
}

/// `note NAME`, `note NAME VALUE` or `note NAME ARGUMENT=VALUE`.
fn note(
    alloc: Global,
    arena: &Arena,
    values: &Values,
    builder: &mut Builder,
    words: &str,
) -> Result<(), Fail>
    requires { OwnsNodes (seen arena.now) builder.old }
    ensures { OwnsNodes (seen arena.now) builder.new }
{
    let Some((name, rest)) = words.split_once(" ") else {
        let note = bare(alloc, words)?;
        put(arena, builder, note)?;
        return Ok(());
    };
    let (argument, word) = rest.split_once("=").unwrap_or(("", rest));
    let value = value_of(values, word)?;
    if !is_owned(arena, value) {
        return Err(Fail::from("a value of another arena"));
    }
    let note = note_of(alloc, arena, name, argument, value)?;
    put(arena, builder, note)?;
    Ok(())
}

/// `value NAME`: what an expression gave.
fn value(
    arena: &Arena,
    values: &Values,
    work: &mut Work,
    builder: &mut Builder,
    name: &str,
) -> Result<(), Fail>
    requires { OwnsNodes (seen arena.now) builder.old }
    ensures { OwnsNodes (seen arena.now) builder.new }
{
    let value = value_of(values, name)?;
    if !is_owned(arena, value) {
        return Err(Fail::from("a value of another arena"));
    }
    match builder.value(arena, work, value) {
        Ok(()) => Ok(()),
        Err(_) => Err(Fail::from("a value that isn't taken over")),
    }
}

/// Begins an item on a line.
fn begin(builder: &mut Builder, kind: ItemKind, holds: &str, line: u32) -> Result<(), Fail>
    ensures { (a : View) → OwnsNodes a builder.old → OwnsNodes a builder.new }
{
    let place = Place { file: 1, line };
    builder.start(kind, holds_of(holds)?, place)?;
    Ok(())
}

/// `pair KEY HOLDS`.
fn pair(alloc: Global, builder: &mut Builder, words: &str, line: u32) -> Result<(), Fail>
    ensures { (a : View) → OwnsNodes a builder.old → OwnsNodes a builder.new }
{
    let (key, holds) = words.split_once(" ").ok_or("a pair that holds nothing")?;
    let key = scalar_of(alloc, key)?;
    begin(builder, ItemKind::Pair, holds, line)?;
    builder.key(key);
    Ok(())
}

/// Ends the innermost item.
fn end(builder: &mut Builder) -> Result<(), Fail>
    ensures { (a : View) → OwnsNodes a builder.old → OwnsNodes a builder.new }
{
    match builder.end() {
        Ok(()) => Ok(()),
        Err(_) => Err(Fail::from("an item that doesn't end")),
    }
}

/// One command.
fn act(
    alloc: Global,
    arena: &Arena,
    values: &Values,
    work: &mut Work,
    builder: &mut Builder,
    line: u32,
    command: &str,
) -> Result<(), Fail>
    requires { OwnsNodes (seen arena.now) builder.old }
    ensures { OwnsNodes (seen arena.now) builder.new }
{
    let (verb, words) = command.split_once(" ").unwrap_or((command, ""));
    match verb {
        "document" => begin(builder, ItemKind::Document, words, line),
        "element" => begin(builder, ItemKind::Element, words, line),
        "pair" => pair(alloc, builder, words, line),
        "note" => note(alloc, arena, values, builder, words),
        "value" => value(arena, values, work, builder, words),
        "scalar" => scalar(alloc, builder, words),
        "end" => end(builder),
        _ => Err(Fail::from("a word that is no command")),
    }
}

/// Whether a command begins an item.
fn begins(command: &str) -> bool {
    command.starts_with("document") || command.starts_with("pair") || command.starts_with("element")
}

/// The items that a script builds, each on a line of its own.
pub fn built(
    alloc: Global,
    arena: &Arena,
    values: &Values,
    work: &mut Work,
    script: &str,
) -> Result<Built, Fail>
    ensures { IfOk result (OwnsBuilt (seen arena.now)) }
{
    let mut builder = Builder::new(alloc);
    let mut line = 0u32;
    for command in script.split("; ") {
        if begins(command) {
            line = line.saturating_add(1);
        }
        act(alloc, arena, values, work, &mut builder, line, command)?;
    }
    Ok(builder.take())
}
