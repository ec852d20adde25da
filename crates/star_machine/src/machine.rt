// The machine, which takes one token at a time.
ghost use Rattle.std.specs.Prelude.{◌≡◌, ◌∷◌, OnOk};
ghost use Rattle.star_grammar.specs.Language.{kind_of_token};
ghost use Rattle.star_grammar.specs.declared.token.Token.{Token};
ghost use Rattle.star_machine.specs.Pending.{wants_end, wants_rule, wants_token};
ghost use Rattle.star_machine.specs.Turns.{Steps, Turned, finished, taken};
ghost use Rattle.star_machine.specs.Weights.{OnTaken, OnTurn, StaysWeighed, Weighed};

use crate::pending::{Item, Pending};
use crate::weight::Weight;
use ll::Shapes;
use star_build::{Blocks, Parts, build, put_token};
use star_grammar::{Choice, Kind, Rule, Symbol, Terminal, Token};
use star_guards::{allows, may_stand};
use star_tables::{action_of, choice_at, effect_of, given, kind_of};
use std::alloc::Global;
use ytt_base::text::Memory;

/// What is still to be read, the parts that were read with their shapes, and the open blocks.
#[derive(Drop)]
pub struct Machine {
    pub pending: Pending,
    pub parts: Parts,
    pub shapes: Shapes,
    pub blocks: Blocks,
}

/// What a turn did.
#[derive(Clone, Copy)]
pub enum Turn {
    On,
    Taken,
    Refused,
}

/// Ends an alternative.
fn finish(
    alloc: Global,
    choice: Choice,
    machine: &mut Machine,
    weight: &mut Weight,
) -> Result<(), Memory>
    requires weighed { Weighed weight.old (wants_end choice ∷ machine.old.pending) machine.old.shapes }
    ensures finished { OnOk result (machine.new ≡ finished choice machine.old) }
    ensures weighed { OnOk result (Weighed weight.new machine.new.pending machine.new.shapes) }
{
    let action = action_of(choice);
    let effect = effect_of(action);
    build(alloc, action, &mut machine.parts)?;
    weight.close(effect);
    machine.shapes.apply(effect)
}

/// Takes a token that may stand here.
fn take(
    alloc: Global,
    terminal: Terminal,
    token: &Token,
    machine: &mut Machine,
) -> Result<(), Memory>
    ensures { OnOk result (machine.new ≡ taken terminal token.now machine.old) }
{
    put_token(alloc, terminal, token, &mut machine.parts)?;
    machine.shapes.apply(given(terminal))?;
    machine.blocks.put_token(terminal)
}

fn turn_token(
    alloc: Global,
    terminal: Terminal,
    token: &Token,
    machine: &mut Machine,
) -> Result<Turn, Memory>
    ensures turned { Turned result token.now (wants_token terminal) machine.old machine.new }
    ensures weighed { StaysWeighed result (wants_token terminal) machine.old machine.new }
{
    if !may_stand(terminal, token, &machine.parts) {
        return Ok(Turn::Refused);
    }
    take(alloc, terminal, token, machine)?;
    Ok(Turn::Taken)
}

fn turn_rule(
    rule: Rule,
    kind: Kind,
    machine: &mut Machine,
    weight: &mut Weight,
) -> Result<Turn, Memory>
    requires weighed { Weighed weight.old (wants_rule rule ∷ machine.old.pending) machine.old.shapes }
    ensures turned { (token : Token) → kind ≡ kind_of_token token.kind → Turned result token (wants_rule rule) machine.old machine.new }
    ensures weighed { OnTurn result (Weighed weight.new machine.new.pending machine.new.shapes) }
{
    let choice = choice_at(rule, kind);
    if !allows(choice, &machine.parts, &machine.shapes, &machine.blocks) {
        return Ok(Turn::Refused);
    }
    machine.pending.open(choice)?;
    weight.open(choice, &machine.shapes);
    Ok(Turn::On)
}

/// One turn: an alternative ends, a token of this kind is taken, or an alternative is opened.
fn go(
    alloc: Global,
    item: Item,
    token: &Token,
    kind: Kind,
    machine: &mut Machine,
    weight: &mut Weight,
) -> Result<Turn, Memory>
    requires kind { kind ≡ kind_of_token token.now.kind }
    requires weighed { Weighed weight.old (item ∷ machine.old.pending) machine.old.shapes }
    ensures turned { Turned result token.now item machine.old machine.new }
    ensures weighed { OnTurn result (Weighed weight.new machine.new.pending machine.new.shapes) }
{
    match item {
        Item::Close(choice) => {
            finish(alloc, choice, machine, weight)?;
            Ok(Turn::On)
        }
        Item::Want(Symbol::Token(terminal)) => turn_token(alloc, terminal, token, machine),
        Item::Want(Symbol::Rule(rule)) => turn_rule(rule, kind, machine, weight),
    }
}

/// Reads one token, and keeps what is known of the text's height. It gives whether the token may stand here.
pub fn step(
    alloc: Global,
    token: &Token,
    machine: &mut Machine,
    weight: &mut Weight,
) -> Result<bool, Memory>
    requires weighed { Weighed weight.old machine.old.pending machine.old.shapes }
    ensures steps { Steps result token.now machine.old machine.new }
    ensures weighed { OnTaken result (Weighed weight.new machine.new.pending machine.new.shapes) }
{
    let kind = kind_of(&token.kind);
    'items: while let Some(item) = machine.pending.pop() {
        match go(alloc, item, token, kind, machine, weight)? {
            Turn::On => {}
            Turn::Taken => return Ok(true),
            Turn::Refused => return Ok(false),
        }
    }
    Ok(false)
}
