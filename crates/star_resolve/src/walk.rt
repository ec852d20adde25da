// The events of expressions.
ghost use Rattle.std.specs.Prelude.{◌≡◌, ℕ, ◌∷◌, ◌++◌, [], true, OnOk};
ghost use Rattle.code_spec.specs.Names.{clauses_names};
ghost use Rattle.star_resolve.specs.declared.event.Event.TheVariants as event;
ghost use Rattle.star_resolve.specs.Functions.{scope_size};
ghost use Rattle.star_resolve.specs.Events.{clauses_events, entries_events, expr_events, exprs_events, optional_events, parameters_events, pieces_events};
ghost use Rattle.star_tree.specs.Listed.{clauses_of, entries_of, optional_of, pieces_of};
ghost use Rattle.star_tree.specs.Whole.{expr_of, exprs_of, parameters_of};

use crate::event::{Event, Events, put_name};
use crate::names::{clause_names, parameter_names};
use crate::scopes::size_of;
use sqlite_items::{Boxed, Items};
use star_tree::code::{Clause, Entry, Expr, Param, Params, Piece};
use std::alloc::Global;
use ytt_base::text::{Memory, Texts};

/// Puts the events of an expression behind the others.
#[cycle(walk)]
pub(crate) fn put_expr(
    alloc: Global,
    file: u32,
    expr: &Expr,
    events: &mut Events,
) -> Result<(), Memory>
    ensures { OnOk result (events.new ≡ events.old ++ expr_events (expr_of file expr.now)) }
{
    match expr {
        Expr::Int(_, _) | Expr::Text(_, _) => Ok(()),
        Expr::Name(line, name) => put_name(file, *line, name, events),
        Expr::List(_, members) | Expr::Tuple(_, members) => {
            put_exprs(alloc, file, members, events)
        }
        Expr::Dict(_, entries) => put_entries(alloc, file, entries, events),
        Expr::Unary(_, _, a)
        | Expr::Named(_, _, a)
        | Expr::Star(_, a)
        | Expr::Stars(_, a)
        | Expr::Dot(_, a, _) => put_expr(alloc, file, a.get(), events),
        Expr::Binary(_, _, a, b) | Expr::And(_, a, b) | Expr::Or(_, a, b) | Expr::Index(_, a, b) =>
            {
                put_expr(alloc, file, a.get(), events)?;
                put_expr(alloc, file, b.get(), events)
            }
        Expr::If(_, test, a, b) => {
            put_expr(alloc, file, a.get(), events)?;
            put_expr(alloc, file, test.get(), events)?;
            put_expr(alloc, file, b.get(), events)
        }
        Expr::Call(_, function, args) => {
            put_expr(alloc, file, function.get(), events)?;
            put_exprs(alloc, file, args, events)
        }
        Expr::Slice(_, a, low, high, step) => {
            put_expr(alloc, file, a.get(), events)?;
            put_optional(alloc, file, low, events)?;
            put_optional(alloc, file, high, events)?;
            put_optional(alloc, file, step, events)
        }
        Expr::Lambda(_, _, params, body) => {
            let bound = parameter_names(alloc, params)?;
            put_function(alloc, &bound, events)?;
            put_params(alloc, file, params, events)?;
            events.push(Event::Enter(bound))?;
            put_expr(alloc, file, body.get(), events)?;
            put_leave(events)
        }
        Expr::ListFor(_, element, clauses) => {
            put_enter(alloc, clauses, events)?;
            put_expr(alloc, file, element.get(), events)?;
            put_clauses(alloc, file, clauses, events)
        }
        Expr::DictFor(_, key, value, clauses) => {
            put_enter(alloc, clauses, events)?;
            put_expr(alloc, file, key.get(), events)?;
            put_expr(alloc, file, value.get(), events)?;
            put_clauses(alloc, file, clauses, events)
        }
        Expr::Template(_, pieces) => put_pieces(alloc, file, pieces, events),
    }
}

/// Puts that a function stands here which binds these names behind the events.
pub(crate) fn put_function(alloc: Global, names: &Texts, events: &mut Events) -> Result<(), Memory>
    ensures { OnOk result (events.new ≡ events.old ++ event.Function (scope_size names.now) ∷ []) }
{
    events.push(Event::Function(size_of(alloc, names)?))?;
    Ok(())
}

/// Puts the beginning of a comprehension behind the events.
fn put_enter(alloc: Global, clauses: &Items<Clause>, events: &mut Events) -> Result<(), Memory>
    ensures { (file : ℕ) → OnOk result (events.new ≡ events.old ++ event.Enter (clauses_names (clauses_of file clauses.now)) ∷ []) }
{
    events.push(Event::Enter(clause_names(alloc, clauses)?))?;
    Ok(())
}

/// Puts an end behind the events.
pub(crate) fn put_leave(events: &mut Events) -> Result<(), Memory>
    ensures { OnOk result (events.new ≡ events.old ++ event.Leave ∷ []) }
{
    events.push(Event::Leave)?;
    Ok(())
}

/// Puts the events of expressions behind the others.
#[cycle(walk)]
pub(crate) fn put_exprs(
    alloc: Global,
    file: u32,
    exprs: &Items<Expr>,
    events: &mut Events,
) -> Result<(), Memory>
    ensures { OnOk result (events.new ≡ events.old ++ exprs_events (exprs_of file exprs.now)) }
{
    for expr in exprs.as_slice() {
        put_expr(alloc, file, expr, events)?;
    }
    Ok(())
}

#[cycle(walk)]
fn put_optional(
    alloc: Global,
    file: u32,
    part: &Option<Boxed<Expr>>,
    events: &mut Events,
) -> Result<(), Memory>
    ensures { OnOk result (events.new ≡ events.old ++ optional_events (optional_of file part.now)) }
{
    match part {
        Some(expr) => put_expr(alloc, file, expr.get(), events),
        None => Ok(()),
    }
}

#[cycle(walk)]
fn put_entries(
    alloc: Global,
    file: u32,
    entries: &Items<Entry>,
    events: &mut Events,
) -> Result<(), Memory>
    ensures { OnOk result (events.new ≡ events.old ++ entries_events (entries_of file entries.now)) }
{
    for entry in entries.as_slice() {
        match entry {
            Entry::Pair(key, value) => {
                put_expr(alloc, file, key.get(), events)?;
                put_expr(alloc, file, value.get(), events)?;
            }
        }
    }
    Ok(())
}

/// Puts the events of the clauses of a comprehension, which has begun, and of its end behind the others.
#[cycle(walk)]
fn put_clauses(
    alloc: Global,
    file: u32,
    clauses: &Items<Clause>,
    events: &mut Events,
) -> Result<(), Memory>
    ensures { OnOk result (events.new ≡ events.old ++ clauses_events true (clauses_names (clauses_of file clauses.now)) (clauses_of file clauses.now)) }
{
    let mut waiting = true;
    for clause in clauses.as_slice() {
        match clause {
            Clause::ForIn(target, members) => {
                put_expr(alloc, file, target.get(), events)?;
                if waiting {
                    put_leave(events)?;
                    put_expr(alloc, file, members.get(), events)?;
                    put_enter(alloc, clauses, events)?;
                    waiting = false;
                } else {
                    put_expr(alloc, file, members.get(), events)?;
                }
            }
            Clause::OnlyIf(test) => put_expr(alloc, file, test.get(), events)?,
        }
    }
    put_leave(events)
}

#[cycle(walk)]
fn put_pieces(
    alloc: Global,
    file: u32,
    pieces: &Items<Piece>,
    events: &mut Events,
) -> Result<(), Memory>
    ensures { OnOk result (events.new ≡ events.old ++ pieces_events (pieces_of file pieces.now)) }
{
    for piece in pieces.as_slice() {
        match piece {
            Piece::Written(_) => (),
            Piece::Shown(expr) => put_expr(alloc, file, expr.get(), events)?,
        }
    }
    Ok(())
}

/// Puts the events of the defaults of parameters behind the others.
#[cycle(walk)]
pub(crate) fn put_params(
    alloc: Global,
    file: u32,
    params: &Params,
    events: &mut Events,
) -> Result<(), Memory>
    ensures { OnOk result (events.new ≡ events.old ++ parameters_events (parameters_of file params.now)) }
{
    for param in params.as_slice() {
        if let Param::Defaulted(_, default) = param {
            put_expr(alloc, file, default.get(), events)?;
        }
    }
    Ok(())
}
