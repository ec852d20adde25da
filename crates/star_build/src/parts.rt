// The parts that were read.
ghost use Rattle.std.specs.Prelude.{◌≡◌, ◌∷◌, [], MatchOption, OnOk, IfOk};
ghost use Rattle.std.specs.Result.{result_map_both};
ghost use Rattle.star_grammar.specs.Parts as spec;
ghost use Rattle.star_grammar.specs.declared.part.Part.TheVariants as part;
ghost use Rattle.star_params.specs.Parameters as asked;

use crate::values::{boxed_of, expr_of, line_of, mark_of, no_items, no_params};
use sqlite_items::{Boxed, Items};
use star_grammar::{Mark, Part};
use star_params::Parameters;
use star_tree::code::{Clause, Entry, Expr, Loaded, Stmt};
use std::alloc::Global;
use std::marker::Model;
use ytt_base::text::Memory;

/// The parts that were read, seen as their list, the last one first.
#[derive(Drop)]
pub struct Parts {
    parts: Vec<Part>,
}

impl Model for Parts {
    ghost use Rattle.std.specs.Prelude.{List, reverse};
    ghost use Rattle.std.specs.Coded.{codes};
    ghost use Rattle.star_grammar.specs.contracts.part.Part as part;
    ghost use Rattle.star_grammar.specs.declared.part.Part.{Part};

    ghost Value = { List Part };

    ghost coded = { Prim.hlevel (codes, part.the_row.coded) };

    ghost view = { λ s. reverse s.parts.items };
}

impl Parts {
    /// No part. It takes no memory.
    pub fn new(alloc: Global) -> Parts
        ensures { result ≡ [] }
    {
        Parts {
            parts: Vec::new(alloc),
        }
    }

    pub fn push(&mut self, part: Part) -> Result<(), Memory>
        ensures { OnOk result (self.new ≡ part ∷ self.old) }
    {
        self.parts.push(part)?;
        Ok(())
    }

    /// Takes the last part: `Missing`, where there is none.
    pub fn pop(&mut self) -> Part
        ensures value { result ≡ spec.top self.old }
        ensures rest { self.new ≡ spec.under self.old }
    {
        match self.parts.pop() {
            Some(part) => part,
            None => Part::Missing,
        }
    }

    /// The last part, `Missing` where there is none, unless something else stopped; the others fall.
    pub fn last_if<E>(mut self, done: Result<(), E>) -> Result<Part, E>
        ensures { result ≡ result_map_both (λ _. spec.top self) (λ stop. stop) done }
    {
        match done {
            Ok(()) => Ok(self.pop()),
            Err(stop) => Err(stop),
        }
    }

    /// Lets the last part fall.
    pub(crate) fn drop_last(&mut self)
        ensures { self.new ≡ spec.under self.old }
    {
        drop(self.pop());
    }
}

fn is_name(part: &Part) -> bool
    ensures { result ≡ spec.is_name part.now }
{
    match part {
        Part::Expr(_, expr) => matches!(expr.get(), Expr::Name(..)),
        _ => false,
    }
}

fn is_place(part: &Part) -> bool
    ensures { result ≡ spec.is_place part.now }
{
    match part {
        Part::Expr(_, expr) => matches!(expr.get(), Expr::Name(..) | Expr::Index(..)),
        _ => false,
    }
}

// What the last part is.
impl Parts {
    fn last(&self) -> Option<&Part>
        ensures { MatchOption result (spec.top self.now ≡ part.Missing) (λ last. last.now ≡ spec.top self.now) }
    {
        self.parts.last()
    }

    /// Its parameters, where it has some.
    fn params(&self) -> Option<&Parameters>
        ensures { MatchOption result (spec.params_in (spec.top self.now) ≡ []) (λ params. params.now ≡ spec.params_in (spec.top self.now)) }
    {
        match self.last() {
            Some(Part::Params(params)) => Some(params),
            _ => None,
        }
    }

    /// Whether it is a name.
    pub fn is_name(&self) -> bool
        ensures { result ≡ spec.is_name (spec.top self.now) }
    {
        match self.last() {
            Some(part) => is_name(part),
            None => false,
        }
    }

    /// Whether it is a name or an index.
    pub fn is_place(&self) -> bool
        ensures { result ≡ spec.is_place (spec.top self.now) }
    {
        match self.last() {
            Some(part) => is_place(part),
            None => false,
        }
    }

    /// Whether one of its parameters has two stars.
    pub fn has_stars(&self) -> bool
        ensures { result ≡ asked.has_stars (spec.params_in (spec.top self.now)) }
    {
        match self.params() {
            Some(params) => params.has_stars(),
            None => false,
        }
    }

    /// Whether one of its parameters has a star, or is one alone.
    pub fn has_star(&self) -> bool
        ensures { result ≡ asked.has_star (spec.params_in (spec.top self.now)) }
    {
        match self.params() {
            Some(params) => params.has_star(),
            None => false,
        }
    }

    /// Whether its last parameter may go without a default.
    pub fn may_be_required(&self) -> bool
        ensures { result ≡ asked.may_be_required (spec.params_in (spec.top self.now)) }
    {
        match self.params() {
            Some(params) => params.may_be_required(),
            None => true,
        }
    }

    /// Whether one of its parameters has this name.
    pub fn has_name(&self, name: &str) -> bool
        ensures { result ≡ asked.has_name name.now (spec.params_in (spec.top self.now)) }
    {
        match self.params() {
            Some(params) => params.has_name(name),
            None => false,
        }
    }

    /// The line of its first token, or 0.
    pub(crate) fn line(&self) -> u32
        ensures { result ≡ spec.line_in (spec.top self.now) }
    {
        match self.last() {
            Some(part) => line_of(part),
            None => 0,
        }
    }

    /// The token that it keeps.
    fn mark(&self) -> Mark
        ensures { result ≡ spec.mark_in (spec.top self.now) }
    {
        match self.last() {
            Some(part) => mark_of(part),
            None => Mark::Comma,
        }
    }
}

// Takes the last part, as what is wanted there.
impl Parts {
    pub(crate) fn pop_line(&mut self) -> u32
        ensures value { result ≡ spec.line_in (spec.top self.old) }
        ensures rest { self.new ≡ spec.under self.old }
    {
        let line = self.line();
        self.drop_last();
        line
    }

    pub(crate) fn pop_mark(&mut self) -> Mark
        ensures value { result ≡ spec.mark_in (spec.top self.old) }
        ensures rest { self.new ≡ spec.under self.old }
    {
        let mark = self.mark();
        self.drop_last();
        mark
    }

    pub(crate) fn pop_expr(&mut self, alloc: Global) -> Expr
        ensures value { result ≡ spec.expr_in (spec.top self.old) }
        ensures rest { self.new ≡ spec.under self.old }
    {
        expr_of(alloc, self.pop())
    }

    pub(crate) fn pop_boxed(&mut self, alloc: Global) -> Result<Boxed<Expr>, Memory>
        ensures value { IfOk result (λ e. e ≡ spec.expr_in (spec.top self.old)) }
        ensures rest { OnOk result (self.new ≡ spec.under self.old) }
    {
        boxed_of(alloc, self.pop())
    }

    pub(crate) fn pop_exprs(&mut self, alloc: Global) -> Items<Expr>
        ensures value { result ≡ spec.exprs_in (spec.top self.old) }
        ensures rest { self.new ≡ spec.under self.old }
    {
        match self.pop() {
            Part::Exprs(_, exprs) => exprs,
            other => no_items(alloc, other),
        }
    }

    pub(crate) fn pop_entries(&mut self, alloc: Global) -> Items<Entry>
        ensures value { result ≡ spec.entries_in (spec.top self.old) }
        ensures rest { self.new ≡ spec.under self.old }
    {
        match self.pop() {
            Part::Entries(entries) => entries,
            other => no_items(alloc, other),
        }
    }

    pub(crate) fn pop_clauses(&mut self, alloc: Global) -> Items<Clause>
        ensures value { result ≡ spec.clauses_in (spec.top self.old) }
        ensures rest { self.new ≡ spec.under self.old }
    {
        match self.pop() {
            Part::Clauses(clauses) => clauses,
            other => no_items(alloc, other),
        }
    }

    pub(crate) fn pop_params(&mut self, alloc: Global) -> Parameters
        ensures value { result ≡ spec.params_in (spec.top self.old) }
        ensures rest { self.new ≡ spec.under self.old }
    {
        match self.pop() {
            Part::Params(params) => params,
            other => no_params(alloc, other),
        }
    }

    pub(crate) fn pop_loads(&mut self, alloc: Global) -> Items<Loaded>
        ensures value { result ≡ spec.loads_in (spec.top self.old) }
        ensures rest { self.new ≡ spec.under self.old }
    {
        match self.pop() {
            Part::Loads(loads) => loads,
            other => no_items(alloc, other),
        }
    }

    pub(crate) fn pop_code(&mut self, alloc: Global) -> Items<Stmt>
        ensures value { result ≡ spec.code_in (spec.top self.old) }
        ensures rest { self.new ≡ spec.under self.old }
    {
        match self.pop() {
            Part::Code(code) => code,
            other => no_items(alloc, other),
        }
    }

    /// Adds an expression, whose first token stands on this line.
    pub(crate) fn push_expr(&mut self, alloc: Global, line: u32, expr: Expr) -> Result<(), Memory>
        ensures { OnOk result (self.new ≡ part.Expr line expr ∷ self.old) }
    {
        self.push(Part::Expr(line, Boxed::new(alloc, expr)?))
    }
}
