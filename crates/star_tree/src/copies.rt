// Copies of code, each equal to what it is a copy of.
ghost use Rattle.std.specs.Prelude.{◌≡◌, IfOk, Ok};

use crate::code::{Clause, Entry, Expr, Loaded, Param, Params, Piece};
use sqlite_items::{Boxed, Items};
use std::alloc::Global;
use ytt_base::text::Memory;

/// Expressions that equal these.
#[cycle(copies)]
pub fn copy_exprs(alloc: Global, exprs: &Items<Expr>) -> Result<Items<Expr>, Memory>
    ensures { IfOk result (λ es. es ≡ exprs.now) }
{
    let mut copies = Items::new(alloc);
    for expr in exprs.as_slice() {
        copies.push(copy_expr(alloc, expr)?)?;
    }
    Ok(copies)
}

/// An expression in a box that equals this one.
#[cycle(copies)]
pub fn copy_boxed(alloc: Global, expr: &Boxed<Expr>) -> Result<Boxed<Expr>, Memory>
    ensures { IfOk result (λ e. e ≡ expr.now) }
{
    Ok(Boxed::new(alloc, copy_expr(alloc, expr.get())?)?)
}

#[cycle(copies)]
fn copy_optional(alloc: Global, part: &Option<Boxed<Expr>>) -> Result<Option<Boxed<Expr>>, Memory>
    ensures { IfOk result (λ e. e ≡ part.now) }
{
    match part {
        Some(expr) => {
            let copied = copy_expr(alloc, expr.get())?;
            Ok(Some(Boxed::new(alloc, copied)?))
        }
        None => Ok(None),
    }
}

impl Expr {
    /// An expression that equals this one.
    pub fn copy(&self, alloc: Global) -> Result<Expr, Memory>
        ensures { IfOk result (λ e. e ≡ self.now) }
    {
        copy_expr(alloc, self)
    }
}

/// Both, where both are there.
fn both<A: Drop, B: Drop>(
    first: Result<A, Memory>,
    second: Result<B, Memory>,
) -> Result<(A, B), Memory>
    ensures { IfOk result (λ two. (first ≡ Ok two.0) × (second ≡ Ok two.1)) }
{
    let a = first?;
    let b = second?;
    Ok((a, b))
}

#[cycle(copies)]
fn copy_expr(alloc: Global, expr: &Expr) -> Result<Expr, Memory>
    ensures { IfOk result (λ e. e ≡ expr.now) }
{
    match expr {
        Expr::Int(line, n) => Ok(Expr::Int(*line, *n)),
        Expr::Text(line, text) => Ok(Expr::Text(*line, text.copy()?)),
        Expr::Name(line, name) => Ok(Expr::Name(*line, name.copy()?)),
        Expr::List(line, members) => Ok(Expr::List(*line, copy_exprs(alloc, members)?)),
        Expr::Tuple(line, members) => Ok(Expr::Tuple(*line, copy_exprs(alloc, members)?)),
        Expr::Dict(line, entries) => Ok(Expr::Dict(*line, copy_entries(alloc, entries)?)),
        Expr::Unary(line, op, a) => Ok(Expr::Unary(*line, *op, copy_boxed(alloc, a)?)),
        Expr::Binary(line, op, a, b) => {
            let (left, right) = both(copy_boxed(alloc, a), copy_boxed(alloc, b))?;
            Ok(Expr::Binary(*line, *op, left, right))
        }
        Expr::And(line, a, b) => {
            let (left, right) = both(copy_boxed(alloc, a), copy_boxed(alloc, b))?;
            Ok(Expr::And(*line, left, right))
        }
        Expr::Or(line, a, b) => {
            let (left, right) = both(copy_boxed(alloc, a), copy_boxed(alloc, b))?;
            Ok(Expr::Or(*line, left, right))
        }
        Expr::If(line, test, a, b) => {
            let branches = both(copy_boxed(alloc, a), copy_boxed(alloc, b));
            let (condition, (then, other)) = both(copy_boxed(alloc, test), branches)?;
            Ok(Expr::If(*line, condition, then, other))
        }
        Expr::Call(line, function, args) => {
            let (called, copied) = both(copy_boxed(alloc, function), copy_exprs(alloc, args))?;
            Ok(Expr::Call(*line, called, copied))
        }
        Expr::Named(line, name, a) => {
            let (copied, value) = both(name.copy(), copy_boxed(alloc, a))?;
            Ok(Expr::Named(*line, copied, value))
        }
        Expr::Star(line, a) => Ok(Expr::Star(*line, copy_boxed(alloc, a)?)),
        Expr::Stars(line, a) => Ok(Expr::Stars(*line, copy_boxed(alloc, a)?)),
        Expr::Index(line, a, index) => {
            let (indexed, at) = both(copy_boxed(alloc, a), copy_boxed(alloc, index))?;
            Ok(Expr::Index(*line, indexed, at))
        }
        Expr::Slice(line, a, low, high, step) => {
            let front = both(copy_boxed(alloc, a), copy_optional(alloc, low));
            let back = both(copy_optional(alloc, high), copy_optional(alloc, step));
            let ((cut, from), (to, by)) = both(front, back)?;
            Ok(Expr::Slice(*line, cut, from, to, by))
        }
        Expr::Dot(line, a, name) => {
            let (owner, copied) = both(copy_boxed(alloc, a), name.copy())?;
            Ok(Expr::Dot(*line, owner, copied))
        }
        Expr::Lambda(line, number, params, body) => {
            let (bound, value) = both(copy_params(alloc, params), copy_boxed(alloc, body))?;
            Ok(Expr::Lambda(*line, *number, bound, value))
        }
        Expr::ListFor(line, element, clauses) => {
            let (each, among) = both(copy_boxed(alloc, element), copy_clauses(alloc, clauses))?;
            Ok(Expr::ListFor(*line, each, among))
        }
        Expr::DictFor(line, key, value, clauses) => {
            let pair = both(copy_boxed(alloc, key), copy_boxed(alloc, value));
            let ((name, each), among) = both(pair, copy_clauses(alloc, clauses))?;
            Ok(Expr::DictFor(*line, name, each, among))
        }
        Expr::Template(line, pieces) => Ok(Expr::Template(*line, copy_pieces(alloc, pieces)?)),
    }
}

#[cycle(copies)]
fn copy_entries(alloc: Global, entries: &Items<Entry>) -> Result<Items<Entry>, Memory>
    ensures { IfOk result (λ es. es ≡ entries.now) }
{
    let mut copies = Items::new(alloc);
    for entry in entries.as_slice() {
        copies.push(copy_entry(alloc, entry)?)?;
    }
    Ok(copies)
}

#[cycle(copies)]
fn copy_entry(alloc: Global, entry: &Entry) -> Result<Entry, Memory>
    ensures { IfOk result (λ e. e ≡ entry.now) }
{
    match entry {
        Entry::Pair(key, value) => {
            let (name, each) = both(copy_boxed(alloc, key), copy_boxed(alloc, value))?;
            Ok(Entry::Pair(name, each))
        }
    }
}

#[cycle(copies)]
fn copy_clauses(alloc: Global, clauses: &Items<Clause>) -> Result<Items<Clause>, Memory>
    ensures { IfOk result (λ cs. cs ≡ clauses.now) }
{
    let mut copies = Items::new(alloc);
    for clause in clauses.as_slice() {
        copies.push(copy_clause(alloc, clause)?)?;
    }
    Ok(copies)
}

#[cycle(copies)]
fn copy_clause(alloc: Global, clause: &Clause) -> Result<Clause, Memory>
    ensures { IfOk result (λ c. c ≡ clause.now) }
{
    match clause {
        Clause::ForIn(target, members) => {
            let (bound, among) = both(copy_boxed(alloc, target), copy_boxed(alloc, members))?;
            Ok(Clause::ForIn(bound, among))
        }
        Clause::OnlyIf(test) => Ok(Clause::OnlyIf(copy_boxed(alloc, test)?)),
    }
}

/// Parameters that equal these.
#[cycle(copies)]
pub fn copy_params(alloc: Global, params: &Params) -> Result<Params, Memory>
    ensures { IfOk result (λ ps. ps ≡ params.now) }
{
    let mut copies = Items::new(alloc);
    for param in params.as_slice() {
        copies.push(copy_param(alloc, param)?)?;
    }
    Ok(copies)
}

#[cycle(copies)]
fn copy_param(alloc: Global, param: &Param) -> Result<Param, Memory>
    ensures { IfOk result (λ p. p ≡ param.now) }
{
    match param {
        Param::Required(name) => Ok(Param::Required(name.copy()?)),
        Param::Defaulted(name, value) => {
            let (copied, default) = both(name.copy(), copy_boxed(alloc, value))?;
            Ok(Param::Defaulted(copied, default))
        }
        Param::BareStar => Ok(Param::BareStar),
        Param::Starred(name) => Ok(Param::Starred(name.copy()?)),
        Param::DoubleStarred(name) => Ok(Param::DoubleStarred(name.copy()?)),
    }
}

#[cycle(copies)]
fn copy_pieces(alloc: Global, pieces: &Items<Piece>) -> Result<Items<Piece>, Memory>
    ensures { IfOk result (λ ps. ps ≡ pieces.now) }
{
    let mut copies = Items::new(alloc);
    for piece in pieces.as_slice() {
        copies.push(copy_piece(alloc, piece)?)?;
    }
    Ok(copies)
}

#[cycle(copies)]
fn copy_piece(alloc: Global, piece: &Piece) -> Result<Piece, Memory>
    ensures { IfOk result (λ p. p ≡ piece.now) }
{
    match piece {
        Piece::Written(text) => Ok(Piece::Written(text.copy()?)),
        Piece::Shown(shown) => Ok(Piece::Shown(copy_boxed(alloc, shown)?)),
    }
}

/// A name of a load statement that equals this one.
fn copy_name(loaded: &Loaded) -> Result<Loaded, Memory>
    ensures { IfOk result (λ x. x ≡ loaded.now) }
{
    let bound = loaded.bound.copy()?;
    let origin = loaded.origin.copy()?;
    Ok(Loaded { bound, origin })
}

/// Names of a load statement that equal these.
pub fn copy_loaded(alloc: Global, loaded: &Items<Loaded>) -> Result<Items<Loaded>, Memory>
    ensures { IfOk result (λ xs. xs ≡ loaded.now) }
{
    let mut copies = Items::new(alloc);
    for name in loaded.as_slice() {
        copies.push(copy_name(name)?)?;
    }
    Ok(copies)
}
