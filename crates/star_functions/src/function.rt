// Functions with their numbers.
ghost use Rattle.std.specs.Prelude.{◌≡◌, ◌∷◌, ◌++◌, [], ℕ, IfOk, OnOk};
ghost use Rattle.code_spec.specs.Allowed.{parameter_names};
ghost use Rattle.code_spec.specs.Scopes.{ops_names};
ghost use Rattle.star_functions.specs.View.{all_of, code_of};
ghost use Rattle.star_resolve.specs.Frames.{added};
ghost use Rattle.star_spec.specs.Calls.{names_of, parameters_of};
ghost use Rattle.star_tree.specs.Whole as whole;

use crate::names::put_block_names;
use sqlite_items::Items;
use star_blocks::Op;
use star_resolve::{Scope, parameter_names};
use star_tree::ItemKind;
use star_tree::code::{Expr, Params};
use std::alloc::Global;
use ytt_base::text::{Memory, Texts};

/// The code of a function.
#[derive(Clone, Copy)]
pub enum FunctionCode<'p> {
    /// The parameters, and what a call gives.
    Lambda(&'p Params, &'p Expr),
    /// The parameters, the kind of the items that the block builds a fragment of, and the block.
    Def(&'p Params, Option<ItemKind>, &'p [Op]),
}

/// A function with its number.
#[derive(Clone, Copy)]
pub(crate) struct Numbered<'p> {
    pub number: usize,
    pub code: FunctionCode<'p>,
}

/// Functions in the order in which they are found.
pub(crate) type Found<'p> = Items<Numbered<'p>>;

/// A function: its code, and the names that its block binds besides its parameters.
#[derive(Drop)]
pub struct Function<'p> {
    pub code: FunctionCode<'p>,
    pub fresh: Scope,
    ghost besides: { (file : ℕ) → fresh ≡ added (parameter_names (parameters_of (code_of file code))) (names_of ops_names (code_of file code)) },
}

impl<'p> FunctionCode<'p> {
    /// The parameters.
    fn parameters(&self) -> &'p Params
        ensures { (file : ℕ) → whole.parameters_of file result.now ≡ parameters_of (code_of file self.now) }
    {
        match self {
            FunctionCode::Lambda(params, _) => params,
            FunctionCode::Def(params, _, _) => params,
        }
    }

    /// The names that its block binds, as often as it binds them.
    fn block_names(&self, alloc: Global) -> Result<Texts, Memory>
        ensures { (file : ℕ) → IfOk result (λ names. names ≡ names_of ops_names (code_of file self.now)) }
    {
        let mut names = Items::new(alloc);
        match self {
            FunctionCode::Lambda(_, _) => Ok(names),
            FunctionCode::Def(_, _, block) => {
                put_block_names(block, &mut names)?;
                Ok(names)
            }
        }
    }
}

impl<'p> Function<'p> {
    /// The function with this code.
    pub(crate) fn of(alloc: Global, code: FunctionCode<'p>) -> Result<Function<'p>, Memory>
        ensures { IfOk result (λ f. f.code ≡ code.entry) }
    {
        let parameters = parameter_names(alloc, code.parameters())?;
        let fresh = Scope::besides(alloc, &parameters, &code.block_names(alloc)?)?;
        Ok(Function { code, fresh })
    }
}
