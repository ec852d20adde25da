// Parameters that were read.
ghost use Rattle.std.specs.Prelude.{◌≡◌, ◌++◌, ◌∷◌, [], IfOk};
ghost use Rattle.star_params.specs.Parameters as spec;
ghost use Rattle.star_params.specs.Told.{IsWithName};

use sqlite_items::{Boxed, Items};
use star_tree::code::{Expr, Param};
use std::alloc::Global;
use std::collections::HashSet;
use std::marker::Model;
use ytt_base::text::Memory;

/// The parameters of a head that were read so far, seen as their list. Beside them stand the set of their names, and whether one has
/// a star, two stars or a default.
#[derive(Drop)]
pub struct Parameters {
    params: Items<Param>,
    names: HashSet<String>,
    starred: bool,
    double_starred: bool,
    with_default: bool,
}

impl Model for Parameters {
    ghost use Rattle.std.specs.Prelude.{List};
    ghost use Rattle.std.specs.Coded.{codes};
    ghost use Rattle.star_tree.specs.contracts.code.Param as param;
    ghost use Rattle.star_tree.specs.declared.code.Param.{Param};

    ghost Value = { List Param };

    ghost coded = { Prim.hlevel (codes, param.the_row.coded) };

    ghost use Rattle.star_params.specs.Told.{AreTold};

    ghost view = { λ p. p.params };

    ghost invariant = { AreTold };
}

/// The name of a parameter, which is empty where a star stands alone.
fn name_of(param: &Param) -> &str
    ensures { result.now ≡ spec.name_of_one param.now }
{
    match param {
        Param::Required(name)
        | Param::Defaulted(name, _)
        | Param::Starred(name)
        | Param::DoubleStarred(name) => name.as_str(),
        Param::BareStar => "",
    }
}

fn is_defaulted(param: &Param) -> bool
    ensures { result ≡ spec.is_defaulted_one param.now }
{
    matches!(param, Param::Defaulted(..))
}

fn is_starred(param: &Param) -> bool
    ensures { result ≡ spec.is_starred_one param.now }
{
    matches!(param, Param::BareStar | Param::Starred(_))
}

fn is_double_starred(param: &Param) -> bool
    ensures { result ≡ spec.is_double_starred_one param.now }
{
    matches!(param, Param::DoubleStarred(_))
}

fn defaulted_one(param: Param, default: Boxed<Expr>) -> Param
    ensures { result ≡ spec.defaulted_one param default }
{
    match param {
        Param::Required(name) => Param::Defaulted(name, default),
        other => other,
    }
}

/// The items and one more.
fn with(mut params: Items<Param>, param: Param) -> Result<Items<Param>, Memory>
    ensures { IfOk result (λ r. r ≡ params ++ param ∷ []) }
{
    params.push(param)?;
    Ok(params)
}

/// The names and one more.
fn with_name(
    alloc: Global,
    mut names: HashSet<String>,
    name: &str,
) -> Result<HashSet<String>, Memory>
    ensures { IfOk result (λ r. IsWithName names name.now r) }
{
    names.insert(String::from_str(alloc, name)?)?;
    Ok(names)
}

impl Parameters {
    /// No parameter. It takes no memory.
    pub fn new(alloc: Global) -> Parameters
        ensures { result ≡ [] }
    {
        Parameters {
            params: Items::new(alloc),
            names: HashSet::new(alloc),
            starred: false,
            double_starred: false,
            with_default: false,
        }
    }

    /// The parameters and one more, whatever its name. Its only error is want of memory.
    pub fn with(self, alloc: Global, param: Param) -> Result<Parameters, Memory>
        ensures { IfOk result (λ r. r ≡ self ++ param ∷ []) }
    {
        let Parameters {
            params,
            names,
            starred,
            double_starred,
            with_default,
        } = self;
        let starred = starred | is_starred(&param);
        let double_starred = double_starred | is_double_starred(&param);
        let with_default = with_default | is_defaulted(&param);
        let names = with_name(alloc, names, name_of(&param))?;
        Ok(Parameters {
            params: with(params, param)?,
            names,
            starred,
            double_starred,
            with_default,
        })
    }

    /// The parameters, where the last one gets this default, if it is a name alone. Its only error is want of memory.
    pub fn with_default(self, default: Boxed<Expr>) -> Result<Parameters, Memory>
        ensures { IfOk result (λ r. r ≡ spec.defaulted self default) }
    {
        let Parameters {
            mut params,
            names,
            starred,
            double_starred,
            with_default,
        } = self;
        match params.pop() {
            Some(last) => {
                let last = defaulted_one(last, default);
                let with_default = with_default | is_defaulted(&last);
                Ok(Parameters {
                    params: with(params, last)?,
                    names,
                    starred,
                    double_starred,
                    with_default,
                })
            }
            None => Ok(Parameters {
                params,
                names,
                starred,
                double_starred,
                with_default,
            }),
        }
    }

    /// The parameters as items. It takes no memory.
    pub fn into_items(self) -> Items<Param>
        ensures { result ≡ self }
    {
        let Parameters { params, .. } = self;
        params
    }

    /// Whether one has this name.
    pub fn has_name(&self, name: &str) -> bool
        ensures { result ≡ spec.has_name name.now self.now }
    {
        self.names.contains(name)
    }

    /// Whether one has a star, or is one alone.
    pub fn has_star(&self) -> bool
        ensures { result ≡ spec.has_star self.now }
    {
        self.starred
    }

    /// Whether one has two stars.
    pub fn has_stars(&self) -> bool
        ensures { result ≡ spec.has_stars self.now }
    {
        self.double_starred
    }

    /// Whether the last one may go without a default.
    pub fn may_be_required(&self) -> bool
        ensures { result ≡ spec.may_be_required self.now }
    {
        self.starred || !self.with_default
    }
}
