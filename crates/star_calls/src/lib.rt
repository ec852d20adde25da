//! All that a call needs over the arena: its arguments, how they are bound to the parameters of a function, and its scope.
//!
//! `add_argument` puts what one more argument gives behind those that are given. `call_scope` gives the scope of a call: boxes
//! for its parameters and for the names that its block binds, in front of the variables that stood around the function;
//! `open_scope` gives boxes without values for names.
//!
//! `bind` gives the values that the parameters get, in their order: the arguments by position first, then those by name,
//! then the defaults. A star takes the positions that are left, as a tuple, and two stars the names that are left, as a new
//! dict. Where a parameter gets nothing, or an argument has no parameter, or a name is given twice, it refuses with `ArgBind`,
//! and no dict is made. `bind_named` does the same for the parameters of the language's own functions, which are None where they
//! may be left out and aren't given; `has_twice` tells whether two arguments have one name, in time about linear in their count.
#![tactic(auto)]

mod arguments;
mod binding;
mod call;
mod filling;
mod left;
mod names;
mod own;
mod rests;
mod scopes;
mod signature;
mod spread;

pub use arguments::{ArgumentForm, add_argument};
pub use binding::bind;
pub use call::call_scope;
pub use names::has_twice;
pub use scopes::open_scope;
pub use signature::bind_named;
