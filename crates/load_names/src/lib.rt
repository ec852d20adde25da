//! What a load statement names: the file under a path, the value of a module, and the names that it binds.
//!
//! `may_load` tells whether a path may be loaded at all, and `name_for` which name it then stands for in the file of a name: both
//! together are the definition's `file_named`. `make_module` makes the value of a module in the arena, by the module's name.
//! `private_among` tells the first name of a load statement that nothing may load, and `names_loaded` puts the values of its names
//! behind those that a file has got, or refuses with the first one that isn't there.
#![tactic(auto)]

mod module_values;
mod names;
mod paths;

pub use module_values::make_module;
pub use names::{fault_with, names_loaded, private_among};
pub use paths::{may_load, name_for};
