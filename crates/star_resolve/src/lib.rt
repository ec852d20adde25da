//! Scopes: each name of a program is bound to one variable, or is unknown.
#![tactic(auto)]

mod binding;
mod event;
mod gather;
mod laws;
mod levels;
mod names;
mod program;
mod scope;
mod scopes;
mod walk;

pub use binding::{Resolved, Variables, resolve};
pub use laws::{
    call_frames, call_scopes, names_are_variables, names_have_their_boxes, new_frames, new_scopes,
};
pub use levels::Variable;
pub use names::{clause_names, parameter_names, put_target_names};
pub use scope::Scope;
