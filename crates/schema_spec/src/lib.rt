//! The definitions of types of data values as plain data: what a schema document says, where a tree isn't of a type, and what is filled in
//! where it is. They stand in `specs/`.
//!
//! The default of each type that schema documents give is of the type and filled; and what is of such a type stays so where it is filled,
//! which changes nothing a second time (`schemas_are_proper`).
#![tactic(auto)]

ghost use Rattle.schema_spec.specs.Laws.{SchemasAreProper};

/// Schema documents that the program holds give proper types alone: the default is of the type and filled, what is of the type stays so
/// where it is filled, and filling again changes nothing.
pub fn schemas_are_proper<H>()
    ensures { SchemasAreProper H }
{}
