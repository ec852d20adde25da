//! The definitions of templates and of their programs, and the laws between them. They stand in `specs/`.
//!
//! A program that is a template compiled is well nested where the template is placed, and where it is well nested no `break`,
//! `continue` or `return` leaves a node (`WordsStand`): `compiled_is_well_nested`. Numbering commutes with compiling
//! (`numbers_are_compiled`), and a program whose functions get their numbers stays as well nested as it was, and has its blocks
//! (`numbers_keep_programs`).
#![tactic(auto)]

ghost use Rattle.std.specs.Prelude.{◌≡◌, List, IsSome};
ghost use Rattle.code_spec.specs.Blocks.{blocks};
ghost use Rattle.code_spec.specs.Program.{Instruction};
ghost use Rattle.template_spec.specs.Compiled.{compiled};
ghost use Rattle.template_spec.specs.ControlWords.{WordsStand, free};
ghost use Rattle.template_spec.specs.Numbered.{numbered, numbered_program};
ghost use Rattle.template_spec.specs.Placed.{AllowedItems, Placed};
ghost use Rattle.template_spec.specs.Template.{Items};
ghost use Rattle.template_spec.specs.WellNested.{WellNested};

/// The program of a placed template is well nested where the names in its code are as they may be. Where a
/// template's program is well nested, no control word of the template leaves a node open.
pub fn compiled_is_well_nested()
    ensures placed { (t : Items) → Placed t → AllowedItems t → WellNested (compiled t) }
    ensures words { (t : Items) → WellNested (compiled t) → WordsStand free t }
{}

/// A compiled template has the functions of the template under the same numbers: numbering commutes with
/// compiling.
pub fn numbers_are_compiled()
    ensures { (t : Items) → numbered_program (compiled t) ≡ compiled (numbered t) }
{}

/// The blocks of a program are closed where they should be, and a program is well nested, also when its
/// functions have their numbers.
pub fn numbers_keep_programs()
    ensures blocks { (is : List Instruction) → IsSome (blocks is) → IsSome (blocks (numbered_program is)) }
    ensures nested { (is : List Instruction) → WellNested is → WellNested (numbered_program is) }
{}
