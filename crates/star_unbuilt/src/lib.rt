//! Which notes and loads aren't built yet, and the first place of what isn't built.
//!
//! `is_built_note` tells the name of a note that is built, `is_later_module` the path of a module that comes later. `see_note` and `see_load`
//! are given one note or statement after another, and keep the first place at the least line (`specs/Places`).
#![tactic(auto)]

ghost use Rattle.std.specs.Prelude.{◌≡◌, [], ◌∷◌};
ghost use Rattle.passes_spec.specs.Unbuilt.{is_built_note, is_later_module, unbuilt_note};
ghost use Rattle.star_tree.specs.Whole.{instruction_of};
ghost use Rattle.star_unbuilt.specs.Places.{earlier, load_places_of};

use star_tree::code::Stmt;
use ytt_base::fault::Place;

/// Whether the note of this name is built.
pub fn is_built_note(name: &str) -> bool
    ensures { result ≡ is_built_note name.now }
{
    name == "yaml/map-key-override" || name == "yaml/text-templated-strings"
}

/// Whether this is the path of a module that comes later, whose load isn't built yet.
pub fn is_later_module(path: &str) -> bool
    ensures { result ≡ is_later_module path.now }
{
    path == "@ytt:data" || path == "@ytt:overlay"
}

/// Sees a place: it is the first from here on where it stands on a line before the first so far.
fn see(place: Place, first: &mut Option<Place>)
    ensures { first.new ≡ earlier first.old (place ∷ []) }
{
    match *first {
        None => *first = Some(place),
        Some(before) => {
            if place.line < before.line {
                *first = Some(place);
            }
        }
    }
}

/// Sees a note of this name: where it isn't built, its place.
pub fn see_note(place: Place, name: &str, first: &mut Option<Place>)
    ensures { first.new ≡ earlier first.old (unbuilt_note place name.now) }
{
    if !is_built_note(name) {
        see(place, first);
    }
}

/// Sees a statement of the file of this number: where it loads a module that comes later, its place.
pub fn see_load(file: u32, stmt: &Stmt, first: &mut Option<Place>)
    ensures { first.new ≡ earlier first.old (load_places_of (instruction_of file stmt.now)) }
{
    match stmt {
        Stmt::Load(line, path, _) => {
            if is_later_module(path.as_str()) {
                see(Place { file, line: *line }, first);
            }
        }
        _ => {}
    }
}
