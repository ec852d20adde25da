// What files gave that were loaded.
ghost use Rattle.std.specs.Prelude.{◌≡◌, ◌++◌, ◌∷◌, [], OnOk};
ghost use Rattle.star_values.specs.View.{View};
ghost use Rattle.file_load.specs.Gave.{FindsGiven};

use object_arena::NamedValues;
use sqlite_items::Items;
use ytt_base::text::Memory;

/// What a file gave whose run ended: its number, and its globals.
#[derive(Drop)]
pub struct Given {
    pub file: u32,
    pub globals: NamedValues,
}

/// What the files of a run gave that were loaded and have ended, in the order in which they ended.
pub type Modules = Items<Given>;

/// The globals that a file gave, if it was loaded and has ended: those of the last one with this number.
pub(crate) fn globals_given(given: &[Given], file: u32) -> Option<&NamedValues>
    ensures { (a : View) → FindsGiven a given.now file result }
{
    let mut left = given.len();
    while left > 0 {
        left -= 1;
        let one = &given[left];
        if one.file == file {
            return Some(&one.globals);
        }
    }
    None
}

/// Puts what a file gave behind what the others gave.
pub(crate) fn put(given: &mut Modules, last: Given) -> Result<(), Memory>
    ensures { OnOk result (given.new ≡ given.old ++ last ∷ []) }
{
    given.push(last)?;
    Ok(())
}
