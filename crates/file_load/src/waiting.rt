// Files whose load statements run, and those that wait for what they load.
ghost use Rattle.std.specs.Prelude.{◌≡◌, ◌++◌, ◌∷◌, [], OnOk};
ghost use Rattle.world_spec.specs.Worlds.{is_begun};
ghost use Rattle.file_load.specs.Seen.{files_of};

use crate::programs::Program;
use object_arena::NamedValues;
use sqlite_items::Items;
use star_blocks::Op;
use star_tree::code::Loaded;
use ytt_base::fault::Place;
use ytt_base::text::Memory;

/// A file whose load statements run: what is left of its block, the names that it has got, and how many loads may stand in one another
/// from here on.
#[derive(Drop)]
pub(crate) struct Run<'p> {
    pub program: Program<'p>,
    pub rest: &'p [Op],
    pub got: NamedValues,
    pub loads: usize,
}

/// A file that waits for one that it loads: where, by which names, and the number of the file that it waits for.
#[derive(Drop)]
pub(crate) struct Waiting<'p> {
    pub run: Run<'p>,
    pub place: Place,
    pub names: &'p [Loaded],
    pub file: u32,
}

/// Whether some file waits for the file of a number.
pub(crate) fn is_begun(waiting: &[Waiting<'_>], file: u32) -> bool
    ensures { result ≡ is_begun file (files_of waiting.now) }
{
    let mut left = waiting.len();
    while left > 0 {
        left -= 1;
        if waiting[left].file == file {
            return true;
        }
    }
    false
}

/// Puts a file that waits behind the others.
pub(crate) fn wait<'p>(waiting: &mut Items<Waiting<'p>>, last: Waiting<'p>) -> Result<(), Memory>
    ensures { OnOk result (waiting.new ≡ waiting.old ++ last.entry ∷ []) }
{
    waiting.push(last)?;
    Ok(())
}
