// The functions of files by their numbers.
ghost use Rattle.std.specs.Prelude.{◌≡◌, ℕ, IfOk, OnOk, Option, nat_eq};
ghost use Rattle.std.specs.Option.{option_map};
ghost use Rattle.indexmap.specs.IndexMap.{get};
ghost use Rattle.code_spec.specs.Blocks.{Ops};
ghost use Rattle.star_blocks.specs.Nested.{ops_of};
ghost use Rattle.star_spec.specs.Calls.{Code};
ghost use Rattle.star_functions.specs.Known.{blocks_in, files_of, known, known_before};
ghost use Rattle.star_functions.specs.Table.{code_in, code_or, code_with, table_of};
ghost use Rattle.template_meaning.specs.Calls.{ops_function};

use crate::blocks::find_in_block;
use crate::function::Function;
use crate::programs::FileBlock;
use indexmap::IndexMap;
use sqlite_items::Items;
use star_blocks::Op;
use std::alloc::Global;
use std::rc::Rc;
use ytt_base::text::Memory;

/// The functions of files, by the numbers of the files: of each file the first with each number. Of files with the same number the
/// first counts. They are shared, so that one table serves all runs over the same files.
#[derive(Drop)]
pub struct Functions<'p> {
    files: Rc<IndexMap<u32, IndexMap<usize, Function<'p>>>>,
}

/// The functions of a block by their numbers.
fn by_number<'p>(alloc: Global, block: &'p [Op]) -> Result<IndexMap<usize, Function<'p>>, Memory>
    ensures { IfOk result (λ fs. (file k : ℕ) → code_in file (get nat_eq fs k) ≡ ops_function k (ops_of file block.now)) }
{
    let mut found = Items::new(alloc);
    find_in_block(block, &mut found)?;
    let mut by_number = IndexMap::new(alloc);
    for numbered in found.as_slice() {
        if !by_number.contains_key(&numbered.number) {
            let function = Function::of(alloc, numbered.code)?;
            by_number.insert(numbered.number, function)?;
        }
    }
    Ok(by_number)
}

/// The functions of one file more, unless one with its number stands already.
fn put<'p>(
    alloc: Global,
    files: &mut IndexMap<u32, IndexMap<usize, Function<'p>>>,
    program: &'p FileBlock,
) -> Result<(), Memory>
    ensures { OnOk result ((f k : ℕ) (more : Option (Code Ops)) → code_or f k (get nat_eq files.new f) more ≡ code_or f k (get nat_eq files.old f) (known_before program.now f k more)) }
{
    if files.contains_key(&program.file) {
        return Ok(());
    }
    let functions = by_number(alloc, program.block.as_slice())?;
    files.insert(program.file, functions)?;
    Ok(())
}

/// The functions of these files.
pub fn functions_of<'p>(alloc: Global, programs: &[&'p FileBlock]) -> Result<Functions<'p>, Memory>
    ensures { IfOk result (λ fs. (file k : ℕ) → table_of fs file k ≡ known (files_of (blocks_in programs.now)) file k) }
{
    let mut files = IndexMap::new(alloc);
    for program in programs {
        put(alloc, &mut files, program)?;
    }
    let files = Rc::new(alloc, files)?;
    Ok(Functions { files })
}

impl<'p> Functions<'p> {
    /// The function of a file with a number.
    pub fn find(&self, file: u32, number: usize) -> Option<&Function<'p>>
        ensures { option_map (λ f. f.now.code) result ≡ code_with file number self.now }
    {
        let functions = self.files.as_ref().get(&file)?;
        functions.get(&number)
    }

    /// The same functions, which are shared.
    pub fn shared(&self) -> Result<Functions<'p>, Memory>
        ensures { IfOk result (λ fs. (file k : ℕ) → table_of fs file k ≡ table_of self.now file k) }
    {
        Ok(Functions {
            files: self.files.clone()?,
        })
    }
}
