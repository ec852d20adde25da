// What holds of all files of code.
ghost use Rattle.world_spec.specs.Laws.{ReadFilesAreCode};

/// What the grammar reads of a file has closed blocks, in which no part of a node stands, and no function that builds items.
pub fn read_files_are_code()
    ensures { ReadFilesAreCode }
{}
