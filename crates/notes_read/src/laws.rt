// What holds of readers of code, and of brackets that are open.
ghost use Rattle.notes_read.specs.Depths.{DepthsTell};
ghost use Rattle.star_grammar.specs.CodeReaders.{ACodeReaderExists, CodeReadersAgree};

/// Some reader reads each text as the grammar says.
pub fn a_code_reader_exists()
    ensures { ACodeReaderExists }
{}

/// Any two read each text as the same.
pub fn code_readers_agree()
    ensures { CodeReadersAgree }
{}

/// The brackets that are open at a comment's end tell whether it may go on, and go on as they stood.
pub fn depths_tell()
    ensures { DepthsTell }
{}
