// That the scopes of names, and their variables, agree with the environments in which code is evaluated.
ghost use Rattle.star_resolve.specs.Environments.{CallScopes, NamesHaveTheirBoxes, NewScopes};
ghost use Rattle.star_resolve.specs.Frames.{CallFrames, NamesAreVariables, NewFrames, OwnNamesHaveBoxes};

/// In an environment that has the boxes of what the scopes around a name bind, the name has the box that
/// its scope has for it, or none where no scope binds it.
pub fn names_have_their_boxes()
    ensures { NamesHaveTheirBoxes }
{}

/// A file and a comprehension get the boxes of what they bind, and of nothing else.
pub fn new_scopes<H>()
    ensures { NewScopes H }
{}

/// A call of a function gets the boxes of its parameters and of what its block binds, in front of those
/// that stand around the function.
pub fn call_scopes<H>()
    ensures { CallScopes H }
{}

/// Where each scope around a place has the boxes of its variables, the box of a name there is the box of
/// its variable. A name has one exactly where a scope binds it, so none that has a variable of the program
/// is unknown when it is read or written.
pub fn names_are_variables()
    ensures boxes { NamesAreVariables }
    ensures own { OwnNamesHaveBoxes }
{}

/// A file and a comprehension get a new box for each of their variables, in the order of their numbers,
/// without a value, and change nothing else.
pub fn new_frames<H>()
    ensures { NewFrames H }
{}

/// The first variables of a function are its parameters, in their order, with the boxes of the values that
/// these get. The others get new boxes behind these, in the order of their numbers.
pub fn call_frames<H>()
    ensures { CallFrames H }
{}
