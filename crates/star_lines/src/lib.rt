//! Law: behind a line end the tokens of a comment's code begin anew.
#![tactic(auto)]

ghost use Rattle.star_lines.specs.Depths.{DepthsGoOn};

/// The brackets that are open behind a text and a line end are open before the text below.
pub fn depths_go_on()
    ensures { DepthsGoOn }
{}
