// What holds of all tokens.
ghost use Rattle.star_read.specs.Answers.{EachIsRead, NeverBoth, OneRefusal, OneTree};

/// Tokens have at most one tree.
pub fn one_tree()
    ensures { OneTree }
{}

/// Tokens that end are read or refused.
pub fn each_is_read()
    ensures { EachIsRead }
{}

/// They are refused for one reason.
pub fn one_refusal()
    ensures { OneRefusal }
{}

/// None are both.
pub fn never_both()
    ensures { NeverBoth }
{}
