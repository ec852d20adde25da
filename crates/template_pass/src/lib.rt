//! Placing by levels: one pass from the left finds the first fault and where everything belongs, and one from the right builds.
//!
//! What they give is what placing says of the events of a text. The passes stand in `specs/Levels` and `specs/Building`; that
//! they give this is the contract of functions that do nothing.
#![tactic(auto)]

ghost use Rattle.template_pass.specs.Laws.{FaultIsByLevels, TemplateIsByLevels};

/// The first fault of placing is the one that the pass over the rows of the text finds, with a stack of levels.
pub fn fault_is_by_levels()
    ensures { FaultIsByLevels }
{}

/// Where nothing is wrong, the template is the one that the passes over the rows of the text build, with a slot for each level.
pub fn template_is_by_levels()
    ensures { TemplateIsByLevels }
{}
