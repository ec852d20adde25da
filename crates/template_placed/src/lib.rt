//! What placing gives is placed: nodes of the kinds of their collections, keys on pairs alone, and statements where they may stand.
#![tactic(auto)]

ghost use Rattle.template_placed.specs.Laws.{PlacedIsKinded, PlacedIsPlaced};

/// What placing gives of documents with keys on pairs alone has nodes of the kinds of their collections, and keys on pairs alone.
pub fn placed_is_kinded()
    ensures { PlacedIsKinded }
{}

/// What placing gives of documents with keys on pairs alone is placed, so its program is well nested where its names are as they
/// may be.
pub fn placed_is_placed()
    ensures { PlacedIsPlaced }
{}
