//! The definitions of text templates: how a text is cut into what stands between `(@=` and `@)` and what is around that, and which
//! texts of a template are cut. They stand in `specs/`.
//!
//! A template that is placed is placed with its text templates too (`texts_keep_placed`).
#![tactic(auto)]

ghost use Rattle.std.specs.Prelude.{◌≡◌, Ok};
ghost use Rattle.code_spec.specs.CodeReading.{CodeReader};
ghost use Rattle.template_spec.specs.ControlWords.{WordsStand, free};
ghost use Rattle.template_spec.specs.Placed.{AllowedItems, Placed};
ghost use Rattle.template_spec.specs.Template.{Items};
ghost use Rattle.text_template_spec.specs.TextPieces.{AllowsCode};
ghost use Rattle.text_template_spec.specs.TextTemplates.{with_texts};

/// What is placed stays placed, and where the reader gives code whose names may stand so, names stand as they may. No `break`, `continue`
/// or `return` leaves a node where none did.
pub fn texts_keep_placed()
    ensures placed { (r : CodeReader) (t u : Items) → with_texts r t ≡ Ok u → Placed t → Placed u }
    ensures allowed { (r : CodeReader) (t u : Items) → AllowsCode r → with_texts r t ≡ Ok u → AllowedItems t → AllowedItems u }
    ensures words { (r : CodeReader) (t u : Items) → with_texts r t ≡ Ok u → WordsStand free t → WordsStand free u }
{}
