// What a text begins and ends with.
ghost use Rattle.std.specs.Prelude.{◌≡◌, ◌-◌, drop, length, take};
ghost use Rattle.operator_spec.specs.Operators.{begins_with};
ghost use Rattle.text_spec.specs.Cutting.{without_prefix, without_suffix};
ghost use Rattle.text_spec.specs.Places.{ends_with};
ghost use Rattle.text_pieces.specs.Texts.{IsLeft};

/// What stands behind a text that another begins with.
#[tactic(auto, using(crate::proofs::Fronts::edges))]
fn behind<'t>(part: &str, text: &'t str) -> Option<&'t str>
    ensures { IsLeft (begins_with part.now text.now) (drop (length part.now) text.now) result }
{
    text.strip_prefix(part)
}

/// What stands before a text that another ends with.
#[tactic(auto, using(crate::proofs::Fronts::edges))]
fn before<'t>(part: &str, text: &'t str) -> Option<&'t str>
    ensures { IsLeft (ends_with part.now text.now) (take (length text.now - length part.now) text.now) result }
{
    text.strip_suffix(part)
}

/// Whether the text begins with `part`.
pub fn begins_with(part: &str, text: &str) -> bool
    ensures { result ≡ begins_with part.now text.now }
{
    behind(part, text).is_some()
}

/// Whether the text ends with `part`.
pub fn ends_with(part: &str, text: &str) -> bool
    ensures { result ≡ ends_with part.now text.now }
{
    before(part, text).is_some()
}

/// The text without `part`, if it begins with it.
pub fn without_prefix<'t>(part: &str, text: &'t str) -> &'t str
    ensures { result.now ≡ without_prefix part.now text.now }
{
    match behind(part, text) {
        Some(rest) => rest,
        None => text,
    }
}

/// The text without `part`, if it ends with it.
pub fn without_suffix<'t>(part: &str, text: &'t str) -> &'t str
    ensures { result.now ≡ without_suffix part.now text.now }
{
    match before(part, text) {
        Some(rest) => rest,
        None => text,
    }
}
