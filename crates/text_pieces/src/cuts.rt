// A text cut once, at a text that isn't empty.
ghost use Rattle.std.specs.Prelude.{◌<◌, length};
ghost use Rattle.text_spec.specs.Places.{first_place, last_place};
ghost use Rattle.text_pieces.specs.Texts.{StandAround};

/// The text before the first place of `part` and behind what occurs there, or `None` where there is no place.
pub fn cut_first<'t>(part: &str, text: &'t str) -> Option<(&'t str, &'t str)>
    requires { 0 < length part.now }
    ensures { StandAround part.now text.now (first_place part.now text.now) result }
{
    text.split_once(part)
}

/// The text before the last place of `part` and behind what occurs there, or `None` where there is no place.
pub fn cut_last<'t>(part: &str, text: &'t str) -> Option<(&'t str, &'t str)>
    requires { 0 < length part.now }
    ensures { StandAround part.now text.now (last_place part.now text.now) result }
{
    text.rsplit_once(part)
}
