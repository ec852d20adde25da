// What is stripped off the ends of a text.
ghost use Rattle.std.specs.Prelude.{◌≡◌, length};
ghost use Rattle.text_spec.specs.Cutting.{strip_back, strip_front};
ghost use Rattle.text_words.specs.Sets.{IsCharacterSet, characters_in};
ghost use Rattle.text_words.specs.Strips.{strip_at};

use crate::character_set::CharacterSet;
use crate::runs::End;

/// The text without the characters of a set at an end, as many as stand there.
fn stripped<'t>(end: End, set: &CharacterSet, text: &'t str) -> &'t str
    requires { IsCharacterSet set.now }
    ensures { result.now ≡ strip_at end (length text.now) (characters_in set.now) text.now }
{
    let mut rest = text;
    while let Some(left) = set.without(end, rest) {
        rest = left;
    }
    rest
}

/// The text without the characters of a set at its start, as many as stand there. It takes time that grows with the text, and
/// not with the set.
pub fn stripped_front<'t>(set: &CharacterSet, text: &'t str) -> &'t str
    requires { IsCharacterSet set.now }
    ensures { result.now ≡ strip_front (length text.now) (characters_in set.now) text.now }
{
    stripped(End::Front, set, text)
}

/// The same at its end.
pub fn stripped_back<'t>(set: &CharacterSet, text: &'t str) -> &'t str
    requires { IsCharacterSet set.now }
    ensures { result.now ≡ strip_back (length text.now) (characters_in set.now) text.now }
{
    stripped(End::Back, set, text)
}
