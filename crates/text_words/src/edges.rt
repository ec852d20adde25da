// The character at an end of a text.
ghost use Rattle.std.specs.Prelude.{◌≡◌, [], MatchOption};
ghost use Rattle.text_words.specs.declared.runs.End.TheVariants.{Back, Front};
ghost use Rattle.text_words.specs.Strips.{IsEdge};

use crate::runs::End;

/// The character at an end of a text and what is left of it, or `None` for an empty text.
pub(crate) fn edge(end: End, text: &str) -> Option<(&str, &str)>
    ensures { MatchOption result (text.now ≡ []) (λ p. IsEdge end p.0.now p.1.now text.now) }
{
    match end {
        End::Front => first_character(text),
        End::Back => last_character(text),
    }
}

fn first_character(text: &str) -> Option<(&str, &str)>
    ensures { MatchOption result (text.now ≡ []) (λ p. IsEdge Front p.0.now p.1.now text.now) }
{
    let first = text.chars().next()?;
    Some(text.split_at(first.len_utf8()))
}

fn last_character(text: &str) -> Option<(&str, &str)>
    ensures { MatchOption result (text.now ≡ []) (λ p. IsEdge Back p.0.now p.1.now text.now) }
{
    let (at, _) = text.char_indices().next_back()?;
    let (rest, last) = text.split_at(at);
    Some((last, rest))
}
