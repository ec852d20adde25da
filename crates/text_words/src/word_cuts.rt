// The words of a text, which stand between runs of white space.
ghost use Rattle.std.specs.Prelude.{◌≡◌, IfOk};
ghost use Rattle.text_spec.specs.Classes.{behind, is_space};
ghost use Rattle.text_spec.specs.Cutting.{words, words_back};
ghost use Rattle.text_spec.specs.Texts.{texts_of};
ghost use Rattle.text_words.specs.Ends.{all_turned, turned};

use crate::runs::{End, Run, split_run};
use sqlite_items::Items;
use std::alloc::Global;
use ytt_base::text::Memory;

/// The text without the white space at an end.
fn without_space(end: End, text: &str) -> &str
    ensures { turned end result.now ≡ behind is_space (turned end text.now) }
{
    split_run(end, Run::Space, text).1
}

/// The words from an end on, so many at most, and then what is left from the next word on.
fn words_from<'t>(
    alloc: Global,
    end: End,
    count: u128,
    text: &'t str,
) -> Result<Vec<&'t str>, Memory>
    ensures { IfOk result (λ ws. all_turned end (texts_of ws.items) ≡ words count (turned end text.now)) }
{
    let mut words = Vec::new(alloc);
    let mut left = count;
    let mut rest = without_space(end, text);
    while !rest.is_empty() {
        if left == 0 {
            words.push(rest)?;
            return Ok(words);
        }
        let (word, more) = split_run(end, Run::Word, rest);
        words.push(word)?;
        rest = without_space(end, more);
        left -= 1;
    }
    Ok(words)
}

/// The words of a text, so many at most, and then what is left from the next word on, as it stands. White space is that of
/// ASCII. The only error is want of memory.
pub fn words<'t>(alloc: Global, count: u128, text: &'t str) -> Result<Items<&'t str>, Memory>
    ensures { IfOk result (λ ws. texts_of ws ≡ words count text.now) }
{
    Ok(Items::from_vec(words_from(alloc, End::Front, count, text)?))
}

/// The same from the end: so many of the last words at most, and before them what is left up to the word before, as it stands.
/// They come in the order of the text.
pub fn words_back<'t>(alloc: Global, count: u128, text: &'t str) -> Result<Items<&'t str>, Memory>
    ensures { IfOk result (λ ws. texts_of ws ≡ words_back count text.now) }
{
    let mut words = words_from(alloc, End::Back, count, text)?;
    words.reverse();
    Ok(Items::from_vec(words))
}
