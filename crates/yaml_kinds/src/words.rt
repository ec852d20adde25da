// The words that have a meaning of their own.
ghost use Rattle.std.specs.Prelude.{◌≡◌, map as each};
ghost use Rattle.yaml_spec.specs.Bytes.{false_words, is_word, null_words, true_words, yes_words};
ghost use Rattle.yaml_spec.specs.Scalars.{infinity_words, nan_words};

fn is_word(words: &[&[u8]], word: &[u8]) -> bool
    ensures { result ≡ is_word (each (λ w. w.now) words.now) word.now }
{
    for other in words {
        if *other == word {
            return true;
        }
    }
    false
}

/// Whether the text is null: nothing, `~` or a form of `null`.
pub fn is_null_word(word: &[u8]) -> bool
    ensures { result ≡ is_word null_words word.now }
{
    is_word(
        &[
            b"".as_slice(),
            b"~".as_slice(),
            b"null".as_slice(),
            b"Null".as_slice(),
            b"NULL".as_slice(),
        ],
        word,
    )
}

/// Whether the word is the bool `true`.
pub fn is_true_word(word: &[u8]) -> bool
    ensures { result ≡ is_word true_words word.now }
{
    is_word(
        &[b"true".as_slice(), b"True".as_slice(), b"TRUE".as_slice()],
        word,
    )
}

/// Whether the word is the bool `false`.
pub fn is_false_word(word: &[u8]) -> bool
    ensures { result ≡ is_word false_words word.now }
{
    is_word(
        &[
            b"false".as_slice(),
            b"False".as_slice(),
            b"FALSE".as_slice(),
        ],
        word,
    )
}

/// Whether the word is a string that YAML 1.1 reads as a bool, such as `yes` or `off`.
pub fn is_yes_word(word: &[u8]) -> bool
    ensures { result ≡ is_word yes_words word.now }
{
    is_word(
        &[
            b"y".as_slice(),
            b"Y".as_slice(),
            b"n".as_slice(),
            b"N".as_slice(),
            b"yes".as_slice(),
            b"Yes".as_slice(),
            b"YES".as_slice(),
            b"no".as_slice(),
            b"No".as_slice(),
            b"NO".as_slice(),
            b"on".as_slice(),
            b"On".as_slice(),
            b"ON".as_slice(),
            b"off".as_slice(),
            b"Off".as_slice(),
            b"OFF".as_slice(),
        ],
        word,
    )
}

/// Whether the word is an infinite float, its sign aside.
pub fn is_infinity_word(word: &[u8]) -> bool
    ensures { result ≡ is_word infinity_words word.now }
{
    is_word(
        &[b".inf".as_slice(), b".Inf".as_slice(), b".INF".as_slice()],
        word,
    )
}

/// Whether the word is a float that is no number.
pub fn is_nan_word(word: &[u8]) -> bool
    ensures { result ≡ is_word nan_words word.now }
{
    is_word(
        &[b".nan".as_slice(), b".NaN".as_slice(), b".NAN".as_slice()],
        word,
    )
}
