// The names of the language.
ghost use Rattle.std.specs.Prelude.{◌≡◌, ◌++◌, map as each, IfOk, OnOk};
ghost use Rattle.code_spec.specs.Names.{is_among, language_names, own_functions};

use sqlite_items::Items;
use std::alloc::Global;
use ytt_base::text::{Memory, Names, Text};

/// The names of the language's own functions.
fn own_functions() -> [&'static str; 23]
    ensures { each (λ w. w.now) result ≡ own_functions }
{
    [
        "len",
        "range",
        "str",
        "repr",
        "type",
        "bool",
        "list",
        "tuple",
        "abs",
        "dict",
        "int",
        "sorted",
        "min",
        "max",
        "reversed",
        "enumerate",
        "zip",
        "any",
        "all",
        "hasattr",
        "getattr",
        "dir",
        "fail",
    ]
}

/// Puts these words as names behind the others.
fn put_words(alloc: Global, words: &[&str], names: &mut Names) -> Result<(), Memory>
    ensures { OnOk result (names.new ≡ names.old ++ each (λ w. w.now) words.now) }
{
    for word in words {
        names.push(Text::of(alloc, *word)?)?;
    }
    Ok(())
}

/// The names of the language: those of its values, and then those of its functions. Want of memory is
/// `Memory`.
pub fn language_names(alloc: Global) -> Result<Names, Memory>
    ensures { IfOk result (λ names. names ≡ language_names) }
{
    let mut names = Items::new(alloc);
    put_words(alloc, &["None", "True", "False"], &mut names)?;
    put_words(alloc, &own_functions(), &mut names)?;
    Ok(names)
}

fn is_one_of(name: &str, words: &[&str]) -> bool
    ensures { result ≡ is_among name.now (each (λ w. w.now) words.now) }
{
    for word in words {
        if name == *word {
            return true;
        }
    }
    false
}

/// Whether a name is one of the language's own functions.
pub fn is_own_function(name: &str) -> bool
    ensures { result ≡ is_among name.now own_functions }
{
    is_one_of(name, &own_functions())
}
