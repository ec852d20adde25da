// The natives of the modules struct, assert and template, by their names, and what each takes.
ghost use Rattle.std.specs.Prelude.{◌≡◌, MatchOption, Some, map as each, option_map};
ghost use Rattle.module_spec.specs.Answering.{codec_natives, natives, row_in};
ghost use Rattle.mod_basic.specs.View.{named_rows, needed_of, row_of};
ghost use Rattle.mod_basic.specs.Walks.{Here};

/// A native of the modules struct, assert and template. `Check` is what the checks of rules hold.
#[derive(Clone, Copy)]
pub enum Basic {
    Make,
    Encode,
    Decode,
    Fail,
    Equals,
    TryTo,
    Min,
    Max,
    MinLen,
    MaxLen,
    NotNull,
    Check,
    Replace,
}

/// The native of a name among these.
fn basic_among(name: &str, basics: &[(&str, Basic)]) -> Option<Basic>
    ensures { option_map row_of result ≡ row_in name.now (named_rows basics.now) }
{
    for basic in basics {
        if name == basic.0 {
            return Some(basic.1);
        }
    }
    None
}

/// The native of these modules that has a name, if there is one.
pub fn basic_named(name: &str) -> Option<Basic>
    ensures { MatchOption result (row_in {H = Here} name.now natives ≡ row_in name.now codec_natives) (λ b. row_in name.now natives ≡ Some (row_of b)) }
{
    basic_among(
        name,
        &[
            ("struct.make", Basic::Make),
            ("struct.encode", Basic::Encode),
            ("struct.decode", Basic::Decode),
            ("assert.fail", Basic::Fail),
            ("assert.equals", Basic::Equals),
            ("assert.try_to", Basic::TryTo),
            ("assert.min", Basic::Min),
            ("assert.max", Basic::Max),
            ("assert.min_len", Basic::MinLen),
            ("assert.max_len", Basic::MaxLen),
            ("assert.not_null", Basic::NotNull),
            ("assert.check", Basic::Check),
            ("template.replace", Basic::Replace),
        ],
    )
}

/// The parameters that a native binds its arguments to.
pub(crate) fn parameters_of(basic: Basic) -> &'static [&'static str]
    ensures { each (λ w. w.now) result.now ≡ needed_of basic }
{
    match basic {
        Basic::Make | Basic::NotNull => &[],
        Basic::Encode | Basic::Decode | Basic::Replace => &["x"],
        Basic::Fail => &["text"],
        Basic::Equals => &["a", "b"],
        Basic::TryTo => &["f"],
        Basic::Min | Basic::Max | Basic::MinLen | Basic::MaxLen => &["n"],
        Basic::Check => &["v"],
    }
}
