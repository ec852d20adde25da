// The header of a block scalar.
ghost use Rattle.std.specs.Prelude.{◌≡◌, ◌==◌, ◌≤◌, true};
ghost use Rattle.yaml_spec.specs.Blocks.{chomp_of, digit_of, ends_header, header, header_rest, is_chomp, is_indent_digit, skip_if};
ghost use Rattle.yaml_spec.specs.Bytes.{first};
ghost use Rattle.yaml_spec.specs.Openers.{starts_block};
ghost use Rattle.yaml_blocks.specs.BlockView.{header_of, held_chomp};

use yaml_text::{behind, first, is_white, skip_white};

/// What becomes of the breaks at the end of a block scalar.
#[derive(Clone, Copy)]
pub enum Chomp {
    /// None stays.
    Strip,
    /// One stays.
    Clip,
    /// All stay.
    Keep,
}

/// The indicators of a block scalar.
#[derive(Clone, Copy)]
pub struct Header<'a> {
    /// The indentation indicator, 0 for none.
    pub digit: usize,
    pub chomp: Chomp,
    /// What stands behind them.
    pub rest: &'a str,
}

/// An optional chomping indicator, and what stands behind it.
fn split_chomp(text: &str) -> (Chomp, &str)
    ensures chomp { held_chomp result.0 ≡ chomp_of (first text.now) }
    ensures rest { result.1.now ≡ skip_if is_chomp text.now }
{
    match first(text) {
        b'-' => (Chomp::Strip, behind(text, 1)),
        b'+' => (Chomp::Keep, behind(text, 1)),
        _ => (Chomp::Clip, text),
    }
}

/// An optional indentation indicator, and what stands behind it.
fn split_digit(text: &str) -> (usize, &str)
    ensures digit { result.0 ≡ digit_of (first text.now) }
    ensures small { result.0 ≤ 9 }
    ensures rest { result.1.now ≡ skip_if is_indent_digit text.now }
{
    match first(text) {
        byte @ b'1'..=b'9' => (usize::from(byte - b'0'), behind(text, 1)),
        _ => (0, text),
    }
}

/// The header behind `|` or `>`.
#[tactic(auto, unfolding(yaml_spec::specs::Blocks::header))]
pub fn read_header(text: &str) -> Header<'_>
    ensures header { header_of result ≡ header text.now }
    ensures small { result.digit ≤ 9 }
{
    if first(text) == b'-' || first(text) == b'+' {
        let (chomp, behind) = split_chomp(text);
        let (digit, rest) = split_digit(behind);
        return Header { digit, chomp, rest };
    }
    let (digit, behind) = split_digit(text);
    let (chomp, rest) = split_chomp(behind);
    Header { digit, chomp, rest }
}

/// What stands behind the indicators of the header at `|` or `>`.
pub fn header_rest(text: &str) -> &str
    requires { starts_block text.now ≡ true }
    ensures { result.now ≡ header_rest text.now }
{
    read_header(behind(text, 1)).rest
}

/// Whether a header may end here: only white space, or white space and a comment, is left.
pub fn ends_header(text: &str) -> bool
    ensures { result ≡ ends_header text.now }
{
    let rest = skip_white(text);
    rest.is_empty() || (is_white(first(text)) && first(rest) == b'#')
}
