// Strings by positions: what is read from a line and a column on, and where it ends.
ghost use Rattle.std.specs.Bool.{OnTrue};
ghost use Rattle.std.specs.Prelude.{◌≡◌, true};
ghost use Rattle.yaml_spec.specs.Held.{plain_lines};
ghost use Rattle.yaml_spec.specs.Openers.{starts_block};
ghost use Rattle.yaml_spec.specs.Positions.{cursor_at};
ghost use Rattle.yaml_spec.specs.Quotes.{starts_quote};

use std::alloc::Global;
use std::test::Fail;
use test_shown::{Differing, Shown, shown_stop};
use yaml_lines::cut_lines;
use yaml_scalar::{Quoted, read_block, read_quoted};
use ytt_base::fault::Stop;
use ytt_base::line::Lines;
use ytt_base::text::Memory;

/// Whether a quote stands there.
#[tactic(auto, using(yaml_spec::proofs::HeldLines::openers))]
fn has_quote(lines: &Lines, line: u64, column: u64) -> bool
    ensures { OnTrue result (let here = cursor_at (plain_lines lines.now) line column in starts_quote here.text ≡ true) }
{
    let lines = lines.as_slice();
    if line as usize >= lines.len() {
        return false;
    }
    let text = lines[line as usize].text.as_str().as_bytes();
    match text.get(column as usize) {
        Some(byte) => *byte == b'"' || *byte == b'\'',
        None => false,
    }
}

/// Whether `|` or `>` stands there.
#[tactic(auto, using(yaml_spec::proofs::HeldLines::openers))]
fn has_block(lines: &Lines, line: u64, column: u64) -> bool
    ensures { OnTrue result (let here = cursor_at (plain_lines lines.now) line column in starts_block here.text ≡ true) }
{
    let lines = lines.as_slice();
    if line as usize >= lines.len() {
        return false;
    }
    let text = lines[line as usize].text.as_str().as_bytes();
    match text.get(column as usize) {
        Some(byte) => *byte == b'|' || *byte == b'>',
        None => false,
    }
}

/// The line and the column behind a string, and the string.
fn shown(alloc: Global, answer: Result<Quoted, Stop>) -> Result<String, Memory> {
    match answer {
        Ok(quoted) => {
            let mut out = Shown::new(alloc);
            out.put_number(quoted.line as i128);
            out.put(":");
            out.put_number(quoted.column as i128);
            out.put(" ");
            out.put(quoted.text.as_str());
            out.take()
        }
        Err(stop) => shown_stop(alloc, &stop),
    }
}

/// A text, the line and the column of a quote, and what is read there.
const QUOTES: &[(&str, u64, u64, &str)] = &[
    ("''", 0, 0, "0:2 "),
    ("'a' b", 0, 0, "0:3 a"),
    ("k: 'v' #c", 0, 3, "0:6 v"),
    ("'a'\nb", 0, 0, "0:3 a"),
    ("'a''\nb'", 0, 0, "1:2 a' b"),
    ("'a\nb\nc' d", 0, 0, "2:2 a b c"),
    ("'a\n\n  '", 0, 0, "2:3 a\n"),
    // columns are bytes
    ("'é€😀'", 0, 0, "0:11 é€😀"),
    ("é: 'é\n😀' z", 0, 4, "1:5 é 😀"),
    ("\"\\u00e9\" b", 0, 0, "0:8 é"),
    // at a later line
    ("x\nk: \"a\nb\" z\ny", 1, 3, "2:2 a b"),
    ("x\n\"a\n\\q", 1, 0, "error: YamlForm at c.yml:3"),
    ("x\n'a\nb", 1, 0, "error: YamlForm at c.yml:2"),
];

/// What is read at a quote.
fn quote_at(alloc: Global, source: &str, line: u64, column: u64) -> Result<String, Fail> {
    if source.len() >= 1000 {
        return Err("a long text".into());
    }
    let Ok(lines) = cut_lines(alloc, source.as_bytes(), 3) else {
        return Err("no lines".into());
    };
    if !has_quote(&lines, line, column) {
        return Err("no quote".into());
    }
    Ok(shown(alloc, read_quoted(alloc, &lines, line, column))?)
}

#[test]
fn quotes_by_positions(rt: HostRuntime) -> Result<(), Fail> {
    let alloc = rt.alloc();
    let mut wrong = Differing::new(alloc);
    for (source, line, column, want) in QUOTES {
        let is = quote_at(alloc, source, *line, *column)?;
        wrong.compare(source, is.as_str(), want);
    }
    assert_eq!(rt; wrong.take()?.as_str(), "");
    Ok(())
}

/// A text, the line and the column of `|` or `>`, the parent's indent, and what is read there.
const BLOCKS: &[(&str, u64, u64, i64, &str)] = &[
    ("|\na", 0, 0, -1, "1:1 a\n"),
    ("|\n é\n  😀", 0, 0, -1, "2:6 é\n 😀\n"),
    ("k: |\n  a\n   b\nc", 0, 3, 0, "2:4 a\n b\n"),
    ("- k: |\n    a\n  b", 0, 5, 2, "1:5 a\n"),
    // where it ends
    ("k: |\nb", 0, 3, 0, "0:4 "),
    ("k: |\n\nb", 0, 3, 0, "1:0 "),
    ("k: |\n  a\n b", 0, 3, 0, "1:3 a\n"),
    ("- k: |\n  b", 0, 5, 2, "0:6 "),
    ("|+\na\n\n\n", 0, 0, -1, "3:0 a\n\n\n"),
    ("k: |+\n    \nb", 0, 3, 0, "1:4 \n"),
    ("- k: |2\n     a\n    b\n   c", 0, 5, 2, "2:5  a\nb\n"),
    ("k: |3\n  a", 0, 3, 0, "0:5 "),
    // at a later line
    ("a: 1\nb: |\n  c\nd: 1", 1, 3, 0, "2:3 c\n"),
    (
        "a: 1\nb: |\n   \n  c",
        1,
        3,
        0,
        "error: YamlForm at c.yml:3",
    ),
];

/// What is read at `|` or `>`.
fn block_at(
    alloc: Global,
    source: &str,
    line: u64,
    column: u64,
    parent: i64,
) -> Result<String, Fail> {
    if source.len() >= 1000 {
        return Err("a long text".into());
    }
    let Ok(lines) = cut_lines(alloc, source.as_bytes(), 3) else {
        return Err("no lines".into());
    };
    if !has_block(&lines, line, column) {
        return Err("no block".into());
    }
    Ok(shown(alloc, read_block(alloc, &lines, line, column, parent))?)
}

#[test]
fn blocks_by_positions(rt: HostRuntime) -> Result<(), Fail> {
    let alloc = rt.alloc();
    let mut wrong = Differing::new(alloc);
    for (source, line, column, parent, want) in BLOCKS {
        let is = block_at(alloc, source, *line, *column, *parent)?;
        wrong.compare(source, is.as_str(), want);
    }
    assert_eq!(rt; wrong.take()?.as_str(), "");
    Ok(())
}
