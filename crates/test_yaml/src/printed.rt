// Trees made by hand: their text in a sink and as a value, and its length.

use sqlite_items::Items;
use std::alloc::Global;
use std::test::Fail;
use test_shown::Shown;
use yaml_print::{print_text, print_to, text_length};
use yaml_read::read_plain;
use ytt_base::text::{Memory, Text};
use ytt_base::tree::{Key, Pairs, Tree, Trees};
use ytt_outside::mem_sink::{FailPoint, MemSink};

/// Whether the documents have this text in a sink.
fn is_written(alloc: Global, trees: &Trees, want: &str) -> Result<bool, Fail> {
    let mut out = MemSink::new(alloc, Items::new(alloc), 200_000)?;
    let mut buffer = [7u8; 4096];
    print_to(trees, &mut out, &mut buffer)?;
    Ok(out.bytes() == want.as_bytes())
}

/// Whether the documents have this text in a sink and as a value, and its length.
fn has_text(alloc: Global, trees: &Trees, want: &str) -> Result<bool, Fail> {
    let text = print_text(alloc, trees)?;
    let is_text = text.as_str() == want && text_length(trees) == want.len() as u64;
    Ok(is_text && is_written(alloc, trees, want)?)
}

fn put_text(alloc: Global, trees: &mut Trees, text: &str) -> Result<(), Fail> {
    let text = Text::of(alloc, text)?;
    trees.push(Tree::Str(text))?;
    Ok(())
}

fn put_members(alloc: Global, members: &mut Trees) -> Result<(), Fail> {
    members.push(Tree::Null)?;
    put_text(alloc, members, "a\nb\n")?;
    members.push(Tree::Map(Items::new(alloc)))?;
    Ok(())
}

/// `[null, "a\nb\n", {}]`
fn list(alloc: Global) -> Result<Tree, Fail> {
    let mut members: Trees = Items::new(alloc);
    put_members(alloc, &mut members)?;
    Ok(Tree::List(members))
}

fn put_pairs(alloc: Global, pairs: &mut Pairs) -> Result<(), Fail> {
    let key = Text::of(alloc, "k")?;
    let list = list(alloc)?;
    pairs.push((Key::Str(key), list))?;
    pairs.push((Key::Int(-12), Tree::Int(i128::MAX)))?;
    Ok(())
}

/// `{k: [null, "a\nb\n", {}], -12: 170141183460469231731687303715884105727}`
fn map(alloc: Global) -> Result<Tree, Fail> {
    let mut pairs: Pairs = Items::new(alloc);
    put_pairs(alloc, &mut pairs)?;
    Ok(Tree::Map(pairs))
}

const PRINTED: &str = "\
k:
- null
- |
  a
  b
- {}
-12: 170141183460469231731687303715884105727
---
null
---
[]
";

fn put_documents(alloc: Global, trees: &mut Trees) -> Result<(), Fail> {
    let map = map(alloc)?;
    trees.push(map)?;
    trees.push(Tree::Null)?;
    trees.push(Tree::List(Items::new(alloc)))?;
    Ok(())
}

fn are_printed(alloc: Global) -> Result<bool, Fail> {
    let mut trees: Trees = Items::new(alloc);
    put_documents(alloc, &mut trees)?;
    has_text(alloc, &trees, PRINTED)
}

/// A null document is printed, though no text reads as one.
#[test]
fn documents_are_printed(rt: HostRuntime) -> Result<(), Fail> {
    let alloc = rt.alloc();
    let none: Trees = Items::new(alloc);
    assert!(rt; has_text(alloc, &none, "")?);
    assert!(rt; are_printed(alloc)?);
    let Ok(read) = read_plain(alloc, PRINTED.as_bytes(), 1) else {
        return Err("not read".into());
    };
    assert_eq!(rt; text_length(&read), PRINTED.len() as u64 - 9);
    Ok(())
}

fn put_words(alloc: Global, words: &mut Trees, long: &str) -> Result<(), Fail> {
    for _ in 0..1000 {
        put_text(alloc, words, "word")?;
    }
    put_text(alloc, words, long)
}

/// A list of a thousand words and a long one.
fn words(alloc: Global, long: &str) -> Result<Trees, Fail> {
    let mut words: Trees = Items::new(alloc);
    put_words(alloc, &mut words, long)?;
    let mut trees: Trees = Items::new(alloc);
    trees.push(Tree::List(words))?;
    Ok(trees)
}

/// A text a thousand times.
fn put_thousand(out: &mut Shown, text: &str) {
    for _ in 0..1000 {
        out.put(text);
    }
}

fn long_word(alloc: Global) -> Result<String, Memory> {
    let mut long = Shown::new(alloc);
    put_thousand(&mut long, "abcdefghi");
    long.take()
}

/// The text of a list of a thousand words and a long one.
fn words_text(alloc: Global, long: &str) -> Result<String, Memory> {
    let mut text = Shown::new(alloc);
    put_thousand(&mut text, "- word\n");
    text.put("- ");
    text.put(long);
    text.put("\n");
    text.take()
}

fn words_are_printed(alloc: Global) -> Result<bool, Fail> {
    let long = long_word(alloc)?;
    let trees = words(alloc, long.as_str())?;
    let text = words_text(alloc, long.as_str())?;
    has_text(alloc, &trees, text.as_str())
}

/// 1,000 elements of 7 bytes go past the buffer; one of 9,000 bytes is longer than it.
#[test]
fn texts_past_the_buffer(rt: HostRuntime) -> Result<(), Fail> {
    assert!(rt; words_are_printed(rt.alloc())?);
    Ok(())
}

/// After a failure the same buffer prints the whole text again.
#[test]
fn the_last_bytes_are_written_or_fail(rt: HostRuntime) -> Result<(), Fail> {
    let alloc = rt.alloc();
    let mut trees: Trees = Items::new(alloc);
    trees.push(Tree::Bool(true))?;
    let fails = Items::from_slice(alloc, [FailPoint { call: 1, taken: 2 }].as_slice())?;
    let mut out = MemSink::new(alloc, fails, 100)?;
    let mut buffer = [0u8; 4096];
    assert!(rt; print_to(&trees, &mut out, &mut buffer).is_err());
    assert_eq!(rt; out.bytes(), b"tr".as_slice());
    assert!(rt; print_to(&trees, &mut out, &mut buffer).is_ok());
    assert_eq!(rt; out.bytes(), b"trtrue\n".as_slice());
    Ok(())
}
