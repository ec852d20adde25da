// Rows: a type and a tree, and behind `=>` the tree where it is filled, or where its first offence stands.

use crate::notation::type_of;
use crate::shown::said;
use std::alloc::Global;
use std::test::Fail;
use test_shown::Differing;
use yaml_read::read_plain;
use ytt_base::tree::Tree;

/// A line that begins with `//` says what stands below it.
const ROWS: &str = "\
// a value of each type, and each that isn't
[any, null] => null
[any, true] => true
[any, 7] => 7
[any, a] => 'a'
[any, [null, [1]]] => [null [1]]
[any, {1: a}] => {1='a'}
[bool, false] => false
[bool, null] =>  bool null
[bool, 1] =>  bool 1
[bool, 'true'] =>  bool 'true'
[bool, []] =>  bool []
[bool, {}] =>  bool {}
[int, -7] => -7
[int, null] =>  int null
[int, true] =>  int true
[int, '1'] =>  int '1'
[int, [1]] =>  int [1]
[int, {a: 1}] =>  int {'a'=1}
[string, ''] => ''
[string, null] =>  string null
[string, false] =>  string false
[string, 1] =>  string 1
[string, []] =>  string []
[string, {}] =>  string {}
[[int], []] => []
[[int], [1, 2]] => [1 2]
[[int], null] =>  list null
[[int], true] =>  list true
[[int], 1] =>  list 1
[[int], a] =>  list 'a'
[[int], {}] =>  list {}
[{a: int}, {a: 1}] => {'a'=1}
[{a: int}, null] =>  map null
[{a: int}, true] =>  map true
[{a: int}, 1] =>  map 1
[{a: int}, a] =>  map 'a'
[{a: int}, []] =>  map []
// null where it may stand
[[nullable, any], null] => null
[[nullable, bool], null] => null
[[nullable, bool], true] => true
[[nullable, int], null] => null
[[nullable, int], a] =>  int 'a'
[[nullable, string], null] => null
[[nullable, [int]], null] => null
[[nullable, [int]], [null]] => /0 int null
[[nullable, {a: int}], null] => null
[[nullable, {a: int}], {a: null}] => /'a' int null
// a key too many, at each depth
[{}, {a: 1}] => /'a'? map {'a'=1}
[{a: int}, {a: 1, b: 2}] => /'b'? map {'a'=1 'b'=2}
[{a: {b: int}}, {a: {b: 1, c: 2}}] => /'a'/'c'? map {'b'=1 'c'=2}
[{a: {b: {c: int}}}, {a: {b: {d: 2}}}] => /'a'/'b'/'d'? map {'d'=2}
[[{a: int}], [{a: 1}, {b: 1}]] => /1/'b'? map {'b'=1}
[{a: any}, {a: {b: 1}}] => {'a'={'b'=1}}
// keys that are no texts
[{a: int}, {1: 1}] => /1? map {1=1}
[{'1': int}, {1: 1}] => /1? map {1=1}
[{'null': int}, {null: 1}] => /null? map {null=1}
[{'true': int}, {true: 1}] => /true? map {true=1}
// lists in lists
[[[int]], [[], [1]]] => [[] [1]]
[[[int]], [[1], 2]] => /1 list 2
[[[int]], [[1], [2, a]]] => /1/1 int 'a'
// two offences: the first one is told, and a node before its members
[[int], [1, a, b]] => /1 int 'a'
[{a: int, b: int}, {b: x, a: y}] => /'b' int 'x'
[{a: int}, {b: 1, a: x}] => /'b'? map {'b'=1 'a'='x'}
[{a: [int]}, {a: {b: c}, d: 1}] => /'a' list {'b'='c'}
// the list and the key of a name that is nowhere else
[{list: [{name: string}]}, {list: [{name: a}, {name: b, z: 1}]}] => /'list'/1/'z'? map {'name'='b' 'z'=1}
// what is filled in
[{a: int, b: string}, {}] => {'a'=0 'b'=''}
[{a: int, b: string, c: bool}, {b: x}] => {'b'='x' 'a'=0 'c'=false}
[{a: {b: int}}, {}] => {'a'={'b'=0}}
[{a: {b: int, c: int}}, {a: {c: 1}}] => {'a'={'c'=1 'b'=0}}
[{a: [int]}, {}] => {'a'=[]}
[[{a: int, b: int}], [{b: 1}, {}]] => [{'b'=1 'a'=0} {'a'=0 'b'=0}]
[{a: any}, {}] => {'a'=null}
[{a: [nullable, any], b: [nullable, int]}, {}] => {'a'=null 'b'=null}
[{a: [nullable, {b: int}]}, {a: {}}] => {'a'={'b'=0}}
[{a: [default, int, 7]}, {}] => {'a'=7}
[{a: [default, {b: int, c: int}, {c: 7}]}, {}] => {'a'={'c'=7 'b'=0}}
[{a: [default, {b: int, c: int}, {c: 7}]}, {a: {}}] => {'a'={'b'=0 'c'=0}}
[{a: [default, [{b: int}], [{}, {b: 1}]]}, {}] => {'a'=[{'b'=0} {'b'=1}]}
[{a: [default, any, {b: [1]}]}, {}] => {'a'={'b'=[1]}}
";

/// What is said of the second part of a list against the type that its first part writes.
fn said_of(alloc: Global, parts: &[Tree]) -> Result<String, Fail> {
    match parts {
        [schema, tree] => Ok(said(alloc, &type_of(alloc, schema)?, tree)?),
        _ => Err(Fail::from("no type with a tree")),
    }
}

fn answer(alloc: Global, text: &str) -> Result<String, Fail> {
    if text.len() >= 1000 {
        return Err(Fail::from("a text that is too long"));
    }
    let Ok(documents) = read_plain(alloc, text.as_bytes(), 1) else {
        return Err(Fail::from("a text that isn't read"));
    };
    match documents.as_slice() {
        [Tree::List(parts)] => said_of(alloc, parts.as_slice()),
        _ => Err(Fail::from("no list")),
    }
}

/// Compares what is said of a row's tree with what is due.
fn compare_row(alloc: Global, wrong: &mut Differing, row: &str) -> Result<(), Fail> {
    let (text, due) = row.split_once(" => ").ok_or("a row without what is due")?;
    let is = answer(alloc, text)?;
    wrong.compare(row, is.as_str(), due);
    Ok(())
}

fn compare_all(alloc: Global, wrong: &mut Differing) -> Result<(), Fail> {
    for row in ROWS.lines() {
        if !row.starts_with("//") {
            compare_row(alloc, wrong, row)?;
        }
    }
    Ok(())
}

#[test]
fn trees_are_checked_and_filled(rt: HostRuntime) -> Result<(), Fail> {
    let alloc = rt.alloc();
    let mut wrong = Differing::new(alloc);
    compare_all(alloc, &mut wrong)?;
    assert_eq!(rt; wrong.take()?.as_str(), "");
    Ok(())
}
