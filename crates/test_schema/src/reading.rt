// Rows: a script that builds a schema document, and behind `=>` the type that is read, or its refusal, and the steps that are left of nine.
ghost use Rattle.star_values.specs.Objects.{seen};
ghost use Rattle.star_values.specs.Owns.{OwnsItem};

use crate::arguments::all_values;
use crate::script::built;
use crate::shown::put_schema;
use object_arena::{Arena, BuiltItem, Work};
use schema_read::read_schema;
use std::alloc::Global;
use std::test::Fail;
use test_shown::{Differing, Shown, shown_stop};
use ytt_base::text::Memory;

/// A line that begins with `//` says what stands below it. Each item stands on a line of its own, the document on line 1.
const ROWS: &str = "\
// the type of an example, which is the default
document one; scalar true; end => bool=true 9
document one; scalar 1; end => int=1 9
document one; scalar a; end => string='a' 9
document map; end => {}={} 9
document map; pair a one; scalar 1; end; pair b one; scalar ''; end; end => {a:int=1 b:string=''}={'a'=1 'b'=''} 9
document list; element one; scalar 1; end; end => [int=1]=[] 9
document map; pair a list; element map; pair b one; scalar 1; end; end; end; end => {a:[{b:int=1}={'b'=1}]=[]}={'a'=[]} 9
// null
document one; scalar null; end => error: SchemaForm at a.yml:1 9
document map; pair a one; scalar 1; end; pair b one; scalar null; end; end => error: SchemaForm at a.yml:3 9
document map; pair a list; element one; scalar null; end; end; end => error: SchemaForm at a.yml:3 9
// lists of no or of two items, and keys that are no strings
document list; end => error: SchemaForm at a.yml:1 9
document map; pair a list; element one; scalar 1; end; element one; scalar 1; end; end; end => error: SchemaForm at a.yml:2 9
document map; pair a map; pair 1 one; scalar 1; end; end; end => error: SchemaForm at a.yml:3 9
document map; pair null one; scalar 1; end; end => error: SchemaForm at a.yml:2 9
document map; pair true one; scalar 1; end; end => error: SchemaForm at a.yml:2 9
// examples that an expression gave, at the item's place
document one; value [x]; end => [string='x']=[] 8
document one; value {c:7}; end => {c:int=7}={'c'=7} 8
document map; pair a one; value []; end; end => error: SchemaForm at a.yml:2 9
document map; pair a one; value [1,2]; end; end => error: SchemaForm at a.yml:2 7
document map; pair a one; value [None]; end; end => error: SchemaForm at a.yml:2 8
document map; pair a one; note schema/nullable; value [None]; end; end => error: SchemaForm at a.yml:2 8
// schema/nullable
document one; note schema/nullable; scalar 1; end => int?=null 9
document one; note schema/nullable; scalar null; end => any?=null 9
document map; pair a map; note schema/nullable; pair b one; scalar 1; end; end; end => {a:{b:int=1}?=null}={'a'=null} 9
document list; element one; note schema/nullable; scalar 1; end; end => [int?=null]=[] 9
document one; note schema/nullable None; scalar 1; end => error: SchemaForm at a.yml:1 9
document one; note schema/nullable on=True; scalar 1; end => error: SchemaForm at a.yml:1 9
// schema/type any=True: nothing below is read as a type
document one; note schema/type any=True; scalar null; end => any=null 9
document map; pair a map; note schema/type any=True; pair 1 one; scalar null; end; end; end => {a:any={1=null}}={'a'={1=null}} 9
document list; note schema/type any=True; end => any=[] 9
document list; element one; note schema/type any=True; scalar null; end; end => [any=null]=[] 9
document one; note schema/type any=True; note schema/nullable; scalar 1; end => any?=null 9
document one; note schema/type any=False; scalar 1; end => error: SchemaForm at a.yml:1 9
document one; note schema/type any=7; scalar 1; end => error: SchemaForm at a.yml:1 9
document one; note schema/type True; scalar 1; end => error: SchemaForm at a.yml:1 9
document one; note schema/type all=True; scalar 1; end => error: SchemaForm at a.yml:1 9
document one; note schema/type; scalar 1; end => error: SchemaForm at a.yml:1 9
// schema/default
document map; pair a one; note schema/default 7; scalar 1; end; end => {a:int=7}={'a'=7} 9
document list; note schema/default [x]; element one; scalar ''; end; end => [string='']=['x'] 8
document list; note schema/default []; element one; scalar ''; end; end => [string='']=[] 9
document one; note schema/nullable; note schema/default 7; scalar 1; end => int?=7 9
document one; note schema/nullable; note schema/default None; scalar 1; end => int?=null 9
document one; note schema/type any=True; note schema/default [None]; scalar 1; end => any=[null] 8
document one; note schema/nullable; note schema/default x; scalar null; end => any?='x' 9
// it is filled
document map; note schema/default {c:7}; pair c one; scalar 1; end; pair d one; scalar a; end; end => {c:int=1 d:string='a'}={'c'=7 'd'='a'} 8
// one that isn't of the type, has no tree, nests too deep, or stands on a list's item
document map; pair a one; note schema/default x; scalar 1; end; end => error: SchemaForm at a.yml:2 9
document map; pair a one; note schema/default None; scalar 1; end; end => error: SchemaForm at a.yml:2 9
document map; note schema/default {c:7}; pair a one; scalar 1; end; end => error: SchemaForm at a.yml:1 8
document one; note schema/default range; scalar 1; end => error: SchemaForm at a.yml:1 9
document list; element one; note schema/default 7; scalar 1; end; end => error: SchemaForm at a.yml:2 9
document one; note schema/default; scalar 1; end => error: SchemaForm at a.yml:1 9
document one; note schema/default of=7; scalar 1; end => error: SchemaForm at a.yml:1 9
document map; pair a one; note schema/type any=True; note schema/default 101-deep; scalar 1; end; end => error: Steps at a.yml:2 0
// a default is converted before the members are read, and tested behind them
document map; note schema/default range; pair a one; scalar null; end; end => error: SchemaForm at a.yml:1 9
document map; note schema/default 7; pair a one; scalar null; end; end => error: SchemaForm at a.yml:2 9
// the later note of a name holds
document one; note schema/default 7; note schema/default True; scalar true; end => bool=true 9
document one; note schema/default x; note schema/default 7; scalar 1; end => int=7 9
// notes that say nothing of the type
document one; note schema/title x; note schema/desc x; note schema/examples 7; note schema/deprecated; note data/values-schema; scalar 1; end => int=1 9
";

/// The steps that a row has.
const STEPS: u64 = 9;

/// What is read of a document, and the steps that are left.
fn read(
    alloc: Global,
    arena: &Arena,
    work: &mut Work,
    document: &BuiltItem,
) -> Result<String, Memory>
    requires { OwnsItem (seen arena.now) document.now }
{
    let mut out = Shown::new(alloc);
    match read_schema(arena, work, document) {
        Ok(schema) => put_schema(&mut out, &schema, 9),
        Err(stop) => out.put(shown_stop(alloc, &stop)?.as_str()),
    }
    out.put(" ");
    out.put_number(i128::from(work.steps));
    out.take()
}

/// What is read of the document that a script builds.
fn answer(alloc: Global, script: &str, steps: u64) -> Result<String, Fail> {
    let mut arena = Arena::new(alloc);
    let values = all_values(alloc, &mut arena)?;
    let mut work = Work { steps, depth: 0 };
    let items = built(alloc, &arena, &values, &mut work, script)?;
    match items.as_slice() {
        [document] => Ok(read(alloc, &arena, &mut work, document)?),
        _ => Err(Fail::from("a script of no or of several documents")),
    }
}

/// Compares what is read of a row's document with what is due.
fn compare_row(alloc: Global, wrong: &mut Differing, row: &str) -> Result<(), Fail> {
    let (script, due) = row.split_once(" => ").ok_or("a row without what is due")?;
    let is = answer(alloc, script, STEPS)?;
    wrong.compare(row, is.as_str(), due);
    Ok(())
}

fn compare_all(alloc: Global, wrong: &mut Differing) -> Result<(), Fail> {
    for row in ROWS.lines() {
        if !row.starts_with("//") {
            compare_row(alloc, wrong, row)?;
        }
    }
    Ok(())
}

#[test]
fn documents_give_types(rt: HostRuntime) -> Result<(), Fail> {
    let alloc = rt.alloc();
    let mut wrong = Differing::new(alloc);
    compare_all(alloc, &mut wrong)?;
    assert_eq!(rt; wrong.take()?.as_str(), "");
    Ok(())
}

/// A hundred lists in one another are a default, and one more is not.
#[test]
fn a_default_nests_a_hundred_deep(rt: HostRuntime) -> Result<(), Fail> {
    let alloc = rt.alloc();
    let lower =
        "document map; pair a one; note schema/type any=True; note schema/default 100-deep; scalar 1; end; end";
    let deeper =
        "document map; pair a one; note schema/type any=True; note schema/default 101-deep; scalar 1; end; end";
    assert!(rt; answer(alloc, lower, 100)?.as_str().ends_with(" 0"));
    assert_eq!(rt;
        answer(alloc, lower, 99)?.as_str(),
        "error: Steps at a.yml:2 0"
    );
    assert_eq!(rt;
        answer(alloc, deeper, 200)?.as_str(),
        "error: TooDeep at a.yml:2 100"
    );
    Ok(())
}
