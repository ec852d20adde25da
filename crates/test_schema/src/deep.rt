// Types that nest, and the names of a map's type.

use crate::notation::list_of;
use crate::shown::said;
use schema_check::{Schema, TypeKind, TypePairs};
use sqlite_items::Items;
use std::alloc::Global;
use std::test::Fail;
use test_shown::Shown;
use ytt_base::text::{Memory, Text};
use ytt_base::tree::{Tree, Trees};

fn integer() -> Schema {
    Schema {
        kind: TypeKind::Int,
        nullable: false,
        default: Tree::Int(0),
    }
}

/// Lists in one another, so many, with an integer inside.
fn nested_type(alloc: Global, count: u32) -> Result<Schema, Memory> {
    let mut schema = integer();
    for _ in 0..count {
        schema = list_of(alloc, schema)?;
    }
    Ok(schema)
}

/// A tree in so many lists.
fn nested(alloc: Global, tree: Tree, count: u32) -> Result<Tree, Memory> {
    let mut tree = tree;
    for _ in 0..count {
        let mut trees: Trees = Items::new(alloc);
        trees.push(tree)?;
        tree = Tree::List(trees);
    }
    Ok(tree)
}

/// A text so many times.
fn repeated(out: &mut Shown, text: &str, count: u32) {
    for _ in 0..count {
        out.put(text);
    }
}

/// What is due where null stands in a hundred lists.
fn null_inside(alloc: Global) -> Result<String, Memory> {
    let mut out = Shown::new(alloc);
    repeated(&mut out, "/0", 100);
    out.put(" int null");
    out.take()
}

/// What is due where 7 stands in a hundred lists.
fn seven_inside(alloc: Global) -> Result<String, Memory> {
    let mut out = Shown::new(alloc);
    repeated(&mut out, "[", 100);
    out.put("7");
    repeated(&mut out, "]", 100);
    out.take()
}

#[test]
fn a_hundred_lists(rt: HostRuntime) -> Result<(), Fail> {
    let alloc = rt.alloc();
    let schema = nested_type(alloc, 100)?;
    let seven = nested(alloc, Tree::Int(7), 100)?;
    let null = nested(alloc, Tree::Null, 100)?;
    assert_eq!(rt;
        said(alloc, &schema, &seven)?.as_str(),
        seven_inside(alloc)?.as_str()
    );
    assert_eq!(rt;
        said(alloc, &schema, &null)?.as_str(),
        null_inside(alloc)?.as_str()
    );
    Ok(())
}

/// The place of a name, and the name at a place.
#[test]
fn names_have_places(rt: HostRuntime) -> Result<(), Fail> {
    let alloc = rt.alloc();
    let mut types = TypePairs::new(alloc);
    types.push(alloc, Text::of(alloc, "a")?, integer())?;
    types.push(alloc, Text::of(alloc, "b")?, integer())?;
    assert_eq!(rt; types.len(), 2);
    assert!(rt; matches!(types.get(1), Some((name, _)) if name.as_str() == "b"));
    assert!(rt; types.get(2).is_none());
    Ok(())
}
