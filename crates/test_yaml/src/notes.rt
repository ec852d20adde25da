// Noted documents: the place of each item, and the comments that belong to it.

use crate::noted::shown_documents;
use std::alloc::Global;
use std::test::Fail;
use test_shown::{Differing, shown_stop, unfolded};
use yaml_read::read_noted;

/// Texts, and behind `=>` their noted documents. A line's end in either is written `⏎`, and a line that begins with `//` says what
/// stands below it.
const NOTES: &str = "\
// the line on which each item begins
 =>
⏎⏎a: 1 => 3:{3:'a'=1}
- - a⏎  - b => 1:[1:[1:'a' 2:'b']]
- a: 1⏎  b: 2 => 1:[1:{1:'a'=1 2:'b'=2}]
-⏎  a: 1 => 1:[1:{2:'a'=1}]
a:⏎⏎  b:⏎  - c⏎ => 1:{1:'a'={3:'b'=[4:'c']}}
a: 'b⏎⏎  c'⏎d: 1 => 1:{1:'a'='b⏎c' 4:'d'=1}
a: |⏎  b⏎⏎d: >-⏎  e⏎f: g⏎  h⏎i: 1 => 1:{1:'a'='b⏎' 4:'d'='e' 6:'f'='g h' 8:'i'=1}
---⏎⏎a: 1⏎---⏎- b => 1:{3:'a'=1} | 4:[5:'b']
--- a⏎--- [b,⏎c] => 1:'a' | 2:[~2:'b' ~3:'c']
a⏎---⏎b: 1 => 1:'a' | 2:{3:'b'=1}
// documents that are null
--- => 1:null
---⏎---⏎⏎--- => 1:null | 2:null | 4:null
---⏎a: 1⏎---⏎---⏎b: 2 => 1:{2:'a'=1} | 3:null | 4:{5:'b'=2}
...⏎--- => 2:null
~ => 1:null
// items in brackets
a: [b,⏎{c: d, e}] => 1:{1:'a'=[~1:'b' ~2:{~2:'c'='d' ~2:'e'=null}]}
a:⏎⏎  {b: 1,⏎c: [d]} => 1:{1:'a'={~3:'b'=1 ~4:'c'=[~4:'d']}}
- []⏎- {} => 1:[1:[] 2:{}]
// keys of each kind, which may stand twice
'a': 1⏎b: 2⏎~: 3⏎true: 4⏎5: 6⏎'7': 8 => 1:{1:'a'=1 2:'b'=2 3:null=3 4:true=4 5:5=6 6:'7'=8}
a: 1⏎a: 2 => 1:{1:'a'=1 2:'a'=2}
{a: 1, a: 2} => 1:{~1:'a'=1 ~1:'a'=2}
// a comment on the line of an item goes to the innermost that starts there
a: 1 # c => 1:{1:'a'=1<1+# c>}
a: # c⏎  b: 1 => 1:{1:'a'={2:'b'=1}<1+# c>}
a: #c => 1:{1:'a'=null<1+#c>}
- # c⏎  a: 1 => 1:[1:{2:'a'=1}<1+# c>]
- a: 1 # c⏎  b: 2 => 1:[1:{1:'a'=1<1+# c> 2:'b'=2}]
- a: # c⏎    b => 1:[1:{1:'a'='b'<1+# c>}]
- - a # c => 1:[1:[1:'a'<1+# c>]]
- - # c⏎    a: 1 => 1:[1:[1:{2:'a'=1}<1+# c>]]
a: [b] # c => 1:{1:'a'=[~1:'b']<1+# c>}
a: 'b' # c => 1:{1:'a'='b'<1+# c>}
a: | # c⏎  b => 1:{1:'a'='b⏎'<1+# c>}
a: #@ x => 1:{1:'a'=null<1+#@ x>}
a: [b] #@ x => 1:{1:'a'=[~1:'b']<1+#@ x>}
a: | #@ x⏎  b => 1:{1:'a'='b⏎'<1+#@ x>}
- #@ x => 1:[1:null<1+#@ x>]
// or to the document
x # c => 1:'x'<1+# c>
x #@ 1 => 1:'x'<1+#@ 1>
'x' # c⏎ => 1:'x'<1+# c>
--- # c⏎a: 1 => 1:{2:'a'=1}<1+# c>
--- x # c => 1:'x'<1+# c>
--- [a] # c => 1:[~1:'a']<1+# c>
--- | # c⏎ x => 1:'x⏎'<1+# c>
--- #@ x => 1:null<1+#@ x>
--- # c⏎--- => 1:null<1+# c> | 2:null
// a comment on its own line goes to the next item, the outermost that starts there
# c⏎a: 1 => 2:{(1# c)2:'a'=1}
# c⏎⏎  #d ⏎a: 1 => 4:{(1# c)(3#d )4:'a'=1}
a: 1⏎# c⏎b: 2 => 1:{1:'a'=1 (2# c)3:'b'=2}
a: 1 # c⏎  # d⏎b: 2 => 1:{1:'a'=1<1+# c> (2# d)3:'b'=2}
a:⏎  # c⏎  b: 1⏎# d⏎e: 2 => 1:{1:'a'={(2# c)3:'b'=1} (4# d)5:'e'=2}
a:⏎  b: 1⏎  # c⏎e: 2 => 1:{1:'a'={2:'b'=1} (3# c)4:'e'=2}
a:⏎  b: 1⏎# c⏎  e: 2 => 1:{1:'a'={2:'b'=1 (3# c)4:'e'=2}}
a:⏎# c⏎- b: 1 => 1:{1:'a'=[(2# c)3:{3:'b'=1}]}
# c⏎- - a => 2:[(1# c)2:[2:'a']]
-⏎  # c⏎  - a => 1:[1:[(2# c)3:'a']]
a: |⏎  b⏎  # c⏎# d⏎e: 1 => 1:{1:'a'='b⏎# c⏎' (4# d)5:'e'=1}
#@ if x:⏎a: 1⏎#@ end⏎b: 2 => 2:{(1#@ if x:)2:'a'=1 (3#@ end)4:'b'=2}
// a scalar or an empty collection of a key is no item
a:⏎  # c⏎  b⏎d: 1 => 1:{1:'a'='b' (2# c)4:'d'=1}
a:⏎  # c⏎  []⏎d: 1 => 1:{1:'a'=[] (2# c)4:'d'=1}
a:⏎  # c⏎  [b] => 1:{1:'a'=[(2# c)~3:'b']}
// or to the next document
# c⏎---⏎a: 1 => (1# c)2:{3:'a'=1}
---⏎# c⏎a: 1 => 1:{(2# c)3:'a'=1}
a: 1⏎# c⏎---⏎b: 2 => 1:{1:'a'=1} | (2# c)3:{4:'b'=2}
---⏎# c⏎---⏎# d⏎--- => 1:null | (2# c)3:null | (4# d)5:null
# a⏎x⏎# b⏎--- => 2:'x' | (1# a)(3# b)4:null
a: 1⏎... # c⏎# d⏎---⏎b: 2 => 1:{1:'a'=1} | (2+# c)(3# d)4:{5:'b'=2}
# c⏎... # d⏎--- => (1# c)(2+# d)3:null
// so does one behind content on a line on which no item starts, and one in brackets
a:⏎  b # c⏎d: 1 => 1:{1:'a'='b' (2+# c)3:'d'=1}
a: b⏎  c # d⏎e: 1 => 1:{1:'a'='b c' (2+# d)3:'e'=1}
a: 'b⏎  c' # d⏎# e⏎f: 1 => 1:{1:'a'='b c' (2+# d)(3# e)4:'f'=1}
a: [b⏎] # c⏎d: 1 => 1:{1:'a'=[~1:'b'] (2+# c)3:'d'=1}
a:⏎  | # c⏎  b⏎d: 1 => 1:{1:'a'='b⏎' (2+# c)4:'d'=1}
---⏎x # c⏎--- => 1:'x' | (2+# c)3:null
a: [b, # c⏎  d] => 1:{1:'a'=[~1:'b' (1+# c)~2:'d']}
a: [b,⏎# c⏎d] => 1:{1:'a'=[~1:'b' (2# c)~3:'d']}
a: [b # c⏎]⏎d: 1 => 1:{1:'a'=[~1:'b'] (1+# c)3:'d'=1}
a: { # c⏎  b: 1 } => 1:{1:'a'={(1+# c)~2:'b'=1}}
- [ # c⏎  ]⏎- d => 1:[1:[] (1+# c)3:'d']
a: [ # c⏎] # d⏎# e⏎f: 1 => 1:{1:'a'=[] (1+# c)(2+# d)(3# e)4:'f'=1}
--- [a # c⏎]⏎--- => 1:[~1:'a'] | (1+# c)3:null
// after all
# c =>  after (1# c)
a: 1⏎# c⏎ => 1:{1:'a'=1} after (2# c)
a: 1⏎⏎    #  c   => 1:{1:'a'=1} after (3#  c  )
# a⏎⏎# b⏎x => 4:'x' after (1# a)(3# b)
---⏎x # c => 1:'x' after (2+# c)
a: [b # c⏎] => 1:{1:'a'=[~1:'b']} after (1+# c)
a: 1⏎... # c⏎# d => 1:{1:'a'=1} after (2+# c)(3# d)
a: 1⏎# c⏎...⏎# d => 1:{1:'a'=1} after (2# c)(4# d)
---⏎# c => 1:null after (2# c)
#@ x = 1⏎#@ y =>  after (1#@ x = 1)(2#@ y)
--- |⏎ x⏎# c => 1:'x⏎' after (3# c)
";

/// The noted documents of a text, or why it is refused.
fn answer(alloc: Global, text: &str) -> Result<String, Fail> {
    if text.len() >= 1000 {
        return Err(Fail::from("a text that is too long"));
    }
    match read_noted(alloc, text.as_bytes(), 3) {
        Ok(documents) => Ok(shown_documents(alloc, &documents)?),
        Err(stop) => Ok(shown_stop(alloc, &stop)?),
    }
}

/// Compares the noted documents of a row's text with what is due.
fn compare_row(alloc: Global, wrong: &mut Differing, row: &str) -> Result<(), Fail> {
    let (text, due) = row.split_once(" =>").ok_or("a row without what is due")?;
    let text = unfolded(alloc, text)?;
    let is = answer(alloc, text.as_str())?;
    let due = unfolded(alloc, due.strip_prefix(" ").unwrap_or(""))?;
    wrong.compare(row, is.as_str(), due.as_str());
    Ok(())
}

fn compare_all(alloc: Global, wrong: &mut Differing) -> Result<(), Fail> {
    for row in NOTES.lines() {
        if !row.starts_with("//") {
            compare_row(alloc, wrong, row)?;
        }
    }
    Ok(())
}

#[test]
fn items_have_places_and_comments(rt: HostRuntime) -> Result<(), Fail> {
    let alloc = rt.alloc();
    let mut wrong = Differing::new(alloc);
    compare_all(alloc, &mut wrong)?;
    assert_eq!(rt; wrong.take()?.as_str(), "");
    Ok(())
}
