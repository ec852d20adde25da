// Rows: a script, and behind `=>` what its calls answer. A line that begins with `//` says what stands below it.

use crate::script::answers;
use std::alloc::Global;
use std::test::Fail;
use test_shown::Differing;
use ytt_base::text::Memory;

const ROWS: &str = "\
list 1 2; get #0 1; get #0 2 => ok 2 IndexRange
list 1 2; set #0 0 x; show #0; set #0 2 y => ok ok [x,2,] IndexRange
list; push #0 1; push #0 True; show #0 => ok ok ok [1,True,]
list 1; extend #0 2 x; extend #0; show #0; dict; extend #1 => ok ok ok [1,2,x,] ok unfit
list 1; may-change #0; freeze; may-change #0; extend #0; show #0 => ok ok ok Frozen Frozen [1,]
list 1 2; insert #0 1 x; show #0; insert #0 3 y; show #0 => ok ok [1,x,2,] ok [1,x,2,y,]
list 1 2; insert #0 3 x; show #0 => ok IndexRange [1,2,]
list 1 2 3; remove #0 1; show #0; remove #0 2 => ok 2 [1,3,] IndexRange
list 1 2; clear #0; show #0; length #0 => ok ok [] 0
dict; put #0 a 1; clear #0; show #0; length #0 => ok ok ok {} 0
tuple 1 x; get #0 1; get #0 2; length #0 => ok x IndexRange 2
dict; put #0 a 1; look #0 a; look #0 b => ok ok 1 KeyMissing
dict; put #0 a 1; put #0 b 2; put #0 a 3; show #0 => ok ok ok ok {a:3,b:2,}
dict; put #0 a 1; put #0 b 2; put #0 c 3; cut #0 a; put #0 a 4; show #0 => ok ok ok ok 1 ok {b:2,c:3,a:4,}
dict; put #0 a 1; put #0 b 2; put #0 c 3; cut #0 b; show #0 => ok ok ok ok 2 {a:1,c:3,}
dict; cut #0 a => ok KeyMissing
dict; put #0 x 1; pair #0 0; pair #0 1; length #0 => ok ok x:1 IndexRange 1
dict; put #0 True 1; put #0 1 2; put #0 None 3; show #0; look #0 False => ok ok ok ok {True:1,1:2,None:3,} KeyMissing
tuple a 1; tuple a 1; dict; put #2 #0 x; look #2 #1; same #0 #1 => ok ok ok ok x yes
tuple a 1; tuple a 2; dict; put #2 #0 x; look #2 #1 => ok ok ok ok KeyMissing
tuple; tuple; dict; put #2 #0 x; look #2 #1 => ok ok ok ok x
list 1; tuple #0; dict; put #2 #1 x => ok ok ok unfit
list 1; list 1; same #0 #1 => ok ok no
box; length #0; get #0 0; push #0 7; length #0; get #0 0 => ok 0 IndexRange ok 1 7
box; set #0 0 7; push #0 7; set #0 0 8; get #0 0; push #0 9 => ok IndexRange ok ok 8 unfit
list 1; freeze; push #0 2; set #0 0 2; insert #0 0 2; remove #0 0; clear #0; show #0 => ok ok Frozen Frozen Frozen Frozen Frozen [1,]
list 1; freeze; set #0 9 2; insert #0 9 2; remove #0 9 => ok ok Frozen Frozen Frozen
dict; put #0 a 1; freeze; put #0 b 2; cut #0 a; cut #0 b; clear #0; look #0 a => ok ok ok Frozen Frozen Frozen Frozen 1
box; push #0 1; freeze; set #0 0 2; get #0 0 => ok ok ok Frozen 1
list 1; freeze; list 2; push #1 3; push #0 3 => ok ok ok ok Frozen
list; push #0 #0; get #0 0; show #0 => ok ok [list,] [list,]
list 1; owns #0; other #0 => ok yes no
tuple x; owns #0; other #0 => ok yes no
list 1; get #0 -1 => ok IndexRange
// loops are counted
list; walk #0; walk #0; push #0 1; leave #0; push #0 1; leave #0; push #0 1 => ok ok ok Iterating ok Iterating ok ok
// frozen comes before walked
list; walk #0; walk #0; push #0 1; freeze; push #0 1 => ok ok ok Iterating ok Frozen
// a mark leaves what is older
list; mark; list; freeze; push #0 1; push #1 1 => ok ok ok ok ok Frozen
";

/// Compares what each script answers with what is due.
fn compare_all(alloc: Global, wrong: &mut Differing) -> Result<(), Memory> {
    for row in ROWS.lines() {
        if row.starts_with("//") {
            continue;
        }
        match row.split_once(" => ") {
            Some((script, due)) => {
                let is = answers(alloc, script)?;
                wrong.compare(row, is.as_str().trim_end(), due);
            }
            None => wrong.compare(row, "no row", ""),
        }
    }
    Ok(())
}

#[test]
fn each_call_answers_what_is_due(rt: HostRuntime) -> Result<(), Fail> {
    let alloc = rt.alloc();
    let mut wrong = Differing::new(alloc);
    compare_all(alloc, &mut wrong)?;
    assert_eq!(rt; wrong.take()?.as_str(), "");
    Ok(())
}
