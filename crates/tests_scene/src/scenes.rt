//! Texts that are scenes, and what they contain.

use super::helpers::{DRIFT, holds};
use std::alloc::Global;
use std::process::Abort;
use std::test::Fail;

// Asserts of each line which scene a text is. The text is `first` and what stands before the bar. A
// semicolon ends a line, in the text and in the scene.
fn each_holds(rt: &impl Abort, alloc: Global, first: &str, cases: &str) -> Result<(), Fail> {
    for case in cases.lines() {
        let (last, wanted) = case.split_once(" | ").ok_or("a case")?;
        let text = format!(in alloc; "{first}{last}")?;
        let text = text.as_str().replace(alloc, "; ", "\n")?;
        let wanted = wanted.replace(alloc, "; ", "\n")?;
        holds(rt, alloc, text.as_str(), wanted.as_str())?;
    }
    Ok(())
}

#[test]
fn maps(rt: HostRuntime) -> Result<(), Fail> {
    let keys = "\
version = 1 | Left 0 fhp1; ........; ......01; ........
 | Left 0 fhp1; ........; ......01; ........
version = 2 | Left 0 fhp1; ........; ......01; ........
version = 2; generation = 10 | Left 10 fhp1; ........; ......01; ........
version = 2; generation = 1000000000000 | Left 1000000000000 fhp1; ........; ......01; ........";
    each_holds(&rt, rt.alloc(), DRIFT, keys)
}

#[test]
fn gases_and_chiralities(rt: HostRuntime) -> Result<(), Fail> {
    let texts = "\
'hpp'; cells = ['00##', '0f..'] | Seeded(0) 0 hpp; ..##; 0f..
'fhp-rest'; chirality = 'right'; cells = ['40'] | Right 0 fhp-rest; 40
'fhp1'; seed = 9223372036854775807; cells = ['01'] | Seeded(9223372036854775807) 0 fhp1; 01
'fhp1'; seed = 5; chirality = 'seeded'; cells = ['01'] | Seeded(5) 0 fhp1; 01
'fhp1'; seed = 5; chirality = 'left'; cells = ['01'] | Left 0 fhp1; 01
'fhp1'; chirality = 'left'; width = 2; height = 1; particles = [[1, 0, 1]] | Left 0 fhp1; ..01
'fhp1'; seed = 3; width = 2; height = 1 | Seeded(3) 0 fhp1; ....";
    each_holds(&rt, rt.alloc(), "gas = ", texts)
}

#[test]
fn areas(rt: HostRuntime) -> Result<(), Fail> {
    let large = "\
rate = 1000 | Seeded(0) 0 fhp1; 3f3f3f3f3f; 3f3f##3f3f; 3f3f3f3f3f; 3f3f3f3f3f
rate = 1000; particles = [[0, 0, 9], [0, 0, 0]] | Seeded(0) 0 fhp1; ..3f3f3f3f; 3f3f##3f3f; 3f3f3f3f3f; 3f3f3f3f3f";
    let first = "gas = 'fhp1'; width = 5; height = 4; solid = [[2, 1, 1, 1]]; ";
    each_holds(&rt, rt.alloc(), first, large)?;
    let overlapping = "\
rate = 1000 | Seeded(0) 0 fhp1; ######3f; 3f####3f
 | Seeded(0) 0 fhp1; ######..; ..####..";
    let first = "gas = 'fhp1'; width = 4; height = 2; solid = [[0, 0, 2, 1], [1, 0, 2, 2]]; ";
    each_holds(&rt, rt.alloc(), first, overlapping)
}
