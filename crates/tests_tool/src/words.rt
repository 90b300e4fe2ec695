//! The requests of the command line's words.

use super::helpers::request_of;
use std::alloc::Global;
use std::test::Fail;

// The words behind the program's name, and the request.
const REQUESTS: &str = "\
check | Ok(Check)
run --generations 1 | Ok(Run { stages: 4, capacity: 2, generations: 1, threads: None })
run --generations 1 --stages 0 | Ok(Run { stages: 0, capacity: 2, generations: 1, threads: None })
run --generations 1 --threads 3 | Ok(Run { stages: 3, capacity: 128, generations: 1, threads: Some(3) })
run --generations 40 --threads 4 | Ok(Run { stages: 40, capacity: 128, generations: 40, threads: Some(4) })
run --generations 64 --threads 1 | Ok(Run { stages: 64, capacity: 128, generations: 64, threads: Some(1) })
run --generations 65 --threads 2 | Ok(Run { stages: 33, capacity: 128, generations: 65, threads: Some(2) })
run --generations 130 --threads 64 | Ok(Run { stages: 64, capacity: 128, generations: 130, threads: Some(64) })
run --threads 8 --generations 65 --capacity 2 | Ok(Run { stages: 33, capacity: 2, generations: 65, threads: Some(8) })
run --threads 4 --stages 16 --generations 1 | Ok(Run { stages: 16, capacity: 128, generations: 1, threads: Some(4) })
run --threads 0 --generations 0 | Ok(Run { stages: 1, capacity: 128, generations: 0, threads: Some(0) })
run --threads 4294967295 --generations 1 | Ok(Run { stages: 64, capacity: 128, generations: 1, threads: Some(4294967295) })
coarse --generations 7 --block-width 4096 --block-height 1 | Ok(Coarse { stages: 4, capacity: 2, generations: 7, threads: None, block_width: 4096, block_height: 1 })
coarse --generations 7 --block-width 2 --block-height 3 --threads 1 | Ok(Coarse { stages: 7, capacity: 128, generations: 7, threads: Some(1), block_width: 2, block_height: 3 })
replay --generations 2 0 4294967295 --stages 3 1 | Ok(Replay { stages: 3, capacity: 2, generations: 2, turns: Turns { list: [0, 4294967295, 1] } })";

// The request of these words, as text.
fn told(alloc: Global, words: &str) -> Result<String, Fail> {
    let line = format!(in alloc; "fhpgas {words}")?;
    let request = request_of(alloc, line.as_str())?;
    Ok(format!(in alloc; "{request:?}")?)
}

#[test]
fn requests(rt: HostRuntime) -> Result<(), Fail> {
    for case in REQUESTS.lines() {
        let (words, wanted) = case.split_once(" | ").ok_or("a case")?;
        let request = told(rt.alloc(), words)?;
        assert_eq!(rt; request.as_str(), wanted);
    }
    Ok(())
}

// Not even the program's name.
#[test]
fn no_word(rt: HostRuntime) -> Result<(), Fail> {
    let request = request_of(rt.alloc(), "")?;
    assert!(rt; request.err() == Some(2));
    Ok(())
}
