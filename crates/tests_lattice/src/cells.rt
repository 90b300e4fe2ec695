//! How a cell is printed.

use gas_cells::cells::cell_pair;

#[test]
fn one_cell(rt: HostRuntime) {
    for (solid, state, wanted) in [
        (false, 0, ".."),
        (true, 0, "##"),
        (false, 1, "01"),
        (false, 0x3f, "3f"),
        (false, 0xa0, "a0"),
    ] {
        let pair = cell_pair(solid, state);
        assert!(rt; pair.as_slice() == wanted.as_bytes(), "{wanted}");
    }
}
