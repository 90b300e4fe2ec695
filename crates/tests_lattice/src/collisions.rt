//! The collisions of each gas beside its table: of one cell, of a row and of a word of 64 cells.

ghost use Rattle.std.specs.Prelude.{◌<◌, ◌^◌};

use gas_geom::fhp_rest::FhpRest;
use gas_geom::fhp1::Fhp1;
use gas_geom::gas::Gas;
use gas_geom::hpp::Hpp;
use gas_rows::mask::Mask;
use gas_rows::row::{Row, collide_row};
use std::alloc::{AllocError, Global};
use std::process::Abort;
use std::test::Fail;

// A state, and what becomes of it where the random bit is 1 and where it is 0.
type Collision = (u8, u8, u8);

const FHP1: [Collision; 5] = [
    (0x09, 0x12, 0x24),
    (0x12, 0x24, 0x09),
    (0x24, 0x09, 0x12),
    (0x15, 0x2a, 0x2a),
    (0x2a, 0x15, 0x15),
];

const HPP: [Collision; 2] = [(0x05, 0x0a, 0x0a), (0x0a, 0x05, 0x05)];

const FHP_REST: [Collision; 22] = [
    (0x09, 0x12, 0x24),
    (0x12, 0x24, 0x09),
    (0x24, 0x09, 0x12),
    (0x49, 0x52, 0x64),
    (0x52, 0x64, 0x49),
    (0x64, 0x49, 0x52),
    (0x15, 0x2a, 0x2a),
    (0x2a, 0x15, 0x15),
    (0x55, 0x6a, 0x6a),
    (0x6a, 0x55, 0x55),
    (0x41, 0x22, 0x22),
    (0x42, 0x05, 0x05),
    (0x44, 0x0a, 0x0a),
    (0x48, 0x14, 0x14),
    (0x50, 0x28, 0x28),
    (0x60, 0x11, 0x11),
    (0x22, 0x41, 0x41),
    (0x05, 0x42, 0x42),
    (0x0a, 0x44, 0x44),
    (0x14, 0x48, 0x48),
    (0x28, 0x50, 0x50),
    (0x11, 0x60, 0x60),
];

// The states after a collision, by the table. One that it does not list stays.
fn table_entry(table: &[Collision], state: u8) -> (u8, u8) {
    for (before, left, right) in table {
        if *before == state {
            return (*left, *right);
        }
    }
    (state, state)
}

// Each state of a cell becomes what the table says, by either bit.
fn cells_collide<G: Gas>(rt: &impl Abort, table: &[Collision]) {
    for state in 0..=255u8 {
        if u32::from(state) < 2u32.pow(G::DIRS) {
            let found = (G::collide(state, true), G::collide(state, false));
            assert!(rt; found == table_entry(table, state), "{state:02x}");
        }
    }
}

#[test]
fn of_cells(rt: HostRuntime) {
    cells_collide::<Fhp1>(&rt, &FHP1);
    cells_collide::<Hpp>(&rt, &HPP);
    cells_collide::<FhpRest>(&rt, &FHP_REST);
}

// The state of cell x, where cell 0 has the state `first`.
fn state_at<G: Gas>(first: u32, x: u32) -> u8
    ensures { result < 2 ^ G.rules.dirs }
{
    (first.wrapping_add(x) % 2u32.pow(G::DIRS)) as u8
}

// A row of 65 cells with these states after its collisions. The random bits of even cells are
// `even`, those of odd cells are not, and the last cell is solid.
fn collided_row<G: Gas>(alloc: Global, first: u32, even: bool) -> Result<Row<G>, AllocError> {
    let mut row = Row::blank(alloc, 65)?;
    let mut bits = Mask::blank(alloc, 65)?;
    let mut solid = Mask::blank(alloc, 65)?;
    solid.set(64, true);
    for x in 0..65 {
        if x < row.width() && x < bits.width() {
            row.set(x, state_at::<G>(first, x));
            bits.set(x, (x % 2 == 0) == even);
        }
    }
    if row.width() == 65 && bits.width() == 65 {
        collide_row(&mut row, &solid, &bits);
    }
    Ok(row)
}

// Such a row becomes what the table says, each cell by its own bit, and its solid cell is empty.
fn row_collides<G: Gas>(
    rt: &impl Abort,
    alloc: Global,
    table: &[Collision],
    first: u32,
    even: bool,
) -> Result<(), Fail> {
    let row = collided_row::<G>(alloc, first, even)?;
    for x in 0..row.width() {
        let (left, right) = match x {
            64 => (0x00, 0x00),
            _ => table_entry(table, state_at::<G>(first, x)),
        };
        let wanted = if (x % 2 == 0) == even { left } else { right };
        assert!(rt; row.get(x) == wanted, "cell {x} from {first:02x}");
    }
    Ok(())
}

#[test]
fn of_rows(rt: HostRuntime) -> Result<(), Fail> {
    for even in [true, false] {
        row_collides::<Fhp1>(&rt, rt.alloc(), &FHP1, 0, even)?;
        row_collides::<Hpp>(&rt, rt.alloc(), &HPP, 5, even)?;
        row_collides::<FhpRest>(&rt, rt.alloc(), &FHP_REST, 0, even)?;
        row_collides::<FhpRest>(&rt, rt.alloc(), &FHP_REST, 64, even)?;
    }
    Ok(())
}

// Cell 0 has a pair, which turns to the left, cell 1 a pair with a spectator, and cell 2 a triple.
#[test]
fn of_a_word(rt: HostRuntime) {
    let after = Fhp1::collide64([7, 2, 4, 3, 4, 0, 0, 0], 1);
    assert!(rt; after == [2, 7, 0, 6, 1, 4, 0, 0]);
}
