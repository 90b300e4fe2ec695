//! Belts.

ghost use Rattle.std.specs.Prelude.{◌≡◌, IfOk};

use gas_belt::belt;
use gas_belt::rx::Rx;
use gas_belt::tx::Tx;
use gas_geom::fhp1::Fhp1;
use gas_rows::row::Row;
use std::alloc::{AllocError, Global};

mod steps;
mod threads;

// The promises of a belt are long. The helpers promise no more than what the tests ask for, so that none
// carries the others.

// The two ends of an unused belt.
fn ends(alloc: Global, places: u32, width: u32) -> Result<(Tx<Fhp1>, Rx<Fhp1>), AllocError>
    ensures { IfOk result (λ r. r.0.belt ≡ r.1.belt) }
{
    belt(alloc, places.clamp(1, 1024), width.clamp(2, 65536))
}

// A row of at least two cells whose first and last cell hold a number below 4096.
fn numbered_row(alloc: Global, width: u32, number: u32) -> Result<Row<Fhp1>, AllocError> {
    let width = width.clamp(2, 65536);
    let mut row = Row::blank(alloc, width)?;
    row.set(0, (number % 64) as u8);
    row.set(width - 1, (number / 64 % 64) as u8);
    Ok(row)
}

fn number(row: &Row<Fhp1>) -> u32 {
    let last = row.width() - 1;
    u32::from(row.get(0)) + 64 * u32::from(row.get(last))
}

// Puts a new row of this width, with this number. Returns it if it is handed back.
fn put(
    alloc: Global,
    tx: &mut Tx<Fhp1>,
    width: u32,
    n: u32,
) -> Result<Option<Row<Fhp1>>, AllocError> {
    Ok(tx.try_put(numbered_row(alloc, width, n)?).err())
}

// Takes the next row and gives it back as a spare row. Returns whether it has this number.
fn is_next(rx: &mut Rx<Fhp1>, n: u32) -> bool {
    let Some(row) = rx.try_take() else {
        return false;
    };
    let is_next = number(&row) == n;
    rx.give(row);
    is_next
}
