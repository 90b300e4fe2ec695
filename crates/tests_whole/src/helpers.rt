//! What several tests share: random lattices, and whether two are the same.

ghost use Rattle.std.specs.Prelude.{◌≡◌, ◌<◌, ◌^◌};

use gas_geom::gas::Gas;
use gas_geom::size::Size;
use gas_rows::channel::Channel;
use gas_rows::lattice::Lattice;
use rand_core::utils::NextWord;
use rand_pcg::Pcg32;
use std::alloc::{AllocError, Global};
use std::process::Abort;

// A set of the gas's directions.
fn random_state<G: Gas>(random: &mut Pcg32) -> u8
    ensures { result < 2 ^ G.rules.dirs }
{
    (random.next_word() % 2u32.pow(G::DIRS)) as u8
}

// Gives the cells of row `y` random states, and makes about one in eight solid.
fn scatter<G: Gas>(lattice: &mut Lattice<G>, y: u32, random: &mut Pcg32)
    requires { y < lattice.old.channel.height }
    ensures width { lattice.new.channel.width ≡ lattice.old.channel.width }
    ensures height { lattice.new.channel.height ≡ lattice.old.channel.height }
{
    for x in 0..lattice.channel().size().width() {
        if random.next_word() % 8 == 0 {
            lattice.make_solid(x, y);
        } else if !lattice.channel().is_solid(x, y) {
            lattice.set_cell(x, y, random_state::<G>(random));
        }
    }
}

/// A lattice of this size with random states and solid cells.
pub(super) fn random_lattice<G: Gas>(
    alloc: Global,
    size: Size,
    random: &mut Pcg32,
) -> Result<Lattice<G>, AllocError> {
    let mut lattice = Lattice::blank(alloc, Channel::free(alloc, size)?)?;
    for y in 0..size.height() {
        scatter(&mut lattice, y, random);
    }
    Ok(lattice)
}

/// Asserts that two lattices have the same cells.
pub(super) fn assert_same<G: Gas>(rt: &impl Abort, found: &Lattice<G>, wanted: &Lattice<G>) {
    let size = wanted.channel().size();
    assert!(rt; found.channel().size().width() == size.width());
    assert!(rt; found.channel().size().height() == size.height());
    for y in 0..size.height() {
        for x in 0..size.width() {
            let solid = wanted.channel().is_solid(x, y);
            assert!(rt; found.channel().is_solid(x, y) == solid, "cell ({x}, {y})");
            assert_eq!(rt; found.cell(x, y), wanted.cell(x, y), "cell ({x}, {y})");
        }
    }
}
