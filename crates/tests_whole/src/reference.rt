//! The next lattice, computed cell by cell: plain and slow, to compare with. Its contracts make it
//! safe and say nothing of what it computes, so that it is independent of what it is compared with.

ghost use Rattle.std.specs.Prelude.{◌+◌, ◌≡◌, ◌<◌, ◌≤◌, ◌^◌};
ghost use Rattle.gas_geom.specs.declared.size.TheConstants.{MOST_SIDE};

use gas_geom::gas::Gas;
use gas_geom::size::neighbour;
use gas_rows::chirality::Chirality;
use gas_rows::key::key_words;
use gas_rows::lattice::Lattice;
use std::alloc::{AllocError, Global};

// The random bit of the cell (x, y) of a channel of that width.
fn random_bit(chirality: Chirality, generation: u64, width: u32, x: u32, y: u32) -> bool
    requires { width ≤ MOST_SIDE }
{
    match chirality {
        Chirality::Seeded(seed) => {
            let words_of_row = u64::from(width.div_ceil(32));
            let mut word = [0u32];
            key_words(
                seed,
                generation,
                u64::from(y) * words_of_row + u64::from(x / 32),
                &mut word,
            );
            (word[0] >> (x % 32)) & 1 == 1
        }
        Chirality::Left => true,
        Chirality::Right => false,
    }
}

// The state of a cell after its collision.
fn collided_state<G: Gas>(
    lattice: &Lattice<G>,
    chirality: Chirality,
    generation: u64,
    x: u32,
    y: u32,
) -> u8
    requires column { x < lattice.now.channel.width }
    requires row { y < lattice.now.channel.height }
{
    if lattice.channel().is_solid(x, y) {
        return 0;
    }
    let width = lattice.channel().size().width();
    G::collide(
        lattice.cell(x, y),
        random_bit(chirality, generation, width, x, y),
    )
}

// Whether a set holds a direction.
fn holds(state: u8, i: u32) -> bool
    requires { i < 8 }
{
    (state >> i) & 1 == 1
}

// Whether a particle comes to a fluid cell in direction `i`.
fn arrives<G: Gas>(
    lattice: &Lattice<G>,
    chirality: Chirality,
    generation: u64,
    x: u32,
    y: u32,
    i: u32,
) -> bool
    requires column { x < lattice.now.channel.width }
    requires row { y < lattice.now.channel.height }
    requires direction { i < G.rules.dirs }
{
    let back = G::opposite(i);
    match neighbour::<G>(lattice.channel().size(), x, y, back) {
        Some((u, v)) if !lattice.channel().is_solid(u, v) => {
            holds(collided_state(lattice, chirality, generation, u, v), i)
        }
        _ => holds(collided_state(lattice, chirality, generation, x, y), back),
    }
}

// The state of a cell after the step.
fn streamed_state<G: Gas>(
    lattice: &Lattice<G>,
    chirality: Chirality,
    generation: u64,
    x: u32,
    y: u32,
) -> u8
    requires column { x < lattice.now.channel.width }
    requires row { y < lattice.now.channel.height }
    ensures { result < 2 ^ G.rules.dirs }
{
    if lattice.channel().is_solid(x, y) {
        return 0;
    }
    let mut state = 0u8;
    for i in 0..G::DIRS {
        state |= u8::from(arrives(lattice, chirality, generation, x, y, i)) << i;
    }
    state
}

// Sets the cells of row `y` of the next lattice.
fn set_row<G: Gas>(
    next: &mut Lattice<G>,
    lattice: &Lattice<G>,
    chirality: Chirality,
    generation: u64,
    y: u32,
)
    requires row { y < lattice.now.channel.height }
    requires channel { next.old.channel ≡ lattice.now.channel }
    ensures { next.new.channel ≡ next.old.channel }
{
    for x in 0..lattice.channel().size().width() {
        if !next.channel().is_solid(x, y) {
            next.set_cell(x, y, streamed_state(lattice, chirality, generation, x, y));
        }
    }
}

/// The lattice after the step from generation `generation`.
pub(super) fn next_lattice<G: Gas>(
    alloc: Global,
    lattice: &Lattice<G>,
    chirality: Chirality,
    generation: u64,
) -> Result<Lattice<G>, AllocError> {
    let mut next = lattice.copy(alloc)?;
    for y in 0..lattice.channel().size().height() {
        set_row(&mut next, lattice, chirality, generation, y);
    }
    Ok(next)
}

/// The lattice `generations` generations after generation `first`.
pub(super) fn lattice_after<G: Gas>(
    alloc: Global,
    lattice: &Lattice<G>,
    chirality: Chirality,
    first: u64,
    generations: u64,
) -> Result<Lattice<G>, AllocError>
    requires room { first + generations < 2 ^ 64 }
{
    let mut current = lattice.copy(alloc)?;
    for passed in 0..generations {
        current = next_lattice(alloc, &current, chirality, first + passed)?;
    }
    Ok(current)
}
