//! Laws of lattices and their runs, besides the number law.
ghost use Rattle.std.specs.Prelude.{◌≡◌, ◌+◌, ◌%◌, ◌^◌, ◌<◌, ℕ, Bool, not, List, ◌+ℤ◌};
ghost use Rattle.gas_geom.specs.Gas.{particles, momentum_of};
ghost use Rattle.gas_geom.specs.Fhp1.{fhp1, sixth, hexagon_mirror};
ghost use Rattle.gas_geom.specs.FhpRest.{fhp_rest};
ghost use Rattle.gas_geom.specs.Hpp.{hpp, quarter, square_mirror};
ghost use Rattle.gas_geom.specs.Channel.{ChannelModel};
ghost use Rattle.gas_geom.specs.Lattice.{LatticeModel, IsLattice, cell, next, generation};
ghost use Rattle.gas_geom.specs.Parts.{IsPartFrom, IsFarFromCuts};
ghost use Rattle.gas_geom.specs.Momentum.{momentum_in, sent_back, is_wall, is_obstacle};
ghost use Rattle.gas_geom.specs.Backwards.{IsSymmetric, reversed};
ghost use Rattle.gas_geom.specs.Staggered.{IsKept, horizontal, rising, falling};
ghost use Rattle.gas_geom.specs.HppRows.{IsKeptInRows, every_cell, even_cells, odd_cells};

use crate::gas::Gas;

/// A collision is one-to-one for each value of the random bit, and keeps the number of particles and
/// their momentum.
pub fn a_collision_keeps<G: Gas>()
    ensures one_to_one { (s t : ℕ) (chi : Bool) → s < 2 ^ G.rules.dirs → t < 2 ^ G.rules.dirs →
        G.rules.collide s chi ≡ G.rules.collide t chi → s ≡ t }
    ensures number { (s : ℕ) (chi : Bool) → s < 2 ^ G.rules.dirs →
        particles G.rules (G.rules.collide s chi) ≡ particles G.rules s }
    ensures momentum { (s : ℕ) (chi : Bool) → s < 2 ^ G.rules.dirs →
        momentum_of G.rules (G.rules.collide s chi) ≡ momentum_of G.rules s }
{}

/// What a collision has in common with its mirror images, for each gas: the least turn of the
/// lattice is a sixth in FHP-I and fhp-rest, and a quarter in HPP.
pub fn collisions_are_symmetric()
    ensures fhp1 { IsSymmetric fhp1 sixth hexagon_mirror }
    ensures fhp_rest { IsSymmetric fhp_rest sixth hexagon_mirror }
    ensures hpp { IsSymmetric hpp quarter square_mirror }
{}

/// A part of a lattice from an even row on, with the whole's random bits: after n generations each
/// of its cells with at least n rows between it and each cut is the whole's.
pub fn a_part_is_the_whole<G: Gas>()
    ensures cells { (first : ℕ) (part whole : LatticeModel) (chi : ℕ → ℕ → ℕ → Bool)
        (start n x y : ℕ) → first % 2 ≡ 0 → IsPartFrom first part whole →
        IsFarFromCuts first n part.channel whole.channel y →
        cell (generation G.rules part.channel (λ g u v. chi g u (first + v)) start part.rows n) x y
        ≡ cell (generation G.rules whole.channel chi start whole.rows n) x (first + y) }
{}

/// A run whose random bits are all alike leads back: reversed, run under the other bit for as many
/// generations and reversed again, a lattice is what it was.
pub fn a_run_leads_back<G: Gas>()
    ensures lattice { (channel : ChannelModel) (chi : Bool) (start later n : ℕ)
        (rows : List (List ℕ)) → IsLattice G.rules channel rows →
        reversed G.rules channel (not chi) (generation G.rules channel (λ _ _ _. not chi) later
        (reversed G.rules channel chi
        (generation G.rules channel (λ _ _ _. chi) start rows n)) n)
        ≡ rows }
{}

/// A generation is one-to-one for any random bits: two lattices with the same next lattice are equal.
pub fn a_generation_is_one_to_one<G: Gas>()
    ensures lattice { (channel : ChannelModel) (chi : ℕ → ℕ → Bool) (rows other : List (List ℕ)) →
        IsLattice G.rules channel rows → IsLattice G.rules channel other →
        next G.rules channel chi rows ≡ next G.rules channel chi other → rows ≡ other }
{}

/// The momentum of the next lattice is the lattice's, and twice that of the particles that the wall
/// and solid cells sent back: each came with the opposite of the momentum with which it leaves.
pub fn momentum_law<G: Gas>()
    ensures eastwards { (channel : ChannelModel) (chi : ℕ → ℕ → Bool) (rows : List (List ℕ)) →
        IsLattice G.rules channel rows → let later = next G.rules channel chi rows in
        let walls = (momentum_in G.rules (sent_back G.rules channel is_wall later)).0 in
        let obstacles = (momentum_in G.rules (sent_back G.rules channel is_obstacle later)).0 in
        (momentum_in G.rules later).0 ≡ (momentum_in G.rules rows).0
        +ℤ (walls +ℤ walls) +ℤ (obstacles +ℤ obstacles) }
    ensures northwards { (channel : ChannelModel) (chi : ℕ → ℕ → Bool) (rows : List (List ℕ)) →
        IsLattice G.rules channel rows → let later = next G.rules channel chi rows in
        let walls = (momentum_in G.rules (sent_back G.rules channel is_wall later)).1 in
        let obstacles = (momentum_in G.rules (sent_back G.rules channel is_obstacle later)).1 in
        (momentum_in G.rules later).1 ≡ (momentum_in G.rules rows).1
        +ℤ (walls +ℤ walls) +ℤ (obstacles +ℤ obstacles) }
{}

/// The staggered momenta of FHP-I and fhp-rest never change, with walls and obstacles: that of the
/// rows in any channel, and those of the slanted lines in channels of an even width.
pub fn staggered_momenta_are_kept()
    ensures fhp1_rows { (channel : ChannelModel) → IsKept fhp1 horizontal channel }
    ensures fhp1_rising { (channel : ChannelModel) → channel.width % 2 ≡ 0 →
        IsKept fhp1 rising channel }
    ensures fhp1_falling { (channel : ChannelModel) → channel.width % 2 ≡ 0 →
        IsKept fhp1 falling channel }
    ensures fhp_rest_rows { (channel : ChannelModel) → IsKept fhp_rest horizontal channel }
    ensures fhp_rest_rising { (channel : ChannelModel) → channel.width % 2 ≡ 0 →
        IsKept fhp_rest rising channel }
    ensures fhp_rest_falling { (channel : ChannelModel) → channel.width % 2 ≡ 0 →
        IsKept fhp_rest falling channel }
{}

/// Each row of HPP with no solid cell keeps its eastward momentum, whatever the rows beside it have:
/// in channels of any width that of the whole row, in those of an even width that of each of its
/// two checkerboards.
pub fn rows_of_hpp_keep_their_momentum()
    ensures whole { (channel : ChannelModel) → IsKeptInRows every_cell channel }
    ensures even { (channel : ChannelModel) → channel.width % 2 ≡ 0 →
        IsKeptInRows even_cells channel }
    ensures odd { (channel : ChannelModel) → channel.width % 2 ≡ 0 →
        IsKeptInRows odd_cells channel }
{}
