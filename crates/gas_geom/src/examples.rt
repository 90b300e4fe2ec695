//! Worked examples of the definitions that laws name and no code computes. Each can be checked by
//! hand: with a table of directions, or on a drawing of a few cells.

ghost use Rattle.std.specs.Prelude.{◌≡◌, ◌<◌, ◌^◌, ℕ, Bool, true, false, [], ◌∷◌, pos, negsuc};
ghost use Rattle.gas_geom.specs.Fhp1.{fhp1, sixth, hexagon_mirror};
ghost use Rattle.gas_geom.specs.FhpRest.{fhp_rest};
ghost use Rattle.gas_geom.specs.Hpp.{hpp, quarter, square_mirror};
ghost use Rattle.gas_geom.specs.Channel.{ChannelModel, free_channel};
ghost use Rattle.gas_geom.specs.Parts.{IsPartFrom, IsFarFromCuts};
ghost use Rattle.gas_geom.specs.Momentum.{momentum_in, sent_back, is_wall, is_obstacle};
ghost use Rattle.gas_geom.specs.Backwards.{IsSymmetric, renamed, reversed};
ghost use Rattle.gas_geom.specs.Lattice.{next};
ghost use Rattle.gas_geom.specs.Staggered.{staggered, horizontal, rising, falling};
ghost use Rattle.gas_geom.specs.HppRows.{eastward, every_cell, even_cells, odd_cells};

/// A particle that moves east moves northeast after a turn by a sixth, and one that moves southeast
/// moves east. The mirror exchanges northeast and southeast, and keeps east. A particle at rest
/// stays. On the square lattice a quarter leads from east to north, from north to west, and the
/// mirror exchanges north and south.
pub fn turned_and_mirrored()
    ensures sixth_of_east { renamed fhp1 sixth 0x01 ≡ 0x02 }
    ensures sixth_of_southeast { renamed fhp1 sixth 0x20 ≡ 0x01 }
    ensures sixth_of_rest { renamed fhp_rest sixth 0x44 ≡ 0x48 }
    ensures northeast_mirrored { renamed fhp1 hexagon_mirror 0x02 ≡ 0x20 }
    ensures northwest_mirrored { renamed fhp1 hexagon_mirror 0x04 ≡ 0x10 }
    ensures east_mirrored { renamed fhp1 hexagon_mirror 0x01 ≡ 0x01 }
    ensures rest_mirrored { renamed fhp_rest hexagon_mirror 0x42 ≡ 0x60 }
    ensures quarter_of_east { renamed hpp quarter 0x01 ≡ 0x02 }
    ensures quarter_of_north { renamed hpp quarter 0x02 ≡ 0x04 }
    ensures north_mirrored { renamed hpp square_mirror 0x02 ≡ 0x08 }
    ensures west_mirrored { renamed hpp square_mirror 0x04 ≡ 0x04 }
{}

/// The momentum of three particles in two rows. A cell in a channel of one row is between walls, so
/// a wall sent back what goes north or south there. Beside a solid cell, the particle that leaves
/// it was sent back by it.
pub fn momenta_and_sent_back()
    ensures fhp1 { momentum_in fhp1 ((0x01 ∷ []) ∷ (0x12 ∷ []) ∷ []) ≡ (pos 2, pos 0) }
    ensures fhp_rest { momentum_in fhp_rest ((0x46 ∷ []) ∷ (0x02 ∷ []) ∷ []) ≡ (pos 1, pos 3) }
    ensures hpp { momentum_in hpp ((0x0c ∷ 0x04 ∷ []) ∷ []) ≡ (negsuc 1, negsuc 0) }
    ensures between_walls { sent_back fhp1 (free_channel 2 1) is_wall ((0x3f ∷ 0x09 ∷ []) ∷ [])
        ≡ (0x36 ∷ 0x00 ∷ []) ∷ [] }
    ensures no_obstacle { sent_back fhp1 (free_channel 2 1) is_obstacle ((0x3f ∷ 0x09 ∷ []) ∷ [])
        ≡ (0x00 ∷ 0x00 ∷ []) ∷ [] }
    ensures beside_an_obstacle { sent_back hpp
        (record { width = 3; height = 1; solid = (false ∷ true ∷ false ∷ []) ∷ [] })
        is_obstacle ((0x0f ∷ 0x00 ∷ 0x0f ∷ []) ∷ []) ≡ (0x04 ∷ 0x00 ∷ 0x01 ∷ []) ∷ [] }
    ensures its_walls { sent_back hpp
        (record { width = 3; height = 1; solid = (false ∷ true ∷ false ∷ []) ∷ [] })
        is_wall ((0x0f ∷ 0x00 ∷ 0x0f ∷ []) ∷ []) ≡ (0x0a ∷ 0x00 ∷ 0x0a ∷ []) ∷ [] }
{}

/// Reversed under the bit that turns pairs to the left: a pair turned by a sixth is the same pair
/// against, three particles reverse twice, and a single one leads back. A solid cell is empty.
pub fn reversed_cells()
    ensures left { reversed fhp1
        (record { width = 4; height = 1; solid = (false ∷ false ∷ false ∷ true ∷ []) ∷ [] })
        true ((0x09 ∷ 0x15 ∷ 0x01 ∷ 0x00 ∷ []) ∷ []) ≡ (0x12 ∷ 0x15 ∷ 0x08 ∷ 0x00 ∷ []) ∷ [] }
    ensures right { reversed fhp1 (free_channel 2 1) false ((0x09 ∷ 0x02 ∷ []) ∷ [])
        ≡ (0x24 ∷ 0x10 ∷ []) ∷ [] }
{}

/// What is no symmetry: of FHP-I a mirror for a turn, a turn for a mirror, a mirror for the opposite
/// directions, and of other rules a collision after which nothing is left, and one momentum for all
/// directions.
pub fn no_symmetries()
    ensures mirror_for_turn { IsSymmetric fhp1 hexagon_mirror hexagon_mirror → ⊥ }
    ensures turn_for_mirror { IsSymmetric fhp1 sixth sixth → ⊥ }
    ensures mirror_for_opposite { IsSymmetric (record fhp1 {
      opposite = hexagon_mirror;
      momentum = λ i. (pos 0, pos 0);
    }) sixth hexagon_mirror → ⊥ }
    ensures nothing_left { IsSymmetric (record fhp1 { collide = λ s chi. 0 }) sixth hexagon_mirror
        → ⊥ }
    ensures one_momentum { IsSymmetric (record fhp1 { momentum = λ i. (pos 1, pos 0) })
        sixth hexagon_mirror → ⊥ }
{}

/// A part of four rows, from row 2 on of eight: the cut above is above its row 0, the cut below
/// below its row 3. Its rows 1 and 2 are one row from both cuts, and its rows 0 and 3 are not.
pub fn far_from_cuts()
    ensures one_row_below_a_cut { IsFarFromCuts 2 1 (free_channel 1 4) (free_channel 1 8) 1 }
    ensures at_the_upper_cut { IsFarFromCuts 2 1 (free_channel 1 4) (free_channel 1 8) 0 → ⊥ }
    ensures one_row_above_a_cut { IsFarFromCuts 2 1 (free_channel 1 4) (free_channel 1 8) 2 }
    ensures at_the_lower_cut { IsFarFromCuts 2 1 (free_channel 1 4) (free_channel 1 8) 3 → ⊥ }
    ensures at_the_bottom { IsFarFromCuts 4 1 (free_channel 1 4) (free_channel 1 8) 3 }
    ensures at_the_top { IsFarFromCuts 0 1 (free_channel 1 4) (free_channel 1 8) 0 }
    ensures past_its_rows { IsFarFromCuts 4 1 (free_channel 1 4) (free_channel 1 8) 4 → ⊥ }
{}

/// The last row of two is a part that reaches the bottom. Two rows from there on are none, nor is a
/// row with another cell.
pub fn parts_of_a_lattice()
    ensures last_row { IsPartFrom 1 (record { channel = free_channel 1 1; rows = (0x02 ∷ []) ∷ [] })
        (record { channel = free_channel 1 2; rows = (0x01 ∷ []) ∷ (0x02 ∷ []) ∷ [] }) }
    ensures past_the_bottom { IsPartFrom 1
        (record { channel = free_channel 1 2; rows = (0x02 ∷ []) ∷ [] ∷ [] })
        (record { channel = free_channel 1 2; rows = (0x01 ∷ []) ∷ (0x02 ∷ []) ∷ [] }) → ⊥ }
    ensures another_row { IsPartFrom 1
        (record { channel = free_channel 1 1; rows = (0x01 ∷ []) ∷ [] })
        (record { channel = free_channel 1 2; rows = (0x01 ∷ []) ∷ (0x02 ∷ []) ∷ [] }) → ⊥ }
{}

/// The collisions of HPP look at no random bit.
pub fn hpp_ignores_its_bits()
    ensures unused { ⟦<crate::hpp::Hpp as crate::gas::Gas>⟧.USES_CHIRALITY ≡ false }
{}

/// Staggered momenta of a few particles. One that moves northeast in row 0, and one southwest in
/// row 1, add up, and have the opposite sign in the next generation. Two that move east side by
/// side have opposite signs on the slanted lines. Cells along such a line have one sign, and
/// nothing that moves along it has a momentum across it.
pub fn staggered_sums()
    ensures rows { staggered fhp1 horizontal (free_channel 1 2) 0
        ((0x02 ∷ []) ∷ (0x10 ∷ []) ∷ []) ≡ pos 2 }
    ensures next_generation { staggered fhp1 horizontal (free_channel 1 2) 1
        ((0x02 ∷ []) ∷ (0x10 ∷ []) ∷ []) ≡ negsuc 1 }
    ensures side_by_side { staggered fhp1 rising (free_channel 2 1) 0 ((0x01 ∷ 0x01 ∷ []) ∷ [])
        ≡ pos 0 }
    ensures face_to_face { staggered fhp1 falling (free_channel 2 1) 0 ((0x01 ∷ 0x08 ∷ []) ∷ [])
        ≡ pos 4 }
    ensures up_to_the_northeast { staggered fhp_rest rising (free_channel 2 2) 0
        ((0x00 ∷ 0x04 ∷ []) ∷ (0x04 ∷ 0x00 ∷ []) ∷ []) ≡ negsuc 3 }
    ensures up_to_the_northwest { staggered fhp_rest falling (free_channel 2 2) 0
        ((0x02 ∷ 0x00 ∷ []) ∷ (0x02 ∷ 0x00 ∷ []) ∷ []) ≡ pos 4 }
    ensures along_rising { staggered fhp1 rising (free_channel 2 1) 0 ((0x12 ∷ 0x12 ∷ []) ∷ [])
        ≡ pos 0 }
    ensures along_falling { staggered fhp1 falling (free_channel 2 1) 0 ((0x24 ∷ 0x04 ∷ []) ∷ [])
        ≡ pos 0 }
{}

/// Eastward momenta in a row of HPP. Particles to the east in columns 0 and 1 and one to the west in
/// column 2 are two on the even checkerboard and one on the odd one, in the next generation too. In
/// a row of one cell a particle changes its checkerboard, and a solid cell turns it round.
pub fn momenta_of_rows()
    ensures even { eastward even_cells (free_channel 4 1) 0 0
        ((0x01 ∷ 0x01 ∷ 0x04 ∷ 0x00 ∷ []) ∷ []) ≡ pos 0 }
    ensures odd { eastward odd_cells (free_channel 4 1) 0 0
        ((0x01 ∷ 0x01 ∷ 0x04 ∷ 0x00 ∷ []) ∷ []) ≡ pos 1 }
    ensures next_generation { eastward odd_cells (free_channel 4 1) 0 1
        ((0x00 ∷ 0x05 ∷ 0x01 ∷ 0x00 ∷ []) ∷ []) ≡ pos 1 }
    ensures all { eastward every_cell (free_channel 4 1) 0 0
        ((0x01 ∷ 0x01 ∷ 0x04 ∷ 0x00 ∷ []) ∷ []) ≡ pos 1 }
    ensures another_row { eastward every_cell (free_channel 1 2) 1 0
        ((0x01 ∷ []) ∷ (0x04 ∷ []) ∷ []) ≡ negsuc 0 }
    ensures one_cell { eastward even_cells (free_channel 1 1) 0 0 ((0x01 ∷ []) ∷ []) ≡ pos 1 }
    ensures one_cell_later { eastward even_cells (free_channel 1 1) 0 1
        (next hpp (free_channel 1 1) (λ x y. false) ((0x01 ∷ []) ∷ [])) ≡ pos 0 }
    ensures solid_cell { let channel : ChannelModel = record {
      width = 2;
      height = 1;
      solid = (false ∷ true ∷ []) ∷ [];
    } in
        eastward every_cell channel 0 1 (next hpp channel (λ x y. false) ((0x01 ∷ 0x00 ∷ []) ∷ []))
        ≡ negsuc 0 }
{}
