//! The generations of a whole lattice: the laws by which stages and runs lead from one to another.
ghost use Rattle.std.specs.Prelude.{ℕ, ◌≡◌, ◌+◌, length, min};
ghost use Rattle.gas_geom.specs.Gas.{Rules};
ghost use Rattle.gas_geom.specs.Lattice.{LatticeModel};
ghost use Rattle.gas_rows.specs.declared.chirality.Chirality.{Chirality};
ghost use Rattle.gas_stage.specs.Evolution.{lattice_after};
ghost use Rattle.gas_stage.specs.Stages.{passes_from, owed_by};

/// A pass of stages one behind another over all rows of a lattice gives the rows of the lattice as
/// many generations later as stages compute.
pub fn a_pass_of_stages()
    ensures lattice { (gas : Rules) (chirality : Chirality) (first computing count : ℕ) (l : LatticeModel) →
        length l.rows ≡ l.channel.height →
        owed_by gas l.channel chirality (passes_from first computing count) l.rows
        ≡ (lattice_after gas chirality first l (min count computing)).rows }
{}

/// Generations add up: m generations and then n more, counted on from there, lead to the lattice
/// of m + n generations.
pub fn generations_add_up()
    ensures law { (gas : Rules) (chirality : Chirality) (first : ℕ) (lattice : LatticeModel) (m n : ℕ) →
        lattice_after gas chirality (first + m) (lattice_after gas chirality first lattice m) n
        ≡ lattice_after gas chirality first lattice (m + n) }
{}
