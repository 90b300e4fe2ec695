//! Runs backwards.
ghost use Rattle.std.specs.Prelude.{◌≡◌, ℕ, false, true};
ghost use Rattle.gas_geom.specs.Hpp.{hpp};
ghost use Rattle.gas_geom.specs.Lattice.{LatticeModel, IsLattice};
ghost use Rattle.gas_geom.specs.Backwards.{reversed};
ghost use Rattle.gas_rows.specs.declared.chirality.Chirality.{Chirality};
ghost use Rattle.gas_rows.specs.declared.chirality.Chirality.TheVariants.{Left, Right};
ghost use Rattle.gas_stage.specs.Evolution.{lattice_after};

use gas_geom::gas::Gas;
use gas_geom::hpp::Hpp;

/// From the reversed lattice of a run `Left` as many generations `Right` lead to the reversed
/// lattice of its start, and the other way round. In a gas that ignores its random bits, any two
/// chiralities do.
pub fn runs_lead_back<G: Gas>()
    ensures left { (lattice : LatticeModel) (first later n : ℕ) →
        IsLattice G.rules lattice.channel lattice.rows →
        reversed G.rules lattice.channel false (lattice_after G.rules Right later (record lattice {
          rows = reversed G.rules lattice.channel true
              (lattice_after G.rules Left first lattice n).rows;
        }) n).rows ≡ lattice.rows }
    ensures right { (lattice : LatticeModel) (first later n : ℕ) →
        IsLattice G.rules lattice.channel lattice.rows →
        reversed G.rules lattice.channel true (lattice_after G.rules Left later (record lattice {
          rows = reversed G.rules lattice.channel false
              (lattice_after G.rules Right first lattice n).rows;
        }) n).rows ≡ lattice.rows }
    ensures any { G.USES_CHIRALITY ≡ false → (lattice : LatticeModel)
        (there back : Chirality) (first later n : ℕ) →
        IsLattice G.rules lattice.channel lattice.rows →
        reversed G.rules lattice.channel true (lattice_after G.rules back later (record lattice {
          rows = reversed G.rules lattice.channel true
              (lattice_after G.rules there first lattice n).rows;
        }) n).rows ≡ lattice.rows }
{}

/// A run of HPP leads back under any chiralities.
pub fn hpp_runs_lead_back()
    ensures any { (lattice : LatticeModel) (there back : Chirality) (first later n : ℕ) →
        IsLattice hpp lattice.channel lattice.rows →
        reversed hpp lattice.channel true (lattice_after hpp back later (record lattice {
          rows = reversed hpp lattice.channel true (lattice_after hpp there first lattice n).rows;
        }) n).rows ≡ lattice.rows }
{
    runs_lead_back::<Hpp>();
}
