//! The gases, a lattice of any of them, and the choice by gas.

ghost use Rattle.std.specs.Prelude.{◌≡◌, ◌^◌};
ghost use Rattle.gas_scene.specs.Catalog.{gas_named, rules_of, gas_lattice};

use gas_geom::fhp_rest::FhpRest;
use gas_geom::fhp1::Fhp1;
use gas_geom::gas::Gas;
use gas_geom::hpp::Hpp;
use gas_rows::lattice::Lattice;

/// One of the gases.
#[derive(Clone, Copy, Debug, PartialEq, Eq)]
pub enum KnownGas {
    Fhp1,
    Hpp,
    FhpRest,
}

/// A lattice of one of the gases.
#[derive(Drop)]
pub enum AnyLattice {
    Fhp1(Lattice<Fhp1>),
    Hpp(Lattice<Hpp>),
    FhpRest(Lattice<FhpRest>),
}

// Makes a lattice of a gas from one expression, which is a `Lattice<G>` for each gas.
macro_rules! any_lattice {
    ($gas:expr, $lattice:expr) => {
        match $gas {
            $crate::catalog::KnownGas::Fhp1 => $crate::catalog::AnyLattice::Fhp1($lattice),
            $crate::catalog::KnownGas::Hpp => $crate::catalog::AnyLattice::Hpp($lattice),
            $crate::catalog::KnownGas::FhpRest => $crate::catalog::AnyLattice::FhpRest($lattice),
        }
    };
}

pub(crate) use any_lattice;

/// Evaluates an expression at a lattice of any gas.
#[macro_export]
macro_rules! with_lattice {
    ($any:expr, $lattice:ident => $work:expr) => {
        match $any {
            $crate::catalog::AnyLattice::Fhp1($lattice) => $work,
            $crate::catalog::AnyLattice::Hpp($lattice) => $work,
            $crate::catalog::AnyLattice::FhpRest($lattice) => $work,
        }
    };
}

// The number of states of a cell.
pub(crate) fn states<G: Gas>() -> u16
    ensures { result ≡ 2 ^ G.rules.dirs }
{
    1 << G::DIRS
}

impl KnownGas {
    /// The gas of this name.
    pub fn named(name: &str) -> Option<KnownGas>
        ensures known { result ≡ gas_named name.now }
    {
        if name == KnownGas::Fhp1.name() {
            Some(KnownGas::Fhp1)
        } else if name == KnownGas::Hpp.name() {
            Some(KnownGas::Hpp)
        } else if name == KnownGas::FhpRest.name() {
            Some(KnownGas::FhpRest)
        } else {
            None
        }
    }

    /// The name of the gas.
    pub fn name(self) -> &'static str
        ensures name { result.now ≡ (rules_of self).name }
    {
        match self {
            KnownGas::Fhp1 => "fhp1",
            KnownGas::Hpp => "hpp",
            KnownGas::FhpRest => "fhp-rest",
        }
    }

    /// The number of states of a cell: 2 to the power of the number of directions.
    pub fn states(self) -> u16
        ensures number { result ≡ 2 ^ (rules_of self).dirs }
    {
        match self {
            KnownGas::Fhp1 => states::<Fhp1>(),
            KnownGas::Hpp => states::<Hpp>(),
            KnownGas::FhpRest => states::<FhpRest>(),
        }
    }
}

impl AnyLattice {
    /// The gas of the lattice.
    pub fn gas(&self) -> KnownGas
        ensures gas { result ≡ (gas_lattice self.now).gas }
    {
        match self {
            AnyLattice::Fhp1(_) => KnownGas::Fhp1,
            AnyLattice::Hpp(_) => KnownGas::Hpp,
            AnyLattice::FhpRest(_) => KnownGas::FhpRest,
        }
    }
}
