//! The directions of each gas, sizes and neighbours.

use gas_geom::fhp_rest::FhpRest;
use gas_geom::fhp1::Fhp1;
use gas_geom::gas::Gas;
use gas_geom::hpp::Hpp;
use gas_geom::size::{Size, neighbour};
use std::process::Abort;
use std::test::Fail;

// The step from an even row and from an odd one, the opposite direction, and the momentum.
type Direction = ((i32, i32), (i32, i32), u32, (i32, i32));

// The directions of FHP-I as published, counterclockwise from east.
const FHP1: [Direction; 6] = [
    ((1, 0), (1, 0), 3, (2, 0)),
    ((0, -1), (1, -1), 4, (1, 1)),
    ((-1, -1), (0, -1), 5, (-1, 1)),
    ((-1, 0), (-1, 0), 0, (-2, 0)),
    ((-1, 1), (0, 1), 1, (-1, -1)),
    ((0, 1), (1, 1), 2, (1, -1)),
];

const HPP: [Direction; 4] = [
    ((1, 0), (1, 0), 2, (1, 0)),
    ((0, -1), (0, -1), 3, (0, 1)),
    ((-1, 0), (-1, 0), 0, (-1, 0)),
    ((0, 1), (0, 1), 1, (0, -1)),
];

// The seventh direction of the gas with particles at rest leads nowhere.
const REST: [Direction; 1] = [((0, 0), (0, 0), 6, (0, 0))];

fn direction<G: Gas>(i: u32) -> Option<Direction> {
    if i >= G::DIRS {
        return None;
    }
    Some((
        G::step(i, false),
        G::step(i, true),
        G::opposite(i),
        G::momentum(i),
    ))
}

// The gas has these directions from direction `first` on, and no more.
fn has_directions<G: Gas>(rt: &impl Abort, first: u32, directions: &[Direction]) {
    let mut i = first;
    for wanted in directions {
        assert!(rt; direction::<G>(i) == Some(*wanted), "direction {i}");
        i = i.wrapping_add(1);
    }
}

#[test]
fn directions(rt: HostRuntime) {
    has_directions::<Fhp1>(&rt, 0, &FHP1);
    has_directions::<Hpp>(&rt, 0, &HPP);
    has_directions::<FhpRest>(&rt, 0, &FHP1);
    has_directions::<FhpRest>(&rt, 6, &REST);
    assert!(rt; (Fhp1::DIRS, Hpp::DIRS, FhpRest::DIRS) == (6, 4, 7));
}

#[test]
fn sizes(rt: HostRuntime) {
    for (width, height) in [(1, 1), (4096, 4096), (4097, 1), (65536, 65536)] {
        assert!(rt; Size::new(width, height).is_some(), "{width} x {height}");
    }
    for (width, height) in [(0, 1), (1, 0), (65537, 1), (1, 65537)] {
        assert!(rt; Size::new(width, height).is_none(), "{width} x {height}");
    }
}

// North-east and north-west of cells at the top wall and at both sides.
#[test]
fn neighbours(rt: HostRuntime) -> Result<(), Fail> {
    let size = Size::new(4, 3).ok_or("a size")?;
    assert!(rt; neighbour::<Fhp1>(size, 0, 0, 1) == None);
    assert!(rt; neighbour::<Fhp1>(size, 0, 1, 2) == Some((0, 0)));
    assert!(rt; neighbour::<Fhp1>(size, 0, 2, 2) == Some((3, 1)));
    assert!(rt; neighbour::<Fhp1>(size, 3, 1, 1) == Some((0, 0)));
    Ok(())
}
