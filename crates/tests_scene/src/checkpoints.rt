//! Lattices written as scenes, and read again.

use super::helpers::{DRIFT, holds};
use gas_rows::chirality::Chirality;
use gas_rows::chirality::Chirality::{Left, Right, Seeded};
use gas_scene::checkpoint::checkpoint;
use gas_scene::error::SceneError;
use gas_scene::scene::read;
use std::alloc::Global;
use std::test::Fail;

// Maps of the three gases, each with its highest state, a solid cell and an empty one.
const MAPS: [&str; 3] = [
    "gas = \"fhp1\"\ncells = [\"##..3f\", \"0a1000\"]",
    "gas = \"hpp\"\ncells = [\"##..0f\", \"0a0100\"]",
    "gas = \"fhp-rest\"\ncells = [\"##..7f\", \"4a4000\"]",
];

const MOST_SEED: u64 = 9223372036854775807;

// Writes the lattice of a scene as a scene, at a generation and with another chirality.
fn checkpoint_text(
    alloc: Global,
    scene: &str,
    chirality: Chirality,
    generation: u64,
) -> Result<Result<String, SceneError>, Fail> {
    let scene = read(alloc, scene.as_bytes())?;
    Ok(checkpoint(alloc, scene.lattice(), chirality, generation))
}

#[test]
fn read_again(rt: HostRuntime) -> Result<(), Fail> {
    let [fhp1, hpp, fhp_rest] = MAPS;
    for (scene, chirality, generation, wanted) in [
        (
            fhp1,
            Left,
            1000000000000,
            "Left 1000000000000 fhp1\n##..3f\n0a10..",
        ),
        (hpp, Right, 10, "Right 10 hpp\n##..0f\n0a01.."),
        (
            fhp_rest,
            Seeded(MOST_SEED),
            0,
            "Seeded(9223372036854775807) 0 fhp-rest\n##..7f\n4a40..",
        ),
    ] {
        let text = checkpoint_text(rt.alloc(), scene, chirality, generation)??;
        holds(&rt, rt.alloc(), text.as_str(), wanted)?;
    }
    Ok(())
}

// Generations and seeds that a scene may have, and a larger one of each.
#[test]
fn limits(rt: HostRuntime) -> Result<(), Fail> {
    for (chirality, generation, wanted) in [
        (Left, 1000000000000, None),
        (Left, 1000000000001, Some(SceneError::Range)),
        (Right, 18446744073709551615, Some(SceneError::Range)),
        (Seeded(MOST_SEED), 3, None),
        (Seeded(MOST_SEED + 1), 3, Some(SceneError::Range)),
    ] {
        for scene in MAPS {
            let answer = checkpoint_text(rt.alloc(), scene, chirality, generation)?;
            assert!(rt; answer.err() == wanted, "{scene} {generation}");
        }
    }
    Ok(())
}

// A line per key and per row, and a seed only if the chirality has one.
#[test]
fn layout(rt: HostRuntime) -> Result<(), Fail> {
    for (scene, chirality, wanted) in [
        (
            DRIFT,
            Left,
            "cells = [\n    \"........\",\n    \"......01\",\n    \"........\",\n]\n\
             chirality = \"left\"\ngas = \"fhp1\"\ngeneration = 10\nversion = 2\n",
        ),
        (
            "gas = \"hpp\"\ncells = [\"00##\", \"0f..\"]",
            Seeded(12),
            "cells = [\n    \"..##\",\n    \"0f..\",\n]\n\
             chirality = \"seeded\"\ngas = \"hpp\"\ngeneration = 10\nseed = 12\nversion = 2\n",
        ),
    ] {
        let text = checkpoint_text(rt.alloc(), scene, chirality, 10)??;
        assert_eq!(rt; text.as_str(), wanted);
    }
    Ok(())
}

// A lattice of the most columns, and one of the most rows, with a particle in the last cell.
#[test]
fn wide_and_high(rt: HostRuntime) -> Result<(), Fail> {
    let alloc = rt.alloc();
    for (width, height, empty) in [(65536, 1, ".."), (1, 65536, "..\n")] {
        let scene = format!(in alloc;
            "version = 2\ngas = \"fhp1\"\nwidth = {width}\nheight = {height}\n\
             particles = [[{x}, {y}, 1]]",
            x = width - 1,
            y = height - 1
        )?;
        let text = checkpoint_text(alloc, scene.as_str(), Left, 3)??;
        let cells = empty.repeat(alloc, 65535)?;
        let wanted = format!(in alloc; "Left 3 fhp1\n{cells}01")?;
        holds(&rt, alloc, text.as_str(), wanted.as_str())?;
    }
    Ok(())
}
