//! Calls that read, and one that writes a scene.

use crate::probe::{Made, Probe, drifting_lattice, has_drifted_to, lent};
use crate::runs::SCENE;
use gas_rows::chirality::Chirality;
use gas_scene::checkpoint::checkpoint;
use gas_scene::error::SceneError;
use gas_scene::scene::read;
use gas_scene::{AnyLattice, with_lattice};
use gas_tool::{InputFault, Request, UsageFault, parse_words, slurp};
use std::alloc::{AllocError, Global};
use std::io;
use std::io::Read;

// A solid cell at (2, 1), an empty one at (0, 0), and all else full.
const AREA: &[u8] = b"gas = \"fhp1\"\nwidth = 5\nheight = 4\nsolid = [[2, 1, 1, 1]]\nrate = 1000\n\
particles = [[0, 0, 9], [0, 0, 0]]\n";

// Reads a scene with so many particles.
fn read_scene(alloc: Global, text: &[u8], particles: u64) -> Made {
    match read(alloc, text) {
        Ok(scene) => Ok(with_lattice!(scene.lattice(), lattice => lattice.count()) == particles),
        Err(SceneError::Memory) => Err(AllocError),
        Err(_) => Ok(false),
    }
}

fn write_and_read(alloc: Global) -> Made {
    let lattice = AnyLattice::Fhp1(drifting_lattice(alloc)?);
    let made = match checkpoint(alloc, &lattice, Chirality::Left, 7) {
        Ok(text) => read_scene(alloc, text.as_bytes(), 1),
        Err(SceneError::Memory) => Err(AllocError),
        Err(_) => Ok(false),
    };
    lent(
        made,
        with_lattice!(&lattice, same => has_drifted_to(same, 0)),
    )
}

// Gives these bytes, three at a time.
#[derive(Drop)]
struct Bytes<'a> {
    left: &'a [u8],
}

impl Read for Bytes<'_> {
    fn read(&mut self, buf: &mut [u8]) -> io::Result<usize> {
        let count = self.left.len().min(buf.len()).min(3);
        let (now, later) = self.left.split_at(count);
        buf[..count].copy_from_slice(now);
        self.left = later;
        Ok(count)
    }
}

fn read_input(alloc: Global) -> Made {
    match slurp(alloc, &mut Bytes { left: SCENE }) {
        Ok(text) => Ok(text.as_slice() == SCENE),
        Err(InputFault::Memory) => Err(AllocError),
        Err(_) => Ok(false),
    }
}

fn read_words(alloc: Global) -> Made {
    match parse_words(alloc, &["fhpgas", "run", "--generations", "1"]) {
        Ok(Request::Run { generations: 1, .. }) => Ok(true),
        Err(UsageFault::Memory) => Err(AllocError),
        _ => Ok(false),
    }
}

pub fn make(probe: &mut Probe) {
    probe.call("read_map", |alloc| read_scene(alloc, SCENE, 1));
    probe.call("read_area", |alloc| read_scene(alloc, AREA, 108));
    probe.call("checkpoint", write_and_read);
    probe.call("slurp", read_input);
    probe.call("parse_words", read_words);
}
