//! The texts of the help: what each command does, its usage, and notes, and what its options are.

/// The program's version, and the kit that proves it, without the letter of the kit's release.
pub(crate) const VERSION: &str = "2.0.0 (rattle-kit-13 logic dac8208d650f15bf)";

/// The texts of a command's help: its usage, what it does, and notes.
#[derive(Clone, Copy)]
pub(crate) struct Help {
    pub(crate) usage: &'static str,
    pub(crate) about: &'static str,
    pub(crate) notes: &'static str,
}

pub(crate) const PROGRAM: Help = Help {
    usage: "fhpgas COMMAND [OPTIONS] < SCENE",
    about: "\
Compute a lattice gas in a channel: particles move from cell to cell, collide, and bounce back from
walls and obstacles. The scene comes on standard input, the answer goes to standard output.",
    notes: "\
A scene is a TOML text with the gas, the shape of the channel and the particles. The channel is
periodic in x. Its top and bottom are walls; walls and solid cells send a particle back where it
came from (bounce-back, no-slip). On the triangular lattice odd rows lie half a cell to the east.
With `version = 2` a scene may have a `generation`, and sides up to 65536 cells instead of 4096.
`fhpgas COMMAND --help` explains the options of a command.",
};

pub(crate) const CHECK: Help = Help {
    usage: "fhpgas check < SCENE
       (put `<` before the scene's file)",
    about: "Check the scene and print a one-line summary",
    notes: "\
The line has the gas, the width and the height in cells, and the numbers of solid cells and of
particles.

Example: fhpgas check < scene.toml",
};

pub(crate) const RUN: Help = Help {
    usage: "fhpgas run --generations G [--threads T] [--stages N] [--capacity C] < SCENE
       (put `<` before the scene's file)",
    about: "Compute generations of the scene and print the cells",
    notes: "\
A line of N stages computes the generations. Each stage computes one generation, row by row, from
the rows of the stage before it. It has a thread of its own, or T threads share the stages: choose
as many threads as there are free cores. The output does not depend on T, N and C.

The first line has the generation reached and the number of particles. Then come the rows of the
channel from the top, two characters per cell: `..` is empty, `##` is solid, and other cells show
the set of directions of their particles in hexadecimal, bit i for direction i.

Example: fhpgas run --generations 100 --threads 4 < scene.toml",
};

pub(crate) const COARSE: Help = Help {
    usage: "\
fhpgas coarse --generations G --block-width BW --block-height BH [--threads T] [--stages N]
       [--capacity C] < SCENE
       (put `<` before the scene's file)",
    about: "Compute generations of the scene and print a table of its blocks of cells",
    notes: "\
The lattice is divided into blocks of BW columns and BH rows, from the top left. Blocks at the right
and at the bottom may be smaller. After a header comes one line per block, by rows of blocks from
the top, each from the left. Its columns are:
  col        the block's column among the blocks, from 0
  row        the block's row among the blocks, from 0
  fluid      the number of its cells that are not solid
  particles  the number of its particles
  px, py     the momentum of its particles, eastwards and northwards: in units of 1/2 and of
             half the square root of 3 on the triangular lattice (FHP), of 1 on the square one (HPP)

Example: fhpgas coarse --generations 100 --block-width 16 --block-height 16 < scene.toml",
};

pub(crate) const REPLAY: Help = Help {
    usage: "fhpgas replay --generations G [--stages N] [--capacity C] [TURN]... < SCENE
       (put `<` before the scene's file)",
    about: "Step the line on one thread by a schedule, and print the state of its belts",
    notes: "\
The TURNs are a schedule of the line: each is a step of one member. 0 is the feeder, which has the
lattice's rows. k is worker k, which takes rows from the belt before it and puts the rows of the
next generation on the belt after it. A number above N is ignored. A step puts the next row, if the
member has one and the belt has room. Otherwise it takes a row from the belt before, if there is one
(a worker only if it has put all its rows). Otherwise it does nothing.

The first line is `done` if all rows have come back to the feeder, else `not done`. Then comes one
line per belt, from 0, with the numbers of rows put on it and taken from it. If the pass is done,
the cells follow as `run` prints them. G generations need at least G workers.

Example: fhpgas replay --generations 1 --stages 1 0 1 0 1 < scene.toml",
};

pub(crate) const GENERATIONS: &str = "Generations (time steps) to compute: 0 to 1000000";

pub(crate) const STAGES: &str = "Stages of the line, one generation each: 1 to 64 [default: 4]";

pub(crate) const CAPACITY: &str =
    "Rows in a belt, the queue between two workers: 1 to 1024 [default: 2]";

pub(crate) const THREADS: &str = "\
Threads that share the stages: 1 to N [default: N]. With --threads
the default C is 128, and the default N at least T: it spreads G
evenly over as few passes as 64 stages allow";

pub(crate) const BLOCK_WIDTH: &str = "Columns of cells in a block: 1 to 4096";

pub(crate) const BLOCK_HEIGHT: &str = "Rows of cells in a block: 1 to 4096";
