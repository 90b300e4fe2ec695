//! The calls that are asked for, and how the last of them ended.

use gas_geom::fhp1::Fhp1;
use gas_geom::gas::Gas;
use gas_geom::size::Size;
use gas_rows::channel::Channel;
use gas_rows::lattice::Lattice;
use std::alloc::{AllocError, Global};

/// Whether a call gave its usual answer; `AllocError` if memory was refused.
pub type Made = Result<bool, AllocError>;

/// How a call ended, if what it was lent is as before.
pub fn lent(made: Made, is_unchanged: bool) -> Made {
    if is_unchanged { made } else { Ok(false) }
}

/// A lattice of seven columns and three rows, empty but for one particle to the east at (0, 1).
pub fn drifting_lattice(alloc: Global) -> Result<Lattice<Fhp1>, AllocError> {
    let size = Size::new(7, 3).ok_or(AllocError)?;
    let mut lattice = Lattice::blank(alloc, Channel::free(alloc, size)?)?;
    lattice.set_cell(0, 1, 0x01);
    Ok(lattice)
}

/// Whether this is that lattice after its particle has come to this column.
pub fn has_drifted_to<G: Gas>(lattice: &Lattice<G>, column: u32) -> bool {
    let size = lattice.channel().size();
    size.width() == 7
        && size.height() == 3
        && lattice.channel().count_solid() == 0
        && lattice.count() == 1
        && column < 7
        && lattice.cell(column, 1) == 0x01
}

/// Makes the call of this name, or each call if it is `every`, and keeps how the last one ended: 0
/// with the usual answer, 3 if memory was refused, 1 else.
#[derive(Drop)]
pub struct Probe<'a> {
    pub rt: &'a HostRuntime,
    pub name: &'a str,
    pub status: u8,
}

impl Probe<'_> {
    fn is_asked_for(&self, name: &str) -> bool {
        self.name == name || self.name == "every"
    }

    fn note(&mut self, name: &str, made: Made) {
        let (status, how) = match made {
            Ok(true) => (0, "Answered"),
            Ok(false) => (1, "Wrong"),
            Err(_) => (3, "Refused"),
        };
        self.status = status;
        if self.name == "every" {
            let _ = println!(self.rt; "{name} {how}");
        }
    }

    /// A call.
    pub fn call<F: FnOnce(Global) -> Made>(&mut self, name: &str, make: F)
        requires { F.IsAlwaysCallable make }
    {
        if self.is_asked_for(name) {
            let made = make(self.rt.alloc());
            self.note(name, made);
        }
    }

    /// A call that is lent the lattice with a particle.
    pub fn lend<F: FnOnce(Global, &Lattice<Fhp1>) -> Made>(&mut self, name: &str, make: F)
        requires { F.IsAlwaysCallable make }
    {
        if self.is_asked_for(name) {
            let made = lend(self.rt.alloc(), make);
            self.note(name, made);
        }
    }
}

fn lend<F: FnOnce(Global, &Lattice<Fhp1>) -> Made>(alloc: Global, make: F) -> Made
    requires { F.IsAlwaysCallable make }
{
    let lattice = drifting_lattice(alloc)?;
    let made = make(alloc, &lattice);
    lent(made, has_drifted_to(&lattice, 0))
}
