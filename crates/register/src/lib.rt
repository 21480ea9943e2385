// The register of lines: a line found by its key, trades netted, lines listed by rising key, finished lines dropped.
#![tactic(auto)]

ghost use Rattle.std.specs.Prelude.{◌≡◌, [], take};
ghost use Rattle.register.specs.Asking.{free_in};
ghost use Rattle.register.specs.Dropping.{register_of};
ghost use Rattle.register.specs.Fits.{Tabled};

mod asking;
mod dropping;
pub mod line;
mod netting;
#[cfg(test)]
mod tests;
pub mod trade;

use line::Line;
use std::marker::Model;

pub const PLACES: usize = 512;

// The lines of the house, in the order in which they were opened: the first `count` places; those behind are empty. They lie in
// the register itself, beside their count and in no vector, so that a register can be copied.
#[derive(Clone, Copy)]
pub struct Register {
    count: usize,
    lines: [Line; PLACES],
}

impl Model for Register {
    ghost use Rattle.register.specs.Places.{Places};

    ghost Value = { Places };

    ghost use Rattle.register.specs.Fits.{Shaped};

    ghost view = { λ r. record { count = r.count; lines = r.lines } };

    ghost inverse = { λ g. record { count = g.count; lines = g.lines } };

    ghost invariant = { λ r. Shaped (record { count = r.count; lines = r.lines }) };
}

impl Register {
    // A register without lines.
    pub fn empty() -> Register
        ensures { result ≡ register_of [] }
    {
        Register {
            count: 0,
            lines: [Line::default(); PLACES],
        }
    }

    // The lines. Who reads them is told that the register has all its places.
    fn lines(&self) -> &[Line]
        ensures lines { result.now ≡ take self.now.count self.now.lines }
        ensures table { Tabled self.now }
    {
        &self.lines[..self.count]
    }

    // How many lines there are.
    pub fn len(&self) -> usize
        ensures { result ≡ self.now.count }
    {
        self.count
    }

    // The free places.
    pub fn free(&self) -> usize
        ensures { result ≡ free_in self.now }
    {
        PLACES - self.count
    }
}
