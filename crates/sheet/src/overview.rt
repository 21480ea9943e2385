// Where a house stands, and the closing prices.
ghost use Rattle.std.specs.Prelude.{Some};
ghost use Rattle.sheet.specs.Overview.{closing_text, overview_text};

use rules::figures::Phase;
use std::fmt;

// Where a house stands.
#[derive(Clone, Copy)]
pub struct Overview {
    pub day: u32,
    pub phase: Phase,
    pub fails: u32,
    pub space: u32,
    pub lines: usize,
}

impl fmt::Display for Overview {
    ghost output = { λ v. Some (overview_text v) };

    fn fmt<W: fmt::Write>(&self, f: &mut fmt::Formatter<W>) -> fmt::Result {
        let day = self.day;
        let phase = self.phase;
        let fails = self.fails;
        let space = self.space;
        let lines = self.lines;
        write!(
            f,
            "day {day} {phase} fails {fails} space {space} lines {lines}"
        )
    }
}

// The closing price of a security.
#[derive(Clone, Copy)]
pub struct Closing {
    pub security: u8,
    pub price: u32,
}

impl fmt::Display for Closing {
    ghost output = { λ c. Some (closing_text c) };

    fn fmt<W: fmt::Write>(&self, f: &mut fmt::Formatter<W>) -> fmt::Result {
        let security = self.security;
        let price = self.price;
        write!(f, "security {security} close {price}")
    }
}
