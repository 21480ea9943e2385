// What a house knows beside its book.
ghost use Rattle.std.specs.Prelude.{Some};
ghost use Rattle.rules.specs.Words.{phase_word};

use register::Register;
use std::fmt;
use std::marker::Model;

// A house counts members and securities from 1: place 0 of the arrays below stays as it was made.
pub const MEMBERS: usize = 25;

pub const SECURITIES: usize = 17;

// One kind of fail: whether the member failed at the last two, and the charges that a fail has grown by.
#[derive(Clone, Copy)]
pub struct Fail {
    pub failed: bool,
    pub growth: u64,
}

#[derive(Clone, Copy)]
pub struct Member {
    // Centavos that the member is to pay the pool, or below 0 to be paid.
    pub position: i64,
    // What the reserve paid for the member and the member has not repaid.
    pub advances: u64,
    pub charges: u64,
    pub shares: Fail,
    pub cash: Fail,
    // The collateral that the last end asked for.
    pub requirement: u64,
    // The sum that the member owed when noon last ended, and what it has paid of that since, from settlement, for position and advances.
    pub owed: u64,
    pub late: u64,
}

// The shares that escrow holds in one member's name, by security.
#[derive(Clone, Copy)]
pub struct Row {
    pub shares: [u64; SECURITIES],
}

// Noon leads from the morning to late, two from late to shut, end from shut to the next morning.
#[derive(Clone, Copy, PartialEq, Eq)]
pub enum Phase {
    Morning,
    Late,
    Shut,
}

// What a house keeps of one member.
#[derive(Clone, Copy)]
pub struct Seat {
    pub member: Member,
    pub escrow: Row,
}

impl fmt::Display for Phase {
    ghost output = { λ p. Some (phase_word p) };

    fn fmt<W: fmt::Write>(&self, f: &mut fmt::Formatter<W>) -> fmt::Result {
        f.write_str(match self {
            Phase::Morning => "morning",
            Phase::Late => "late",
            Phase::Shut => "shut",
        })
    }
}

// How many members and securities the house has. They never change.
#[derive(Clone, Copy)]
pub struct Size {
    pub members: u8,
    pub securities: u8,
}

#[derive(Clone, Copy)]
pub struct Clock {
    pub day: u32,
    pub phase: Phase,
}

// The figures of a house. They fit their bounds, whatever befalls the house.
#[derive(Clone, Copy)]
pub struct Figures {
    pub size: Size,
    pub clock: Clock,
    pub register: Register,
    pub seats: [Seat; MEMBERS],
    // The standing closing prices, 0 while there is none.
    pub closes: [u32; SECURITIES],
    // Fails that have begun.
    pub fails: u32,
}

impl Model for Figures {
    ghost use Rattle.rules.specs.Tallies.{Tallies, tallied, seated, seated_again};

    ghost Value = { Tallies };

    ghost use Rattle.rules.specs.Fit.{Fit};

    ghost view = { λ f. tallied f.size f.clock f.register f.seats f.closes f.fails };

    ghost inverse = { λ t. record { size = t.size; clock = t.clock; register = t.register; seats = seated t.records t.escrow; closes = t.closes; fails = t.fails } };

    ghost inverse_ok = { λ f h i. record { size = f.size; clock = f.clock; register = f.register; seats = seated_again f.seats i; closes = f.closes; fails = f.fails } };

    ghost invariant = { λ f. Fit (tallied f.size f.clock f.register f.seats f.closes f.fails) };
}
