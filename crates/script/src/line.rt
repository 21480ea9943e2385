// A line while its bytes come in.
ghost use Rattle.std.specs.Prelude.{◌≡◌, []};
ghost use Rattle.script.specs.Gathering.{pushed, WholeLines};
ghost use Rattle.script.specs.Meaning.{meaning};

use crate::command::Command;
use crate::misread::Misread;
use crate::reader::read;
use std::marker::Model;

// One byte more than a line may have. Those that follow are let go: there are too many whatever they are.
const KEPT: usize = 65_537;

#[derive(Drop)]
pub struct Line {
    bytes: [u8; KEPT],
    held: usize,
}

// A line is the list of the bytes that it holds. What lies behind them is left of lines before.
impl Model for Line {
    ghost use Rattle.std.specs.Prelude.{ℕ, ◌≤◌, List, take};
    ghost use Rattle.script.specs.Gathering.{room};

    ghost Value = { List ℕ };

    ghost view = { λ l. take l.held l.bytes };

    ghost invariant = { λ l. l.held ≤ room };
}

impl Line {
    pub fn new() -> Line
        ensures { result ≡ [] }
    {
        Line {
            bytes: [0; KEPT],
            held: 0,
        }
    }

    // One byte more.
    pub fn push(&mut self, byte: u8)
        ensures { self.new ≡ pushed self.old byte }
    {
        if self.held < KEPT {
            self.bytes[self.held] = byte;
            self.held += 1;
        }
    }

    // Begins the next line.
    pub fn clear(&mut self)
        ensures { self.new ≡ [] }
    {
        self.held = 0;
    }

    // What the bytes that are kept say.
    pub fn read(&self) -> Result<Option<Command>, Misread>
        ensures { result ≡ meaning self.now }
    {
        read(&self.bytes[..self.held])
    }
}

// What is kept of a line says what the whole line says. The function does nothing: its contract asks for the proof.
pub fn lines_are_whole()
    ensures { WholeLines }
{}
