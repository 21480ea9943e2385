// Why a line cannot be read.
ghost use Rattle.std.specs.Prelude.{◌≡◌, Some};
ghost use Rattle.script.specs.Wording.{wording};

use std::fmt;

#[derive(Clone, Copy, Debug, PartialEq, Eq)]
pub enum Misread {
    // The line has more bytes than a line may have.
    Long,
    // The line begins with no command.
    Unknown,
    // The command has a word too few or too many.
    Count,
    // A word that must be a number has something other than decimal digits.
    NoNumber,
    // The number is larger than its place takes.
    Range,
}

impl Misread {
    // The few words that a script's writer is told.
    pub fn words(self) -> &'static str
        ensures { result.now ≡ wording self }
    {
        match self {
            Misread::Long => "line too long",
            Misread::Unknown => "unknown command",
            Misread::Count => "wrong number of words",
            Misread::NoNumber => "not a number",
            Misread::Range => "number out of range",
        }
    }
}

// By hand, since a derived text promises nothing.
impl fmt::Display for Misread {
    ghost output = { λ m. Some (wording m) };

    fn fmt<W: fmt::Write>(&self, f: &mut fmt::Formatter<W>) -> fmt::Result {
        f.write_str(self.words())
    }
}
