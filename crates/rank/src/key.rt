ghost use Rattle.std.specs.Prelude.{◌≡◌, Some};
ghost use Rattle.std.specs.Fmt.{padded};
ghost use Rattle.rank.specs.Keys.{flag_number, flag_letters, FlagNumbered, FlagLettered, key_number};

use std::error::Error;
use std::fmt;

/// For whom a member holds a line: local or foreign, principal (the member itself) or client.
#[derive(Clone, Copy, Debug, PartialEq, Eq)]
pub enum Flag {
    /// LP
    LocalPrincipal = 0,
    /// LC
    LocalClient = 1,
    /// FP
    ForeignPrincipal = 2,
    /// FC
    ForeignClient = 3,
}

impl Flag {
    /// The two letters of the flag, LP, LC, FP or FC.
    pub fn letters(self) -> &'static str
        ensures { result.now ≡ flag_letters self }
    {
        match self {
            Flag::LocalPrincipal => "LP",
            Flag::LocalClient => "LC",
            Flag::ForeignPrincipal => "FP",
            Flag::ForeignClient => "FC",
        }
    }
}

/// Shown by its letters.
impl fmt::Display for Flag {
    ghost output = { λ flag. Some (flag_letters flag) };

    ghost styled_output = { λ flag spec. Some (padded spec (flag_letters flag)) };

    fn fmt<W: fmt::Write>(&self, f: &mut fmt::Formatter<W>) -> fmt::Result {
        f.pad(self.letters())
    }
}

/// The flag's number, 0 to 3.
impl From<Flag> for u8 {
    ghost from_gives = { λ flag number. number ≡ flag_number flag };

    fn from(flag: Flag) -> u8 {
        flag as u8
    }
}

/// A number or letters that no flag has.
#[derive(Clone, Copy, Debug, PartialEq, Eq)]
pub struct NoFlag;

impl fmt::Display for NoFlag {
    fn fmt<W: fmt::Write>(&self, f: &mut fmt::Formatter<W>) -> fmt::Result {
        f.write_str("no flag")
    }
}

impl Error for NoFlag {}

/// The flag that has the number; no flag has one above 3.
impl TryFrom<u8> for Flag {
    type Error = NoFlag;

    ghost try_from_gives = { FlagNumbered };

    fn try_from(number: u8) -> Result<Flag, NoFlag> {
        match number {
            0 => Ok(Flag::LocalPrincipal),
            1 => Ok(Flag::LocalClient),
            2 => Ok(Flag::ForeignPrincipal),
            3 => Ok(Flag::ForeignClient),
            _ => Err(NoFlag),
        }
    }
}

/// The flag that has the letters.
impl TryFrom<&[u8]> for Flag {
    type Error = NoFlag;

    ghost try_from_gives = { λ letters r. FlagLettered letters.now r };

    fn try_from(letters: &[u8]) -> Result<Flag, NoFlag> {
        match letters {
            b"LP" => Ok(Flag::LocalPrincipal),
            b"LC" => Ok(Flag::LocalClient),
            b"FP" => Ok(Flag::ForeignPrincipal),
            b"FC" => Ok(Flag::ForeignClient),
            _ => Err(NoFlag),
        }
    }
}

/// What a line is known by: a member's trades in one security that fall due on one day, under one flag.
#[derive(Clone, Copy, Debug, PartialEq, Eq)]
pub struct Key {
    pub due: u32,
    pub security: u8,
    pub member: u8,
    pub flag: Flag,
}

impl Key {
    /// The one place where a key is made.
    pub fn new(due: u32, security: u8, member: u8, flag: Flag) -> Key
        ensures { result ≡ record { due = due; security = security; member = member; flag = flag } }
    {
        Key {
            due,
            security,
            member,
            flag,
        }
    }

    /// The one number of the key, ((due × 64 + security) × 64 + member) × 4 + flag. Any parts have one.
    /// A method and no `From`, since keys with a security or a member above 63 may share a number.
    pub fn number(self) -> u64
        ensures { result ≡ key_number self }
    {
        let group = u64::from(self.due) * 64 + u64::from(self.security);
        (group * 64 + u64::from(self.member)) * 4 + u64::from(u8::from(self.flag))
    }
}
