// The accounts of a house on its book.
ghost use Rattle.std.specs.Prelude.{◌≡◌, ◌≤◌, Some};
ghost use Rattle.rules.specs.Limits.{most_members};
ghost use Rattle.desk.specs.Accounts.{account_of, own_account, own_word};

use std::fmt;

// Asset 0 is cash, asset s is security s.
pub const CASH: u8 = 0;

// The house's own accounts: what passes through it in a run, shares that members may not have yet, its own cash.
#[derive(Clone, Copy, Debug, PartialEq, Eq)]
pub enum Own {
    Pool = 0,
    Escrow = 1,
    Reserve = 2,
}

impl Own {
    // The account's number.
    pub fn account(self) -> u8
        ensures { result ≡ own_account self }
    {
        self as u8
    }
}

impl fmt::Display for Own {
    ghost output = { λ own. Some (own_word own) };

    fn fmt<W: fmt::Write>(&self, f: &mut fmt::Formatter<W>) -> fmt::Result {
        f.write_str(match self {
            Own::Pool => "pool",
            Own::Escrow => "escrow",
            Own::Reserve => "reserve",
        })
    }
}

// The accounts of a member: its cash and shares, what it has pledged, what it has contributed.
#[derive(Clone, Copy, Debug, PartialEq, Eq)]
pub enum Purse {
    Settlement = 0,
    Collateral = 1,
    Contribution = 2,
}

// A member: its number is one that a house may have.
#[derive(Clone, Copy)]
pub struct MemberId {
    pub number: u8,
    ghost known: { number ≤ most_members },
}

impl MemberId {
    // The number of one of the member's accounts.
    pub fn account(self, purse: Purse) -> u8
        ensures { result ≡ account_of purse self.number }
    {
        3 * self.number + purse as u8
    }
}
