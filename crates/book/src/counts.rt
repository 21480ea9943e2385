// How many accounts and assets a book has.
ghost use Rattle.std.specs.Prelude.{◌≡◌, ◌<◌, ◌≤◌, Ok, Err};
ghost use Rattle.book.specs.Ledger.{most_accounts, most_assets};
ghost use Rattle.book.specs.Faults.{answer_number, counts_number};

use crate::fault::BookFault;

const MOST_ACCOUNTS: u8 = 75;

const MOST_ASSETS: u8 = 17;

// Counts of accounts and assets that a book may have. Only `new` makes them.
#[derive(Clone, Copy, PartialEq, Eq, Debug)]
pub struct Counts {
    accounts: u8,
    assets: u8,
    ghost some_account: { 0 < accounts },
    ghost few_accounts: { accounts ≤ most_accounts },
    ghost some_asset: { 0 < assets },
    ghost few_assets: { assets ≤ most_assets },
}

impl Counts {
    // The first call of every book: counts out of range are refused.
    pub fn new(accounts: u8, assets: u8) -> Result<Counts, BookFault>
        ensures answer { answer_number result ≡ counts_number accounts assets }
        ensures made { elim result [ Ok c ↦ (c.accounts ≡ accounts) × (c.assets ≡ assets) | Err _ ↦ Unit {0} ] }
    {
        if (1..=MOST_ACCOUNTS).contains(&accounts) && (1..=MOST_ASSETS).contains(&assets) {
            Ok(Counts { accounts, assets })
        } else {
            Err(BookFault::BadCounts)
        }
    }

    pub fn accounts(self) -> u8
        ensures value { result ≡ self.accounts }
        ensures some { 0 < result }
        ensures few { result ≤ most_accounts }
    {
        self.accounts
    }

    pub fn assets(self) -> u8
        ensures value { result ≡ self.assets }
        ensures some { 0 < result }
        ensures few { result ≤ most_assets }
    {
        self.assets
    }
}

#[cfg(test)]
mod tests {
    use super::*;
    use std::test::Fail;

    #[test]
    fn counts_have_a_range(rt: HostRuntime) -> Result<(), Fail> {
        let most = Counts::new(75, 17)?;
        assert_eq!(rt; most.accounts(), 75);
        assert_eq!(rt; most.assets(), 17);
        assert!(rt; Counts::new(0, 1).is_err());
        assert!(rt; Counts::new(76, 17).is_err());
        assert!(rt; Counts::new(75, 18).is_err());
        assert_eq!(rt; BookFault::BadCounts.number(), 19);
        Ok(())
    }
}
