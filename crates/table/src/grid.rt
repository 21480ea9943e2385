// The counts and the rows of a table, sound or not: what its calls look at and write.
ghost use Rattle.std.specs.Prelude.{◌≡◌, ◌<◌, ◌≤◌, IfOk, min};
ghost use Rattle.book.specs.Ledger.{Empty, Sound, total, most_accounts, most_assets};
ghost use Rattle.book.specs.Movement.{Put, Pull, Move, balance_number, movement_number};
ghost use Rattle.book.specs.Faults.{answer_number};
ghost use Rattle.table.specs.Rows.{most_number};
ghost use Rattle.table.specs.Meaning.{grid_meaning, judged_number, IsPlaceOf, KeptBy};

use crate::MOST_AMOUNT;
use crate::rows::{ACCOUNTS, Place, Row, balance_at, empty_rows, write};
use book::fault::BookFault;

#[derive(Drop)]
pub(crate) struct Grid {
    pub(crate) accounts: u8,
    pub(crate) assets: u8,
    pub(crate) rows: [Row; ACCOUNTS],
}

impl Grid {
    pub(crate) fn empty(accounts: u8, assets: u8) -> Grid
        ensures empty { Empty accounts assets (grid_meaning result) }
        ensures good { 0 < accounts → accounts ≤ most_accounts → 0 < assets → assets ≤ most_assets → Sound (grid_meaning result) }
    {
        let rows = empty_rows();
        Grid {
            accounts,
            assets,
            rows,
        }
    }

    // Where an account's balance of an asset stands.
    pub(crate) fn place(&self, account: u8, asset: u8) -> Result<Place, BookFault>
        ensures answer { answer_number result ≡ balance_number (grid_meaning self.now) account asset }
        ensures place { IfOk result (IsPlaceOf (grid_meaning self.now) account asset) }
    {
        if account >= self.accounts {
            return Err(BookFault::NoAccount);
        }
        if asset >= self.assets {
            return Err(BookFault::NoAsset);
        }
        Ok(Place { account, asset })
    }

    // The same for a movement of an amount, which is looked at last.
    pub(crate) fn judge(&self, account: u8, asset: u8, amount: u64) -> Result<Place, BookFault>
        ensures answer { answer_number result ≡ judged_number (grid_meaning self.now) account asset amount }
        ensures place { IfOk result (IsPlaceOf (grid_meaning self.now) account asset) }
    {
        let place = self.place(account, asset)?;
        if (1..=MOST_AMOUNT).contains(&amount) {
            Ok(place)
        } else {
            Err(BookFault::BadAmount)
        }
    }

    // The same for an amount that the account has to hold.
    pub(crate) fn source(&self, account: u8, asset: u8, amount: u64) -> Result<Place, BookFault>
        ensures answer { answer_number result ≡ movement_number (grid_meaning self.now) (Pull account asset amount) }
        ensures place { IfOk result (IsPlaceOf (grid_meaning self.now) account asset) }
    {
        let place = self.judge(account, asset, amount)?;
        if balance_at(&self.rows, place) < amount {
            return Err(BookFault::TooLittle);
        }
        Ok(place)
    }

    // The sum of an asset over all accounts, or the largest number where it is more than that.
    pub(crate) fn total(&self, asset: u8) -> u64
        ensures { result ≡ min (total (grid_meaning self.now) asset) most_number }
    {
        let used = self.rows.iter().take(usize::from(self.accounts));
        used.map(|row| row.get(asset)).fold(0, u64::saturating_add)
    }

    // Raises a balance.
    pub(crate) fn credit(&mut self, place: Place, amount: u64)
        ensures { KeptBy (Put place.account place.asset amount) (grid_meaning self.old) (grid_meaning self.new) }
    {
        let held = balance_at(&self.rows, place);
        write(&mut self.rows, place, held.saturating_add(amount));
    }

    // Lowers a balance.
    pub(crate) fn debit(&mut self, place: Place, amount: u64)
        ensures { KeptBy (Pull place.account place.asset amount) (grid_meaning self.old) (grid_meaning self.new) }
    {
        let held = balance_at(&self.rows, place);
        write(&mut self.rows, place, held.saturating_sub(amount));
    }

    // Lowers one balance and raises another account's.
    pub(crate) fn carry(&mut self, from: Place, to: u8, amount: u64)
        ensures { KeptBy (Move from.account to from.asset amount) (grid_meaning self.old) (grid_meaning self.new) }
    {
        let to = Place {
            account: to,
            ..from
        };
        let held = balance_at(&self.rows, from);
        let there = balance_at(&self.rows, to);
        write(&mut self.rows, from, held.saturating_sub(amount));
        write(&mut self.rows, to, there.saturating_add(amount));
    }
}
