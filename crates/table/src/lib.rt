// The table: a book that keeps a number for each account and asset.
#![tactic(auto)]

ghost use Rattle.std.specs.Prelude.{◌≡◌};
ghost use Rattle.book.specs.Ledger.{Empty, Sound, most_space};
ghost use Rattle.table.specs.Meaning.{meaning, grid_meaning};

use book::Book;
use book::counts::Counts;
use book::fault::BookFault;

mod grid;
#[cfg(test)]
mod lent;
mod rows;

use grid::Grid;
use rows::balance_at;
use std::marker::Model;

// The largest amount of one movement, and the largest sum of an asset over all accounts.
const MOST_AMOUNT: u64 = 1_000_000_000_000_000;

// A book whose space never falls. Every table is sound.
#[derive(Drop)]
pub struct Table {
    grid: Grid,
    pub ghost sound: { Sound (grid_meaning grid) },
}

// Contracts see the counts, the rows and that these are sound. The model closes the ghost field, so that a table can stand beside
// a lent one.
impl Model for Table {
    ghost use Rattle.table.specs.Rows.{Seen};

    ghost Value = { Seen };

    ghost view = { λ t. record { accounts = t.grid.accounts; assets = t.grid.assets; rows = t.grid.rows; sound = t.sound } };
}

impl Table {
    // An empty table of these counts.
    pub fn new(counts: Counts) -> Table
        ensures empty { Empty counts.accounts counts.assets (meaning result) }
        ensures space { (meaning result).space ≡ most_space }
        ensures good { Sound (meaning result) }
    {
        Table {
            grid: Grid::empty(counts.accounts(), counts.assets()),
        }
    }

    // The smallest table: one account and one asset.
    pub fn smallest() -> Table
        ensures empty { Empty 1 1 (meaning result) }
        ensures good { Sound (meaning result) }
    {
        Table::new(Counts::new(1, 1).unwrap())
    }
}

impl Book for Table {
    ghost ledger = { meaning };

    ghost good = { λ t. Sound (meaning t) };

    ghost sound = { λ t h. h };

    fn accounts(&self) -> u8 {
        self.grid.accounts
    }

    fn assets(&self) -> u8 {
        self.grid.assets
    }

    fn space(&self) -> u32 {
        u32::MAX
    }

    fn balance(&self, account: u8, asset: u8) -> Result<u64, BookFault> {
        let place = self.grid.place(account, asset)?;
        Ok(balance_at(&self.grid.rows, place))
    }

    fn put(&mut self, account: u8, asset: u8, amount: u64) -> Result<(), BookFault> {
        let place = self.grid.judge(account, asset, amount)?;
        if self.grid.total(asset).saturating_add(amount) > MOST_AMOUNT {
            return Err(BookFault::TooMuch);
        }
        self.grid.credit(place, amount);
        Ok(())
    }

    fn pull(&mut self, account: u8, asset: u8, amount: u64) -> Result<(), BookFault> {
        let place = self.grid.source(account, asset, amount)?;
        self.grid.debit(place, amount);
        Ok(())
    }

    fn transfer(&mut self, from: u8, to: u8, asset: u8, amount: u64) -> Result<(), BookFault> {
        if to >= self.grid.accounts || from == to {
            return Err(BookFault::NoAccount);
        }
        let place = self.grid.source(from, asset, amount)?;
        self.grid.carry(place, to, amount);
        Ok(())
    }
}

#[cfg(test)]
mod tests {
    use super::*;
    use book::shift::{holds, shift, shift_up_to};
    use std::test::Fail;

    // A table of two accounts and two assets.
    fn small() -> Result<Table, Fail> {
        Ok(Table::new(Counts::new(2, 2)?))
    }

    #[test]
    fn keeps_balances(rt: HostRuntime) -> Result<(), Fail> {
        let mut t = small()?;
        assert_eq!(rt; t.put(0, 1, 70), Ok(()));
        assert_eq!(rt; t.transfer(0, 1, 1, 30), Ok(()));
        assert_eq!(rt; t.pull(1, 1, 10), Ok(()));
        assert_eq!(rt; t.balance(0, 1), Ok(40));
        assert_eq!(rt; t.balance(1, 1), Ok(20));
        assert_eq!(rt; t.balance(1, 0), Ok(0));
        assert_eq!(rt; t.space(), u32::MAX);
        Ok(())
    }

    #[test]
    fn refuses_in_order(rt: HostRuntime) -> Result<(), Fail> {
        let mut t = small()?;
        assert_eq!(rt; t.put(2, 2, 0), Err(BookFault::NoAccount));
        assert_eq!(rt; t.put(1, 2, 0), Err(BookFault::NoAsset));
        assert_eq!(rt; t.put(1, 1, 0), Err(BookFault::BadAmount));
        assert_eq!(rt; t.transfer(1, 1, 2, 0), Err(BookFault::NoAccount));
        assert_eq!(rt; t.pull(1, 1, 1), Err(BookFault::TooLittle));
        assert_eq!(rt; t.put(0, 1, MOST_AMOUNT), Ok(()));
        assert_eq!(rt; t.put(1, 1, 1), Err(BookFault::TooMuch));
        assert_eq!(rt; t.put(1, 0, MOST_AMOUNT + 1), Err(BookFault::BadAmount));
        Ok(())
    }

    // A table of one's own beside one that is lent.
    #[derive(Drop)]
    struct Beside<'a> {
        own: Table,
        lent: &'a mut Table,
    }

    fn put_beside<'a>(own: Table, lent: &'a mut Table) -> Result<Beside<'a>, BookFault> {
        if own.accounts() == lent.accounts() {
            Ok(Beside { own, lent })
        } else {
            Err(BookFault::BadCounts)
        }
    }

    #[test]
    fn stands_beside_a_lent_table(rt: HostRuntime) -> Result<(), Fail> {
        let mut lent = small()?;
        assert!(rt; put_beside(Table::smallest(), &mut lent).is_err());
        let mut both = put_beside(small()?, &mut lent)?;
        assert_eq!(rt; both.own.put(0, 1, 7), Ok(()));
        assert_eq!(rt; both.lent.put(1, 0, 5), Ok(()));
        assert_eq!(rt; both.own.balance(0, 1), Ok(7));
        assert_eq!(rt; both.own.balance(1, 0), Ok(0));
        assert_eq!(rt; both.lent.balance(1, 0), Ok(5));
        Ok(())
    }

    #[test]
    fn shifts_what_is_there(rt: HostRuntime) -> Result<(), Fail> {
        let mut t = small()?;
        assert_eq!(rt; t.put(0, 0, 50), Ok(()));
        assert_eq!(rt; shift_up_to(&mut t, 0, 1, 0, 80), 50);
        shift(&mut t, 1, 0, 0, 20);
        shift(&mut t, 1, 0, 0, 99);
        assert_eq!(rt; holds(&t, 0, 0), 20);
        assert_eq!(rt; holds(&t, 1, 0), 30);
        assert_eq!(rt; holds(&t, 9, 0), 0);
        Ok(())
    }
}
