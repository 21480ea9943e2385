// A book for two members and one security that is empty and has no space.
ghost use Rattle.std.specs.Prelude.{◌≡◌, false, not, if◌then◌else◌, ◌==◌, nat_le};
ghost use Rattle.book.specs.Faults.{fault_number};
ghost use Rattle.book.specs.Ledger.{Sound};
ghost use Rattle.book.specs.Movement.{good_amount};

use book::Book;
use book::fault::BookFault;

#[derive(Clone, Copy)]
pub(crate) struct Full {}

// Why a movement is refused: account, asset, amount, then the space.
fn refused(unknown: bool, asset: u8, amount: u64) -> BookFault
    ensures number { fault_number result ≡ (if unknown then 20 else (if nat_le 2 asset then 2 else (if not (good_amount amount) then 4 else 6))) }
    ensures refused { (fault_number result == 0) ≡ false }
{
    if unknown {
        return BookFault::NoAccount;
    }
    if asset >= 2 {
        return BookFault::NoAsset;
    }
    if amount == 0 || amount > 1_000_000_000_000_000 {
        return BookFault::BadAmount;
    }
    BookFault::NoSpace
}

impl Book for Full {
    ghost ledger = { λ _. record { accounts = 9; assets = 2; space = 0; held = λ _ _. 0 } };

    ghost good = { λ _. Sound (record { accounts = 9; assets = 2; space = 0; held = λ _ _. 0 }) };

    ghost sound = { λ _ h. h };

    fn accounts(&self) -> u8 {
        9
    }

    fn assets(&self) -> u8 {
        2
    }

    fn space(&self) -> u32 {
        0
    }

    fn balance(&self, account: u8, asset: u8) -> Result<u64, BookFault> {
        if account >= 9 {
            return Err(BookFault::NoAccount);
        }
        if asset >= 2 {
            return Err(BookFault::NoAsset);
        }
        Ok(0)
    }

    fn put(&mut self, account: u8, asset: u8, amount: u64) -> Result<(), BookFault> {
        Err(refused(account >= 9, asset, amount))
    }

    fn pull(&mut self, account: u8, asset: u8, amount: u64) -> Result<(), BookFault> {
        Err(refused(account >= 9, asset, amount))
    }

    fn transfer(&mut self, from: u8, to: u8, asset: u8, amount: u64) -> Result<(), BookFault> {
        Err(refused(from >= 9 || to >= 9 || from == to, asset, amount))
    }
}
