// What a book is: the trait, its refusals, its counts, and the movements made through any book.
#![tactic(auto)]

ghost use Rattle.std.specs.Prelude.{◌≡◌};
ghost use Rattle.book.specs.Ledger.{Ledger, Sound, Told};
ghost use Rattle.book.specs.Movement.{Put, Pull, Move, Carried, balance_number};
ghost use Rattle.book.specs.Faults.{answer_number, answered};

pub mod counts;
pub mod fault;
pub mod laws;
pub mod shift;

use fault::BookFault;

// A book keeps a whole number for each account and asset. Its counts never change.
// Every promise holds of a book that is `good`, as each is from its making on and stays under every call.
pub trait Book {
    // What the book means.
    ghost ledger: { Self → Ledger };

    // What holds of a book from its making on.
    ghost good: { Self → Type 0 };

    // What follows of its meaning: a proof that each `impl` gives.
    ghost sound: { (b : Self) → good b → Sound (ledger b) };

    fn accounts(&self) -> u8
        ensures { result ≡ (ledger self.now).accounts };

    fn assets(&self) -> u8
        ensures { result ≡ (ledger self.now).assets };

    // The movements that the book will still take.
    fn space(&self) -> u32
        ensures { result ≡ (ledger self.now).space };

    // What an account holds of an asset.
    fn balance(&self, account: u8, asset: u8) -> Result<u64, BookFault>
        ensures { good self.now → Told (answer_number result) (balance_number (ledger self.now) account asset) (answered result ((ledger self.now).held account asset)) };

    // An amount from outside to one account.
    fn put(&mut self, account: u8, asset: u8, amount: u64) -> Result<(), BookFault>
        ensures carried { good self.old → Carried (Put account asset amount) (ledger self.old) (answer_number result) (ledger self.new) }
        ensures stays { good self.old → good self.new };

    // An amount from one account to outside.
    fn pull(&mut self, account: u8, asset: u8, amount: u64) -> Result<(), BookFault>
        ensures carried { good self.old → Carried (Pull account asset amount) (ledger self.old) (answer_number result) (ledger self.new) }
        ensures stays { good self.old → good self.new };

    // An amount from one account to another.
    fn transfer(&mut self, from: u8, to: u8, asset: u8, amount: u64) -> Result<(), BookFault>
        ensures carried { good self.old → Carried (Move from to asset amount) (ledger self.old) (answer_number result) (ledger self.new) }
        ensures stays { good self.old → good self.new };
}
