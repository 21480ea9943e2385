// The movements that a house makes, through any book.
ghost use Rattle.std.specs.Prelude.{◌≡◌, min};
ghost use Rattle.book.specs.Movement.{Move, Shifted};

use crate::Book;

// What an account holds: 0 where there is no such account or asset.
pub fn holds<B: Book>(book: &B, account: u8, asset: u8) -> u64
    ensures { B.good book.now → result ≡ (B.ledger book.now).held account asset }
{
    book.balance(account, asset).unwrap_or(0)
}

// Moves an amount where the book takes it. A movement of 0 is not made.
pub fn shift<B: Book>(book: &mut B, from: u8, to: u8, asset: u8, amount: u64)
    ensures moved { B.good book.old → Shifted (Move from to asset amount) (B.ledger book.old) (B.ledger book.new) }
    ensures stays { B.good book.old → B.good book.new }
{
    if amount > 0 {
        let _ = book.transfer(from, to, asset, amount);
    }
}

// Moves the smaller of what is wanted and what is held, and answers how much that is.
pub fn shift_up_to<B: Book>(book: &mut B, from: u8, to: u8, asset: u8, wanted: u64) -> u64
    ensures amount { B.good book.old → result ≡ min wanted ((B.ledger book.old).held from asset) }
    ensures moved { B.good book.old → Shifted (Move from to asset result) (B.ledger book.old) (B.ledger book.new) }
    ensures stays { B.good book.old → B.good book.new }
{
    let amount = holds(book, from, asset).min(wanted);
    shift(book, from, to, asset, amount);
    amount
}
