// What an account of a book holds.
ghost use Rattle.std.specs.Prelude.{◌≡◌, IfOk, string_bytes};
ghost use Rattle.statement.specs.Rows.{account_text, row_text};

use crate::row::row;
use book::Book;
use book::shift::holds;
use std::alloc::{AllocError, Global};

// What an account holds of each asset, each amount after a space.
fn balances<B: Book>(heap: Global, book: &B, account: u8) -> Result<String, AllocError>
    ensures { B.good book.now → IfOk result (λ text. string_bytes text ≡ row_text ((B.ledger book.now).held account) 0 (B.ledger book.now).assets) }
{
    row(heap, |asset| holds(book, account, asset), 0, book.assets())
}

// The line of one account: its number, and what it holds of each asset.
pub fn account_line<B: Book>(heap: Global, book: &B, account: u8) -> Result<String, AllocError>
    ensures { B.good book.now → IfOk result (λ text. string_bytes text ≡ account_text (B.ledger book.now) account) }
{
    let amounts = balances(heap, book, account)?;
    format!(in heap; "account {account}{amounts}")
}
