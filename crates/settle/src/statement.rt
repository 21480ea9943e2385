// The balances of a book, as the program shows them.
ghost use Rattle.std.specs.Prelude.{◌≡◌, IfOk, string_bytes};
ghost use Rattle.settle.specs.Statements.{account_text};

use book::Book;
use book::shift::holds;
use std::alloc::{AllocError, Global};
use std::fmt::Write;

// The line of one account: its number, and what it holds of each asset.
pub fn account_line<B: Book>(heap: Global, book: &B, account: u8) -> Result<String, AllocError>
    ensures { B.good book.now → IfOk result (λ text. string_bytes text ≡ account_text (B.ledger book.now) account) }
{
    let mut text = format!(in heap; "account {account}")?;
    for asset in 0..book.assets() {
        let held = holds(book, account, asset);
        write!(text, " {held}")?;
    }
    Ok(text)
}
