// What a command does with any book.
ghost use Rattle.std.specs.Prelude.{◌≡◌};
ghost use Rattle.settle.specs.Obedience.{answer_to, Left};

use crate::answer::Reply;
use book::Book;
use book::fault::BookFault;
use script::command::BookCommand;

pub fn obey<B: Book>(book: &mut B, command: BookCommand) -> Result<Reply, BookFault>
    ensures answer { B.good book.old → result ≡ answer_to (B.ledger book.old) command }
    ensures left { B.good book.old → Left command (B.ledger book.old) (B.ledger book.new) }
    ensures stays { B.good book.old → B.good book.new }
{
    match command {
        BookCommand::Put {
            account,
            asset,
            amount,
        } => book.put(account, asset, amount).and(Ok(Reply::Done)),
        BookCommand::Pull {
            account,
            asset,
            amount,
        } => book.pull(account, asset, amount).and(Ok(Reply::Done)),
        BookCommand::Move {
            from,
            to,
            asset,
            amount,
        } => book.transfer(from, to, asset, amount).and(Ok(Reply::Done)),
        BookCommand::Balance { account, asset } => {
            let held = book.balance(account, asset)?;
            Ok(Reply::Amount(held))
        }
        BookCommand::Balances => Ok(Reply::Balances {
            space: book.space(),
        }),
    }
}
