// What a line says.
ghost use Rattle.std.specs.Prelude.{◌≡◌, Ok, Err, MatchResult};
ghost use Rattle.script.specs.Forms.{told};
ghost use Rattle.script.specs.Meaning.{meaning};

use crate::command::{BookCommand, Command};
use crate::misread::Misread;
use crate::words::Words;

// The most bytes that a line may have.
pub const MOST_LINE: usize = 65_536;

// What a line says: a command, nothing where it is empty or a comment, or why it cannot be read.
pub fn read(line: &[u8]) -> Result<Option<Command>, Misread>
    ensures { result ≡ meaning line.now }
{
    if line.len() > MOST_LINE {
        return Err(Misread::Long);
    }
    let mut words = Words::of(line);
    let name = match words.next() {
        Some(name) if !name.starts_with(b"#") => name,
        _ => return Ok(None),
    };
    let command = command(name, &mut words)?;
    words.end()?;
    Ok(Some(command))
}

// What a command's name says with the words after it. The words that are left are no part of it.
fn command(name: &[u8], words: &mut Words) -> Result<Command, Misread>
    ensures { MatchResult result (λ c. told name.now words.old ≡ Ok (c, words.new)) (λ e. told name.now words.old ≡ Err e) }
{
    match name {
        b"book" => {
            words.keyword(b"table")?;
            Ok(Command::Table {
                accounts: words.byte()?,
                assets: words.byte()?,
            })
        }
        b"put" => Ok(Command::OnBook(BookCommand::Put {
            account: words.byte()?,
            asset: words.byte()?,
            amount: words.amount()?,
        })),
        b"pull" => Ok(Command::OnBook(BookCommand::Pull {
            account: words.byte()?,
            asset: words.byte()?,
            amount: words.amount()?,
        })),
        b"move" => {
            let from = words.byte()?;
            let to = words.byte()?;
            Ok(Command::OnBook(BookCommand::Move {
                from,
                to,
                asset: words.byte()?,
                amount: words.amount()?,
            }))
        }
        b"balance" => Ok(Command::OnBook(BookCommand::Balance {
            account: words.byte()?,
            asset: words.byte()?,
        })),
        b"balances" => Ok(Command::OnBook(BookCommand::Balances)),
        _ => Err(Misread::Unknown),
    }
}
