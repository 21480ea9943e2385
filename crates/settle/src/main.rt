// Reads a script from standard input and answers each of its commands.
#![tactic(auto)]

mod answer;
mod desk;
mod laws;
mod orders;
mod session;
mod statement;

use answer::{Answer, Reply};
use book::Book;
use desk::Desk;
use statement::account_line;
use std::alloc::Global;
use std::io;
use std::io::{BufWriter, Read, Write};
use std::process::ExitCode;

// How many bytes are read at a time.
const CHUNK: usize = 65_536;

// Errors in the script end the program with status 1 and no word: its answers have told them.
fn main(rt: HostRuntime) -> anyhow::Result<ExitCode> {
    if run(&rt)? {
        return Ok(ExitCode::FAILURE);
    }
    Ok(ExitCode::SUCCESS)
}

// Answers the whole input, and says whether there was an error in it.
fn run(rt: &HostRuntime) -> anyhow::Result<bool> {
    let heap = rt.alloc();
    let mut input = rt.stdin();
    let mut chunk = [0u8; CHUNK];
    let mut teller = Teller {
        heap,
        desk: Desk::new(),
        out: BufWriter::new(heap, rt.stdout())?,
    };
    // A count stands in for the loop to the input's end, which has no measure. The library's own loops would read without the flush.
    for _ in 0..u64::MAX {
        // Whoever types the script has the answers so far before more is read.
        teller.out.flush()?;
        let n = input.read(&mut chunk)?;
        if n == 0 {
            break;
        }
        teller.take(&chunk[..n])?;
    }
    teller.end()?;
    Ok(teller.desk.failed())
}

// The script so far, and where its answers are printed.
#[derive(Drop)]
struct Teller<W: Write> {
    heap: Global,
    desk: Desk,
    out: W,
}

impl<W: Write> Teller<W> {
    // Goes on with the script by some bytes.
    fn take(&mut self, bytes: &[u8]) -> io::Result<()> {
        for byte in bytes {
            // Most bytes have no answer.
            if let Some(answer) = self.desk.take(*byte) {
                self.say(answer)?;
            }
        }
        Ok(())
    }

    // Ends the script.
    fn end(&mut self) -> io::Result<()> {
        if let Some(answer) = self.desk.end_line() {
            self.say(answer)?;
        }
        self.out.flush()
    }

    // Prints an answer.
    fn say(&mut self, answer: Answer) -> io::Result<()> {
        match answer {
            Ok(reply) => writeln!(self.out, "{reply}")?,
            Err(trouble) => writeln!(self.out, "{trouble}")?,
        }
        if let Ok(Reply::Balances { .. }) = answer {
            self.list()?;
        }
        Ok(())
    }

    // Prints a line for each account of the book.
    fn list(&mut self) -> io::Result<()> {
        let Some(book) = self.desk.book() else {
            return Ok(());
        };
        for account in 0..book.accounts() {
            let text = account_line(self.heap, book, account)?;
            writeln!(self.out, "{text}")?;
        }
        Ok(())
    }
}

#[cfg(test)]
mod tests;
