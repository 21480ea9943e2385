#![tactic(auto)]

use feed::entry::{Entry, Item};
use feed::feed::{CheckedFeed, RawFeed};
use std::io::{BufWriter, Read, Write};
use std::{fmt, io};

/// An entry as a line of text, its reference in hexadecimal.
#[derive(Clone, Copy)]
struct Line<'a>(Item<'a>);

impl fmt::Display for Line<'_> {
    fn fmt<W: fmt::Write>(&self, f: &mut fmt::Formatter<W>) -> fmt::Result {
        let Item { place, entry } = self.0;
        match entry {
            Entry::Trade {
                reference,
                buyer,
                buyer_flag,
                seller,
                seller_flag,
                security,
                quantity,
                price,
            } => {
                write!(f, "{place}: trade ")?;
                for b in reference {
                    write!(f, "{b:02x}")?;
                }
                write!(
                    f,
                    ", {buyer} {buyer_flag} buys from {seller} {seller_flag}: {quantity} of security {security} at {price}"
                )
            }
            Entry::Close { security, price } => {
                write!(f, "{place}: close of security {security} at {price}")
            }
        }
    }
}

fn show_all<W: Write>(out: &mut W, feed: CheckedFeed<'_>) -> io::Result<()> {
    for item in feed.entries() {
        writeln!(out, "{}", Line(item))?;
    }
    Ok(())
}

fn main(rt: HostRuntime) -> io::Result<()> {
    let mut bytes = Vec::new(rt.alloc());
    rt.stdin().read_to_end(&mut bytes)?;
    let raw = RawFeed::over(&bytes);
    match raw.check() {
        Ok(()) => {
            let mut out = BufWriter::new(rt.alloc(), rt.stdout())?;
            show_all(&mut out, raw.checked())?;
            out.flush()
        }
        Err(fault) => println!(rt; "refused: {} {fault:?}", fault.number()),
    }
}
