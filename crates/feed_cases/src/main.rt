#![tactic(auto)]

ghost use Rattle.std.specs.Prelude.{◌≡◌, ◌<◌, Some};
ghost use Rattle.feed.specs.Format.{verdict};
ghost use Rattle.feed_cases.specs.Codes.{shown};

use feed::fault::FeedFault;
use feed::feed::RawFeed;
use std::io::{BufWriter, Write};
use std::{fmt, io};

/// A feed of three entries: a trade, a closing price, a trade.
const FEED: [u8; LENGTH] =
    *b"TRF\x00\x01T\x03A17\x01LC\x02FP\x03\x00\x00\x00\x64\x00\x00\x04\x1aC\x03\x00\x00\x04\x1aT\x01B\x18FC\x18LP\x10\x05\xf5\xe1\x00\x00\x0f\x42\x40Z";

const LENGTH: usize = 50;

/// What check says, shown as `ok` where it accepts, else as the number of the refusal.
#[derive(Clone, Copy, PartialEq, Eq)]
struct Answer(Result<(), FeedFault>);

impl fmt::Display for Answer {
    ghost output = { λ answer. Some (shown answer.0) };

    fn fmt<W: fmt::Write>(&self, f: &mut fmt::Formatter<W>) -> fmt::Result {
        match self.0 {
            Ok(()) => write!(f, "ok"),
            Err(fault) => {
                let number = fault.number();
                write!(f, "{number}")
            }
        }
    }
}

fn answer_to(bytes: &[u8]) -> Answer
    ensures { result.0 ≡ verdict bytes.now }
{
    Answer(RawFeed::over(bytes).check())
}

/// A run of byte values for which check says the same.
fn show_run<W: Write>(out: &mut W, first: u8, last: u8, answer: Answer) -> io::Result<()> {
    if first == last {
        write!(out, "{first} {answer}")
    } else {
        write!(out, "{first}-{last} {answer}")
    }
}

/// What check says of the feed with another byte at a place.
fn changed(place: usize, value: u8) -> Answer
    requires { place < LENGTH }
{
    let mut feed = FEED;
    feed[place] = value;
    answer_to(&feed)
}

/// What check says for every value of the byte at a place, in runs.
fn show_changes<W: Write>(out: &mut W, place: usize) -> io::Result<()>
    requires { place < LENGTH }
{
    write!(out, "byte {place}: ")?;
    let mut first: u8 = 0;
    let mut before = changed(place, 0);
    for value in 1..=255u8 {
        let after = changed(place, value);
        if after != before {
            show_run(out, first, value - 1, before)?;
            write!(out, ", ")?;
            first = value;
            before = after;
        }
    }
    show_run(out, first, 255, before)?;
    writeln!(out, "")
}

fn main(rt: HostRuntime) -> io::Result<()> {
    let mut out = BufWriter::new(rt.alloc(), rt.stdout())?;
    for n in 0..=LENGTH {
        let answer = answer_to(&FEED[..n]);
        writeln!(out, "first {n}: {answer}")?;
    }
    for place in 0..LENGTH {
        show_changes(&mut out, place)?;
    }
    out.flush()
}
