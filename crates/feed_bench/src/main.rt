#![tactic(auto)]

use anyhow::Context;
use feed::entry::Entry;
use feed::fault::FeedFault;
use feed::feed::RawFeed;
use feed_write::fault::WriteFault;
use feed_write::write::{FIRST, write_entry, write_feed};
use rank::key::Flag;
use std::env;
use std::time::{Duration, Instant};

/// The longest entry is a trade with the longest reference.
const LONGEST: usize = 33;

/// The reference of a trade: 1 to 16 letters.
fn reference(number: u32) -> &'static [u8] {
    let letters = b"ABCDEFGHIJKLMNOP";
    &letters[0..1 + number as usize % 16]
}

fn trade(number: u32) -> Entry<'static> {
    Entry::Trade {
        reference: reference(number),
        buyer: (number % 24 + 1) as u8,
        buyer_flag: Flag::LocalClient,
        seller: (number % 23 + 1) as u8,
        seller_flag: Flag::ForeignPrincipal,
        security: (number % 16 + 1) as u8,
        quantity: number,
        price: 1 + number % 1_000_000,
    }
}

/// Writes a feed of so many trades, and gives its length.
fn fill(out: &mut [u8], trades: u32) -> Result<usize, WriteFault> {
    write_feed(out, &[])?;
    let mut place = FIRST;
    for number in 0..trades {
        place = write_entry(out, place, &trade(number))?;
    }
    *out.get_mut(place).ok_or(WriteFault::Room)? = b'Z';
    Ok(place + 1)
}

/// How many entries a feed has.
fn count(raw: RawFeed<'_>) -> Result<usize, FeedFault> {
    raw.check()?;
    Ok(raw.checked().entries().count())
}

/// Millions of bytes a second.
fn rate(bytes: usize, took: Duration) -> u128 {
    (bytes as u128).checked_div(took.as_micros()).unwrap_or(0)
}

/// The number of trades asked for: the program's argument, or a thousand.
fn asked(rt: &HostRuntime) -> anyhow::Result<u32> {
    let Some(arg) = env::args(rt)?.nth(1) else {
        return Ok(1000);
    };
    Ok(arg.as_str().parse()?)
}

fn run(rt: &HostRuntime) -> anyhow::Result<()> {
    let trades = asked(rt)?;
    let mut out = vec![in rt.alloc(); 0u8; (trades as usize + 1) * LONGEST]?;
    let length = fill(&mut out, trades)
        .ok()
        .context("the feed was not written")?;
    let bytes = out
        .as_slice()
        .get(..length)
        .context("the feed was not written")?;
    let raw = RawFeed::over(bytes);
    let start = Instant::now(rt)?;
    let accepted = raw.check().is_ok();
    let took = start.elapsed(rt)?;
    let found = count(raw).ok().context("the feed is refused")?;
    println!(rt; "{found} entries in {length} bytes, accepted: {accepted}")?;
    eprintln!(rt; "check: {} MB/s", rate(length, took))?;
    Ok(())
}

fn main(rt: HostRuntime) -> anyhow::Result<()> {
    run(&rt)
}
