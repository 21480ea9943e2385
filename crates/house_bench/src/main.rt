// Times bring, pledge and novate in a house whose register has 10, 100 and 500 lines.
// The times go to standard error; standard output is the same in every run.
#![tactic(auto)]

use anyhow::anyhow;
use book::counts::Counts;
use house::house::House;
use rank::annex::Annex;
use register::trade::Trade;
use rules::fault::HouseFault;
use std::time::{Duration, Instant};
use table::Table;

// How often each event is timed.
const TIMES: u32 = 10_000;

// The trades of a house of 24 members and 16 securities: each opens two lines, up to 768 of them.
fn opening_trade(number: u32) -> Trade {
    let flag = (number / 12 % 4) as u8;
    Trade {
        buyer: (number % 12 + 1) as u8,
        buyer_flag: flag,
        seller: (number % 12 + 13) as u8,
        seller_flag: flag,
        security: (number / 48 % 16 + 1) as u8,
        quantity: 100,
        price: 1000,
    }
}

// How many of so many trades, each with two new lines, are accepted.
fn fill(house: &mut House<Table, Annex>, trades: u32) -> u32 {
    let mut accepted: u32 = 0;
    for number in 0..trades {
        if house.novate(opening_trade(number)).is_ok() {
            accepted = accepted.saturating_add(1);
        }
    }
    accepted
}

// The member whose turn it is.
fn member_at(turn: u32) -> u8 {
    (turn % 24 + 1) as u8
}

// Tells the house of one event again and again, and counts how often it is accepted.
fn repeat<F>(house: &mut House<Table, Annex>, tell: F) -> u32
where
    F: Fn(&mut House<Table, Annex>, u32) -> Result<(), HouseFault>,
    requires { F.IsAlwaysCallable tell }
{
    let mut accepted: u32 = 0;
    for turn in 0..TIMES {
        if tell(house, turn).is_ok() {
            accepted = accepted.saturating_add(1);
        }
    }
    accepted
}

// Nanoseconds for one event.
fn each(took: Duration) -> u128 {
    took.as_nanos() / u128::from(TIMES)
}

// Times one kind of event, and says how it went.
fn time<F>(
    rt: &HostRuntime,
    house: &mut House<Table, Annex>,
    name: &str,
    tell: F,
) -> anyhow::Result<()>
where
    F: Fn(&mut House<Table, Annex>, u32) -> Result<(), HouseFault>,
    requires { F.IsAlwaysCallable tell }
{
    let start = Instant::now(rt)?;
    let accepted = repeat(house, tell);
    let took = start.elapsed(rt)?;
    println!(rt; "  {name}: {accepted} of {TIMES} accepted")?;
    eprintln!(rt; "  {name}: {} ns each", each(took))?;
    Ok(())
}

// Times the three events in a house with so many lines, two for each trade. Members take turns; a trade meets the two lines
// that were opened last.
fn time_all(rt: &HostRuntime, house: &mut House<Table, Annex>, trades: u32) -> anyhow::Result<()> {
    let opened = fill(house, trades);
    println!(rt; "{opened} trades, two lines each")?;
    eprintln!(rt; "{opened} trades, two lines each")?;
    let last = Trade {
        quantity: 1,
        ..opening_trade(trades.saturating_sub(1))
    };
    time(rt, house, "bring", |house, turn| {
        house.bring(member_at(turn), 0, 1)
    })?;
    time(rt, house, "pledge", |house, turn| {
        house.pledge(member_at(turn), 1)
    })?;
    time(rt, house, "novate", |house, _| house.novate(last))
}

// Opens a house over an empty table, and times it.
fn run_with(rt: &HostRuntime, trades: u32) -> anyhow::Result<()> {
    let Ok(counts) = Counts::new(75, 17) else {
        return Err(anyhow!("the counts are refused"));
    };
    let mut house = House::open(Table::new(counts), Annex { seed: 0 }, 24, 16);
    time_all(rt, &mut house, trades)
}

fn run(rt: &HostRuntime) -> anyhow::Result<()> {
    run_with(rt, 5)?;
    run_with(rt, 50)?;
    run_with(rt, 250)
}

fn main(rt: HostRuntime) -> anyhow::Result<()> {
    run(&rt)
}
