use crate::full::Full;
use book::counts::Counts;
use desk::accounts::{CASH, Own, Purse};
use house::house::House;
use rank::annex::Annex;
use rank::key::{Flag, Key};
use register::line::Line;
use register::trade::Trade;
use rules::fault::HouseFault;
use std::test::Fail;
use table::Table;

const MOST: u64 = 1_000_000_000_000_000;

const RANK: Annex = Annex { seed: 0 };

// The number of an answer, 0 where the call was accepted.
fn number<T: Drop>(answer: Result<T, HouseFault>) -> u64 {
    answer.err().map_or(0, |fault| u64::from(fault.number()))
}

// What a question told, 0 where it was refused.
fn told(answer: Result<u64, HouseFault>) -> u64 {
    answer.unwrap_or(0)
}

// A house of two members and one security.
pub(crate) fn small() -> Result<House<Table, Annex>, Fail> {
    Ok(House::open(Table::new(Counts::new(9, 2)?), RANK, 2, 1))
}

// A trade in security 1.
pub(crate) fn trade(buyer: u8, buyer_flag: u8, seller: u8, quantity: u32, price: u32) -> Trade {
    Trade {
        buyer,
        buyer_flag,
        seller,
        seller_flag: 0,
        security: 1,
        quantity,
        price,
    }
}

// Whether a line was told with this key, netted quantity, money, order price and rest.
fn has(
    answer: Result<Option<Line>, HouseFault>,
    key: Key,
    quantity: i64,
    money: i64,
    price: u32,
    rest: u32,
) -> bool {
    answer.ok().flatten().is_some_and(|line| {
        line.claim.key == key
            && line.claim.quantity == quantity
            && line.money == money
            && line.claim.price == price
            && line.rest == rest
    })
}

// Whether it was told that there is no such line.
fn is_none(answer: Result<Option<Line>, HouseFault>) -> bool {
    matches!(answer, Ok(None))
}

fn key(member: u8, flag: Flag) -> Key {
    Key::new(4, 1, member, flag)
}

#[test]
fn opens_over_a_book_that_suits(rt: HostRuntime) -> Result<(), Fail> {
    let house = House::open(Table::new(Counts::new(9, 2)?), RANK, 25, 1);
    let bad_counts = number(house.day());
    let (book, _) = house.close();
    let house = House::open(book, RANK, 3, 1);
    let unfit = number(house.day());
    let (book, _) = house.close();
    let mut house = House::open(book, RANK, 2, 1);
    let fits = number(house.endow(1));
    let (book, _) = house.close();
    let mut house = House::open(book, RANK, 2, 1);
    let not_empty = [
        number(house.novate(trade(1, 0, 2, 1, 1))),
        number(house.line_from(0)),
    ];
    let answers = [bad_counts, unfit, fits, not_empty[0], not_empty[1]];
    assert_eq!(rt; answers, [19, 18, 0, 18, 18]);
    Ok(())
}

// What a program may hold, and let go by assignment.
#[derive(Drop)]
struct Held {
    house: Option<House<Table, Annex>>,
}

#[test]
fn is_let_go(rt: HostRuntime) -> Result<(), Fail> {
    let mut held = Held { house: None };
    held.house = Some(small()?);
    held.house = Some(House::open(Table::new(Counts::new(9, 2)?), RANK, 1, 1));
    let unfit = held.house.as_ref().map_or(0, |house| number(house.day()));
    held.house = None;
    assert_eq!(rt; unfit, 18);
    Ok(())
}

// Nobody is bound before the first run: only a run makes charges, sums owed and requirements. So take shows no 9 here.
#[test]
fn cash_from_and_to_outside(rt: HostRuntime) -> Result<(), Fail> {
    let mut house = small()?;
    let answers = [
        number(house.bring(3, 2, 0)),
        number(house.bring(1, 2, 0)),
        number(house.bring(1, 1, 0)),
        number(house.bring(1, 0, 100)),
        number(house.bring(2, 0, MOST)),
        number(house.take(0, 2, 0)),
        number(house.take(1, 2, 0)),
        number(house.take(1, 1, 0)),
        number(house.take(1, 1, 5)),
        number(house.take(1, 0, 10)),
        number(house.endow(0)),
        number(house.endow(MOST)),
        number(house.endow(50)),
        told(house.balance(1, Purse::Settlement, 0)),
        told(house.own_balance(Own::Reserve, 0)),
    ];
    assert_eq!(rt; answers, [1, 2, 4, 0, 8, 1, 2, 4, 7, 0, 4, 8, 0, 90, 50]);
    Ok(())
}

#[test]
fn cash_among_accounts(rt: HostRuntime) -> Result<(), Fail> {
    let mut house = small()?;
    let answers = [
        number(house.bring(2, 0, 100)),
        number(house.pledge(3, 0)),
        number(house.pledge(2, 0)),
        number(house.pledge(2, 101)),
        number(house.pledge(2, 60)),
        number(house.contribute(0, 0)),
        number(house.contribute(2, MOST + 1)),
        number(house.contribute(2, 41)),
        number(house.contribute(2, 15)),
        number(house.refund(3, 0)),
        number(house.refund(2, 0)),
        number(house.refund(2, 61)),
        number(house.refund(2, 10)),
        told(house.balance(2, Purse::Settlement, 0)),
        told(house.balance(2, Purse::Collateral, CASH)),
        told(house.balance(2, Purse::Contribution, CASH)),
    ];
    assert_eq!(rt;
        answers,
        [0, 1, 4, 7, 0, 1, 4, 7, 0, 1, 4, 10, 0, 35, 50, 15]
    );
    Ok(())
}

// The book holds no collateral, so refund is refused by the house before it comes to the book.
#[test]
fn a_book_without_space(rt: HostRuntime) {
    let mut house = House::open(Full {}, RANK, 2, 1);
    let answers = [
        number(house.bring(1, 0, 1)),
        number(house.take(1, 0, 1)),
        number(house.endow(1)),
        number(house.pledge(1, 1)),
        number(house.contribute(1, 1)),
    ];
    assert_eq!(rt; answers, [6, 6, 6, 6, 6]);
}

#[test]
fn questions_and_prices(rt: HostRuntime) -> Result<(), Fail> {
    let mut house = small()?;
    let answers = [
        number(house.member(0)),
        number(house.owed(3)),
        number(house.call(3)),
        number(house.balance(3, Purse::Collateral, CASH)),
        number(house.balance(3, Purse::Contribution, CASH)),
        number(house.balance(3, Purse::Settlement, 2)),
        number(house.in_escrow(3, 2)),
        number(house.line(4, 2, 3, 4)),
        number(house.balance(1, Purse::Settlement, 2)),
        number(house.in_escrow(1, 0)),
        number(house.closing_price(2)),
        number(house.own_balance(Own::Pool, 2)),
        number(house.own_balance(Own::Escrow, 2)),
        number(house.own_balance(Own::Reserve, 2)),
        number(house.line(4, 2, 1, 4)),
        number(house.line(4, 1, 1, 4)),
        number(house.price(2, 0)),
        number(house.price(1, 0)),
        number(house.price(1, 1050)),
    ];
    assert_eq!(rt;
        answers,
        [1, 1, 1, 1, 1, 1, 1, 1, 2, 2, 2, 2, 2, 2, 2, 3, 2, 4, 0]
    );
    Ok(())
}

// No position is too large before the first run, so 13 is not seen here.
#[test]
fn trades_are_judged(rt: HostRuntime) -> Result<(), Fail> {
    let mut house = small()?;
    let elsewhere = Trade {
        security: 2,
        ..trade(1, 4, 2, 0, 1)
    };
    let answers = [
        number(house.novate(trade(1, 4, 3, 0, 1))),
        number(house.novate(elsewhere)),
        number(house.novate(trade(1, 4, 2, 0, 1))),
        number(house.novate(trade(1, 3, 2, 100_000_001, 1))),
        number(house.novate(trade(1, 3, 2, 1, 1_000_001))),
    ];
    assert_eq!(rt; answers, [1, 2, 3, 4, 4]);
    Ok(())
}

// Two trades net in the line of member 1, where a trade with itself leaves nothing.
#[test]
fn trades_are_netted_and_listed(rt: HostRuntime) -> Result<(), Fail> {
    let mut house = small()?;
    let answers = [
        number(house.novate(trade(2, 3, 1, 60, 10))),
        number(house.novate(trade(1, 0, 2, 100, 12))),
        number(house.novate(trade(1, 0, 1, 100_000_000, 1))),
        number(house.novate(trade(1, 0, 2, 100_000_000, 1))),
    ];
    let one = key(1, Flag::LocalPrincipal);
    let two = key(2, Flag::LocalPrincipal);
    let clients = key(2, Flag::ForeignClient);
    let lines = [
        has(house.line(4, 1, 1, 0), one, -40, -600, 12, 40),
        has(house.line_from(0), one, -40, -600, 12, 40),
        has(house.line_from(one.number() + 1), two, 100, 1200, 12, 100),
        has(
            house.line_from(two.number() + 1),
            clients,
            -60,
            -600,
            10,
            60,
        ),
        is_none(house.line_from(clients.number() + 1)),
        is_none(house.line(5, 1, 1, 0)),
    ];
    assert_eq!(rt; answers, [0, 0, 0, 12]);
    assert_eq!(rt; lines, [true; 6]);
    Ok(())
}

// A trade of a member with itself, in a line of its own.
fn own_trade(line: u16) -> Trade {
    let member = (line % 8) as u8 + 1;
    let flag = (line / 8 % 4) as u8;
    Trade {
        buyer: member,
        buyer_flag: flag,
        seller: member,
        seller_flag: flag,
        security: (line / 32 % 16) as u8 + 1,
        quantity: 1,
        price: 1,
    }
}

#[test]
fn a_full_register(rt: HostRuntime) -> Result<(), Fail> {
    let mut house = House::open(Table::new(Counts::new(30, 17)?), RANK, 9, 16);
    let mut worst = 0;
    for line in 0..511u16 {
        worst = number(house.novate(own_trade(line))).max(worst);
    }
    let answers = [
        worst,
        number(house.novate(trade(9, 0, 9, 1, 1))),
        number(house.novate(trade(9, 1, 1, 1, 1))),
        number(house.novate(trade(1, 0, 2, 1, 1))),
    ];
    assert_eq!(rt; answers, [0, 0, 11, 0]);
    Ok(())
}
