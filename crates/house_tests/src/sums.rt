// Sums and differences of what a house answers. That none of them passes its type is shown from the bounds of the figures,
// which every house keeps and its callers see (of `places` from what the two calls tell alone): no function here tests for
// it, or has a proof of its own.
use crate::tests::{small, trade};
use book::Book;
use house::house::House;
use rank::Rank;
use rules::fault::HouseFault;
use std::test::Fail;

fn tomorrow<B: Book, R: Rank>(house: &House<B, R>) -> Result<u32, HouseFault> {
    Ok(house.day()? + 1)
}

// How many fails there are with one more.
fn next_fail<B: Book, R: Rank>(house: &House<B, R>) -> Result<u32, HouseFault> {
    Ok(house.fails()? + 1)
}

// What two members are to pledge.
fn requirements<B: Book, R: Rank>(house: &House<B, R>) -> Result<u64, HouseFault> {
    let one = house.member(1)?.requirement;
    let two = house.member(2)?.requirement;
    Ok(one + two)
}

// What a member still owes of the sum that it owed at noon.
fn still_late<B: Book, R: Rank>(house: &House<B, R>) -> Result<u64, HouseFault> {
    let member = house.member(1)?;
    Ok(member.owed - member.late)
}

// What two members owe.
fn owed<B: Book, R: Rank>(house: &House<B, R>) -> Result<u64, HouseFault> {
    Ok(house.owed(1)? + house.owed(2)?)
}

// A price and half of it.
fn price_and_half<B: Book, R: Rank>(house: &House<B, R>) -> Result<u32, HouseFault> {
    let price = house.closing_price(1)?;
    Ok(price + price / 2)
}

fn places<B: Book, R: Rank>(house: &House<B, R>) -> Result<usize, HouseFault> {
    Ok(house.lines()? + house.free_places()?)
}

#[test]
fn sums_of_answers(rt: HostRuntime) -> Result<(), Fail> {
    let mut house = small()?;
    house.novate(trade(1, 0, 2, 5, 100))?;
    house.price(1, 100)?;
    let money = [requirements(&house)?, still_late(&house)?, owed(&house)?];
    assert_eq!(rt; tomorrow(&house)?, 2);
    assert_eq!(rt; next_fail(&house)?, 1);
    assert_eq!(rt; money, [0, 0, 0]);
    assert_eq!(rt; price_and_half(&house)?, 150);
    assert_eq!(rt; places(&house)?, 512);
    Ok(())
}
