// What a caller knows by a type alone, and shows nothing of: that a table is sound, also one under a house that is lent, and
// that the places behind a register's lines are empty, also in a house. No function here has a proof of its own.
ghost use Rattle.std.specs.Prelude.{◌≡◌, ℕ, ◌≤◌, take};
ghost use Rattle.table.specs.Meaning.{meaning};
ghost use Rattle.register.specs.Dropping.{register_of};
ghost use Rattle.register.specs.Lines.{line, no_line};
ghost use Rattle.rules.specs.Faults.{answer_of};
ghost use Rattle.rules.specs.declared.event.Event.TheVariants.{Endow};
ghost use Rattle.house.specs.Handled.{AnsweredBy};

use crate::tests::{small, trade};
use book::Book;
use desk::accounts::{CASH, Own};
use house::house::House;
use rank::Rank;
use register::Register;
use rules::fault::HouseFault;
use std::test::Fail;
use table::Table;

fn endow<R: Rank>(house: &mut House<Table, R>, amount: u64) -> Result<(), HouseFault>
    ensures { AnsweredBy house.old.refusal (R.goes house.old.rank) (Endow amount) house.old.figures (meaning house.old.book) (answer_of result) house.new.figures (meaning house.new.book) }
{
    house.endow(amount)
}

fn handed_on<B: Book, R: Rank>(house: House<B, R>) -> House<B, R>
    ensures { result.figures.register ≡ register_of (take result.figures.register.count result.figures.register.lines) }
{
    house
}

fn places_behind(register: Register) -> usize
    ensures { (i : ℕ) → register.count ≤ i → line register i ≡ no_line }
{
    register.free()
}

#[test]
fn a_house_over_a_lent_table(rt: HostRuntime) -> Result<(), Fail> {
    let mut house = small()?;
    assert_eq!(rt; endow(&mut house, 0), Err(HouseFault::BadAmount));
    endow(&mut house, 70)?;
    assert_eq!(rt; house.own_balance(Own::Reserve, CASH)?, 70);
    Ok(())
}

#[test]
fn empty_places(rt: HostRuntime) -> Result<(), Fail> {
    let mut house = small()?;
    house.novate(trade(1, 0, 2, 5, 100))?;
    assert_eq!(rt; handed_on(house).free_places()?, 510);
    assert_eq!(rt; places_behind(Register::empty()), 512);
    Ok(())
}
