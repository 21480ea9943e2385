// The account events, over a book and figures: the house judges by itself first, then the book takes the movement or refuses it.
ghost use Rattle.std.specs.Prelude.{◌≡◌};
ghost use Rattle.book.specs.Movement.{Put, Pull, Move};
ghost use Rattle.rules.specs.Faults.{answer_of};
ghost use Rattle.rules.specs.State.{cash, collateral, reserve, settlement};
ghost use Rattle.desk.specs.Accounts.{account_of};
ghost use Rattle.desk.specs.Judged.{bring_judged, take_judged, endow_judged, pledge_judged, refund_judged};
ghost use Rattle.desk.specs.Passed.{Passed, state_of};

use book::Book;
use book::shift::holds;
use desk::accounts::{CASH, Own, Purse};
use desk::judging::{judge_amount, known_asset, known_member};
use desk::standing::{is_bound, record_of};
use rules::fault::HouseFault;
use rules::figures::Figures;

// From outside into the member's settlement account.
pub fn bring<B: Book>(
    book: &mut B,
    f: &Figures,
    member: u8,
    asset: u8,
    amount: u64,
) -> Result<(), HouseFault>
    ensures passed { B.good book.old → Passed (bring_judged f.now member asset amount) (Put (settlement member) asset amount) (B.ledger book.old) (answer_of result) (B.ledger book.new) }
    ensures stays { B.good book.old → B.good book.new }
{
    let member = known_member(f, member)?;
    let asset = known_asset(f, asset)?;
    judge_amount(amount)?;
    book.put(member.account(Purse::Settlement), asset, amount)?;
    Ok(())
}

// From the member's settlement account to outside, unless the member is bound.
pub fn take<B: Book>(
    book: &mut B,
    f: &Figures,
    member: u8,
    asset: u8,
    amount: u64,
) -> Result<(), HouseFault>
    ensures passed { B.good book.old → Passed (take_judged (state_of f.now (B.ledger book.old)) member asset amount) (Pull (settlement member) asset amount) (B.ledger book.old) (answer_of result) (B.ledger book.new) }
    ensures stays { B.good book.old → B.good book.new }
{
    let member = known_member(f, member)?;
    let asset = known_asset(f, asset)?;
    judge_amount(amount)?;
    if is_bound(book, f, member) {
        return Err(HouseFault::Bound);
    }
    book.pull(member.account(Purse::Settlement), asset, amount)?;
    Ok(())
}

// Cash from outside into the reserve.
pub fn endow<B: Book>(book: &mut B, amount: u64) -> Result<(), HouseFault>
    ensures passed { B.good book.old → Passed (endow_judged amount) (Put reserve cash amount) (B.ledger book.old) (answer_of result) (B.ledger book.new) }
    ensures stays { B.good book.old → B.good book.new }
{
    judge_amount(amount)?;
    book.put(Own::Reserve.account(), CASH, amount)?;
    Ok(())
}

// Cash from the member's settlement account to another account of its own: it pledges, or contributes.
pub fn set_aside<B: Book>(
    book: &mut B,
    f: &Figures,
    member: u8,
    purse: Purse,
    amount: u64,
) -> Result<(), HouseFault>
    ensures passed { B.good book.old → Passed (pledge_judged f.now member amount) (Move (settlement member) (account_of purse member) cash amount) (B.ledger book.old) (answer_of result) (B.ledger book.new) }
    ensures stays { B.good book.old → B.good book.new }
{
    let member = known_member(f, member)?;
    judge_amount(amount)?;
    let from = member.account(Purse::Settlement);
    book.transfer(from, member.account(purse), CASH, amount)?;
    Ok(())
}

// Cash from the member's collateral to its settlement account, as long as the requirement stays covered.
pub fn refund<B: Book>(book: &mut B, f: &Figures, member: u8, amount: u64) -> Result<(), HouseFault>
    ensures passed { B.good book.old → Passed (refund_judged (state_of f.now (B.ledger book.old)) member amount) (Move (collateral member) (settlement member) cash amount) (B.ledger book.old) (answer_of result) (B.ledger book.new) }
    ensures stays { B.good book.old → B.good book.new }
{
    let member = known_member(f, member)?;
    judge_amount(amount)?;
    let pledged = holds(book, member.account(Purse::Collateral), CASH);
    if pledged < record_of(f, member).requirement + amount {
        return Err(HouseFault::BelowRequirement);
    }
    let to = member.account(Purse::Settlement);
    book.transfer(member.account(Purse::Collateral), to, CASH, amount)?;
    Ok(())
}
