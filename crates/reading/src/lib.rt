// The answers to questions, from figures and a book.
#![tactic(auto)]

ghost use Rattle.std.specs.Prelude.{◌≡◌, None};
ghost use Rattle.register.specs.Asking.{line_asked};
ghost use Rattle.register.specs.Netting.{flag_of};
ghost use Rattle.rules.specs.Questions.{line_answer, member_answer, security_answer};
ghost use Rattle.rules.specs.State.{call, close, in_escrow, member, sum_owed};
ghost use Rattle.desk.specs.Accounts.{account_of};
ghost use Rattle.desk.specs.Asked.{Tells, asset_answer, member_asset_answer, member_security_answer};
ghost use Rattle.desk.specs.Passed.{state_of};

use book::Book;
use book::shift::holds;
use desk::accounts::Purse;
use desk::judging::{judge_flag, known_asset, known_member, known_security};
use desk::standing::{call, record_of, sum_owed};
use rank::key::Key;
use register::line::Line;
use register::trade::flag_of;
use rules::fault::HouseFault;
use rules::figures::{Figures, Member};

// The line of a due day, security, member and flag; an unknown line is none.
pub fn line_of(
    f: &Figures,
    due: u32,
    security: u8,
    m: u8,
    flag: u8,
) -> Result<Option<Line>, HouseFault>
    ensures { Tells None (line_answer f.now security m flag) (line_asked f.now.register (record { due = due; security = security; member = m; flag = flag_of flag })) result }
{
    known_member(f, m)?;
    known_security(f, security)?;
    judge_flag(flag)?;
    Ok(f.register.find(Key::new(due, security, m, flag_of(flag))))
}

pub fn member_of(f: &Figures, m: u8) -> Result<Member, HouseFault>
    ensures { Tells None (member_answer f.now m) (member f.now m) result }
{
    Ok(record_of(f, known_member(f, m)?))
}

pub fn owed_of(f: &Figures, m: u8) -> Result<u64, HouseFault>
    ensures { Tells None (member_answer f.now m) (sum_owed f.now m) result }
{
    Ok(sum_owed(f, known_member(f, m)?))
}

pub fn call_of<B: Book>(book: &B, f: &Figures, m: u8) -> Result<u64, HouseFault>
    ensures { B.good book.now → Tells None (member_answer f.now m) (call (state_of f.now (B.ledger book.now)) m) result }
{
    Ok(call(book, f, known_member(f, m)?))
}

pub fn in_escrow_of(f: &Figures, m: u8, security: u8) -> Result<u64, HouseFault>
    ensures { Tells None (member_security_answer f.now m security) (in_escrow f.now m security) result }
{
    let m = usize::from(known_member(f, m)?.number);
    let security = usize::from(known_security(f, security)?.number);
    Ok(f.seats[m].escrow.shares[security])
}

pub fn close_of(f: &Figures, security: u8) -> Result<u32, HouseFault>
    ensures { Tells None (security_answer f.now security) (close f.now security) result }
{
    let security = known_security(f, security)?;
    Ok(f.closes[usize::from(security.number)])
}

// What a member has of an asset on an account of its own.
pub fn balance_of<B: Book>(
    book: &B,
    f: &Figures,
    m: u8,
    purse: Purse,
    asset: u8,
) -> Result<u64, HouseFault>
    ensures { B.good book.now → Tells None (member_asset_answer f.now m asset) ((B.ledger book.now).held (account_of purse m) asset) result }
{
    let m = known_member(f, m)?;
    let asset = known_asset(f, asset)?;
    Ok(holds(book, m.account(purse), asset))
}

// What one of the house's own accounts holds.
pub fn own_balance<B: Book>(
    book: &B,
    f: &Figures,
    account: u8,
    asset: u8,
) -> Result<u64, HouseFault>
    ensures { B.good book.now → Tells None (asset_answer f.now asset) ((B.ledger book.now).held account asset) result }
{
    Ok(holds(book, account, known_asset(f, asset)?))
}
