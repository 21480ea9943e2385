// How a member stands.
ghost use Rattle.std.specs.Prelude.{◌≡◌, ◌+◌, ◌≤◌, unsigned_abs};
ghost use Rattle.rules.specs.Events.{is_bound};
ghost use Rattle.rules.specs.Fit.{MemberFits, most_weight};
ghost use Rattle.rules.specs.State.{call, member, sum_owed};
ghost use Rattle.desk.specs.Passed.{state_of};

use crate::accounts::{CASH, MemberId, Purse};
use book::Book;
use book::shift::holds;
use rules::figures::{Figures, Member};

// The member's record.
pub fn record_of(f: &Figures, m: MemberId) -> Member
    ensures value { result ≡ member f.now m.number }
    ensures fits { MemberFits result }
    ensures within { unsigned_abs result.position + result.advances ≤ most_weight }
{
    f.seats[usize::from(m.number)].member
}

// Its position, if above 0, and its advances.
pub fn sum_owed(f: &Figures, m: MemberId) -> u64
    ensures { result ≡ sum_owed f.now m.number }
{
    let record = record_of(f, m);
    if record.position > 0 {
        record.position.unsigned_abs() + record.advances
    } else {
        record.advances
    }
}

// What its collateral lacks of its requirement.
pub fn call<B: Book>(book: &B, f: &Figures, m: MemberId) -> u64
    ensures { B.good book.now → result ≡ call (state_of f.now (B.ledger book.now)) m.number }
{
    let pledged = holds(book, m.account(Purse::Collateral), CASH);
    record_of(f, m).requirement.saturating_sub(pledged)
}

// Whether it owes, has charges or an unmet call.
pub fn is_bound<B: Book>(book: &B, f: &Figures, m: MemberId) -> bool
    ensures { B.good book.now → result ≡ is_bound (state_of f.now (B.ledger book.now)) m.number }
{
    sum_owed(f, m) > 0 || record_of(f, m).charges > 0 || call(book, f, m) > 0
}
