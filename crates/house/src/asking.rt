// The figures of a house. A house that was refused at its opening answers every question by that refusal.
ghost use Rattle.std.specs.Prelude.{◌≡◌, MatchResult};
ghost use Rattle.register.specs.Asking.{line_asked, line_from};
ghost use Rattle.register.specs.Netting.{flag_of};
ghost use Rattle.rules.specs.Faults.{accepted};
ghost use Rattle.rules.specs.Questions.{free_places, line_answer, member_answer, security_answer};
ghost use Rattle.rules.specs.State.{call, close, in_escrow, member, sum_owed, today};
ghost use Rattle.desk.specs.Accounts.{account_of, own_account};
ghost use Rattle.desk.specs.Asked.{Tells, asset_answer, member_asset_answer, member_security_answer};
ghost use Rattle.desk.specs.Passed.{state_of};

use crate::house::House;
use book::Book;
use desk::accounts::{Own, Purse};
use rank::Rank;
use reading::{
    balance_of, call_of, close_of, in_escrow_of, line_of, member_of, owed_of, own_balance,
};
use register::line::Line;
use rules::fault::HouseFault;
use rules::figures::{Figures, Member, Phase, Size};

// The figures of a house that was opened, or why it was refused.
pub(crate) fn opened(state: &Result<Figures, HouseFault>) -> Result<&Figures, HouseFault>
    ensures { MatchResult result (λ f. state.now ≡ Ok f.now) (λ x. state.now ≡ Err x) }
{
    match state {
        Ok(figures) => Ok(figures),
        Err(fault) => Err(*fault),
    }
}

impl<B: Book, R: Rank> House<B, R> {
    // How many members and securities the house has.
    pub fn size(&self) -> Result<Size, HouseFault>
        ensures { Tells self.now.refusal accepted self.now.figures.size result }
    {
        Ok(opened(&self.state)?.size)
    }

    pub fn day(&self) -> Result<u32, HouseFault>
        ensures { Tells self.now.refusal accepted (today self.now.figures) result }
    {
        Ok(opened(&self.state)?.clock.day)
    }

    pub fn phase(&self) -> Result<Phase, HouseFault>
        ensures { Tells self.now.refusal accepted self.now.figures.clock.phase result }
    {
        Ok(opened(&self.state)?.clock.phase)
    }

    // The fails that have begun.
    pub fn fails(&self) -> Result<u32, HouseFault>
        ensures { Tells self.now.refusal accepted self.now.figures.fails result }
    {
        Ok(opened(&self.state)?.fails)
    }

    // How many lines the register has.
    pub fn lines(&self) -> Result<usize, HouseFault>
        ensures { Tells self.now.refusal accepted self.now.figures.register.count result }
    {
        Ok(opened(&self.state)?.register.len())
    }

    // The places of the register that are free.
    pub fn free_places(&self) -> Result<usize, HouseFault>
        ensures { Tells self.now.refusal accepted (free_places self.now.figures) result }
    {
        Ok(opened(&self.state)?.register.free())
    }

    // The line of a due day, security, member and flag; an unknown line is none.
    pub fn line(
        &self,
        due: u32,
        security: u8,
        member: u8,
        flag: u8,
    ) -> Result<Option<Line>, HouseFault>
        ensures { Tells self.now.refusal (line_answer self.now.figures security member flag) (line_asked self.now.figures.register (record { due = due; security = security; member = member; flag = flag_of flag })) result }
    {
        line_of(opened(&self.state)?, due, security, member, flag)
    }

    // The line whose key has the smallest number from a number on. Asked again from the next number, it lists all lines by
    // rising key.
    pub fn line_from(&self, number: u64) -> Result<Option<Line>, HouseFault>
        ensures { Tells self.now.refusal accepted (line_from self.now.figures.register number) result }
    {
        Ok(opened(&self.state)?.register.line_from(number))
    }

    // The movements that the book will still take.
    pub fn space(&self) -> Result<u32, HouseFault>
        ensures { Tells self.now.refusal accepted (B.ledger self.now.book).space result }
    {
        opened(&self.state)?;
        Ok(self.book.space())
    }

    // A member's position, advances, charges, fails with their growth, and requirement.
    pub fn member(&self, m: u8) -> Result<Member, HouseFault>
        ensures { Tells self.now.refusal (member_answer self.now.figures m) (member self.now.figures m) result }
    {
        member_of(opened(&self.state)?, m)
    }

    // The sum that a member owes.
    pub fn owed(&self, m: u8) -> Result<u64, HouseFault>
        ensures { Tells self.now.refusal (member_answer self.now.figures m) (sum_owed self.now.figures m) result }
    {
        owed_of(opened(&self.state)?, m)
    }

    // What a member's collateral lacks of its requirement.
    pub fn call(&self, m: u8) -> Result<u64, HouseFault>
        ensures { B.good self.now.book → Tells self.now.refusal (member_answer self.now.figures m) (call (state_of self.now.figures (B.ledger self.now.book)) m) result }
    {
        call_of(&self.book, opened(&self.state)?, m)
    }

    // What a member has of an asset on an account of its own.
    pub fn balance(&self, m: u8, purse: Purse, asset: u8) -> Result<u64, HouseFault>
        ensures { B.good self.now.book → Tells self.now.refusal (member_asset_answer self.now.figures m asset) ((B.ledger self.now.book).held (account_of purse m) asset) result }
    {
        balance_of(&self.book, opened(&self.state)?, m, purse, asset)
    }

    // The shares of a security that escrow holds in a member's name.
    pub fn in_escrow(&self, m: u8, security: u8) -> Result<u64, HouseFault>
        ensures { Tells self.now.refusal (member_security_answer self.now.figures m security) (in_escrow self.now.figures m security) result }
    {
        in_escrow_of(opened(&self.state)?, m, security)
    }

    // The standing closing price of a security, 0 while there is none.
    pub fn closing_price(&self, security: u8) -> Result<u32, HouseFault>
        ensures { Tells self.now.refusal (security_answer self.now.figures security) (close self.now.figures security) result }
    {
        close_of(opened(&self.state)?, security)
    }

    // What an account of the house itself holds of an asset.
    pub fn own_balance(&self, own: Own, asset: u8) -> Result<u64, HouseFault>
        ensures { B.good self.now.book → Tells self.now.refusal (asset_answer self.now.figures asset) ((B.ledger self.now.book).held (own_account own) asset) result }
    {
        own_balance(&self.book, opened(&self.state)?, own.account(), asset)
    }
}
