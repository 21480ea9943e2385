// What a house tells of its figures.
ghost use Rattle.std.specs.Prelude.{◌≡◌};
ghost use Rattle.rules.specs.Faults.{accepted};
ghost use Rattle.rules.specs.Questions.{member_answer, security_answer};
ghost use Rattle.desk.specs.Asked.{Tells};
ghost use Rattle.desk.specs.Passed.{state_of};
ghost use Rattle.sheet.specs.Members.{standing_of};
ghost use Rattle.sheet.specs.Overview.{closing_of, overview_of};

use book::Book;
use house::house::House;
use rank::Rank;
use rules::fault::HouseFault;
use sheet::member::Standing;
use sheet::overview::{Closing, Overview};

// Where the house stands.
pub fn overview<B: Book, R: Rank>(house: &House<B, R>) -> Result<Overview, HouseFault>
    ensures { Tells house.now.refusal accepted (overview_of house.now.figures (B.ledger house.now.book)) result }
{
    Ok(Overview {
        day: house.day()?,
        phase: house.phase()?,
        fails: house.fails()?,
        space: house.space()?,
        lines: house.lines()?,
    })
}

// The closing price of a security.
pub fn closing<B: Book, R: Rank>(house: &House<B, R>, security: u8) -> Result<Closing, HouseFault>
    ensures { Tells house.now.refusal (security_answer house.now.figures security) (closing_of house.now.figures security) result }
{
    let price = house.closing_price(security)?;
    Ok(Closing { security, price })
}

// How a member stands.
pub fn standing<B: Book, R: Rank>(house: &House<B, R>, member: u8) -> Result<Standing, HouseFault>
    ensures { B.good house.now.book → Tells house.now.refusal (member_answer house.now.figures member) (standing_of (state_of house.now.figures (B.ledger house.now.book)) member) result }
{
    Ok(Standing {
        member,
        figures: house.member(member)?,
        call: house.call(member)?,
        owed: house.owed(member)?,
    })
}
