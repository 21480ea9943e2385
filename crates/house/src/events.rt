// What a house is told. A house that was refused at its opening answers every event by that refusal.
ghost use Rattle.rules.specs.declared.event.Event.TheVariants.{Bring, Take, Endow, Pledge, Refund, Contribute, Novate, Price};
ghost use Rattle.rules.specs.Faults.{answer_of};
ghost use Rattle.house.specs.Seen.{Told};

use crate::asking::opened;
use crate::house::House;
use book::Book;
use desk::accounts::Purse;
use moving::accounts;
use moving::pricing::set_close;
use rank::Rank;
use register::trade::Trade;
use rules::fault::HouseFault;
use trading::netting;

impl<B: Book, R: Rank> House<B, R> {
    // An amount from outside into the member's settlement account.
    pub fn bring(&mut self, member: u8, asset: u8, amount: u64) -> Result<(), HouseFault>
        ensures { Told B.good B.ledger R.goes (Bring member asset amount) self.old (answer_of result) self.new }
    {
        let figures = opened(&self.state)?;
        accounts::bring(&mut self.book, figures, member, asset, amount)
    }

    // An amount from the member's settlement account to outside.
    pub fn take(&mut self, member: u8, asset: u8, amount: u64) -> Result<(), HouseFault>
        ensures { Told B.good B.ledger R.goes (Take member asset amount) self.old (answer_of result) self.new }
    {
        let figures = opened(&self.state)?;
        accounts::take(&mut self.book, figures, member, asset, amount)
    }

    // Cash from outside into the reserve.
    pub fn endow(&mut self, amount: u64) -> Result<(), HouseFault>
        ensures { Told B.good B.ledger R.goes (Endow amount) self.old (answer_of result) self.new }
    {
        opened(&self.state)?;
        accounts::endow(&mut self.book, amount)
    }

    // Cash from the member's settlement account to its collateral.
    pub fn pledge(&mut self, member: u8, amount: u64) -> Result<(), HouseFault>
        ensures { Told B.good B.ledger R.goes (Pledge member amount) self.old (answer_of result) self.new }
    {
        let figures = opened(&self.state)?;
        accounts::set_aside(&mut self.book, figures, member, Purse::Collateral, amount)
    }

    // Cash from the member's settlement account to its contribution.
    pub fn contribute(&mut self, member: u8, amount: u64) -> Result<(), HouseFault>
        ensures { Told B.good B.ledger R.goes (Contribute member amount) self.old (answer_of result) self.new }
    {
        let figures = opened(&self.state)?;
        accounts::set_aside(&mut self.book, figures, member, Purse::Contribution, amount)
    }

    // Cash from the member's collateral to its settlement account.
    pub fn refund(&mut self, member: u8, amount: u64) -> Result<(), HouseFault>
        ensures { Told B.good B.ledger R.goes (Refund member amount) self.old (answer_of result) self.new }
    {
        let figures = opened(&self.state)?;
        accounts::refund(&mut self.book, figures, member, amount)
    }

    // A trade of today, netted into the lines of both sides.
    pub fn novate(&mut self, trade: Trade) -> Result<(), HouseFault>
        ensures { Told B.good B.ledger R.goes (Novate trade) self.old (answer_of result) self.new }
    {
        let figures = match &mut self.state {
            Ok(figures) => figures,
            Err(fault) => return Err(*fault),
        };
        netting::novate(figures, trade)
    }

    // The closing price of a security.
    pub fn price(&mut self, security: u8, price: u32) -> Result<(), HouseFault>
        ensures { Told B.good B.ledger R.goes (Price security price) self.old (answer_of result) self.new }
    {
        let figures = match &mut self.state {
            Ok(figures) => figures,
            Err(fault) => return Err(*fault),
        };
        set_close(figures, security, price)
    }
}
