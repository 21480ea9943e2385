ghost use Rattle.std.specs.Prelude.{◌≡◌, ◌+◌, ◌-◌, ◌<◌, ◌≤◌, length, IfOk, OnOk};
ghost use Rattle.feed.specs.Readings.{field as field_of, number, high_first};
ghost use Rattle.feed.specs.Format.{head as head_of, flag as flag_of, reference as reference_of, trade_fields as trade_of, close_fields as close_of, entry as entry_of, end as end_of};
ghost use Rattle.feed.specs.Shown.{told_if_any};
ghost use Rattle.feed.specs.Steps.{Step, itself, held};

use crate::entry::{Entry, MOST_REFERENCE};
use crate::fault::FeedFault;
use crate::reader::Reader;
use rank::key::Flag;

impl<'a> Reader<'a> {
    /// A reader at a place of the bytes.
    pub(crate) fn at(bytes: &'a [u8], place: usize) -> Reader<'a>
        requires { place ≤ length bytes.now }
        ensures { (result.bytes.now ≡ bytes.now) × (result.place ≡ place) }
    {
        Reader { bytes, place }
    }

    /// The place reached.
    pub(crate) fn place(&self) -> usize
        ensures { result ≡ self.now.place }
    {
        self.place
    }

    /// A field of n bytes.
    fn field(&mut self, n: usize) -> Result<&'a [u8], FeedFault>
        ensures step { Step held (field_of n) self.old self.new result }
        ensures whole { IfOk result (λ s. length s.now ≡ n) }
    {
        let part = self.bytes[self.place..]
            .get(..n)
            .ok_or(FeedFault::CutShort)?;
        self.place += n;
        Ok(part)
    }

    /// A field of N bytes, as its bytes and as the number that they spell, high byte first.
    fn fixed<const N: usize>(&mut self) -> Result<[u8; N], FeedFault>
        ensures bytes { Step itself (field_of N) self.old self.new result }
        ensures spelled { Step (high_first N) (number N) self.old self.new result }
    {
        let bytes = self.field(N)?;
        Ok(*bytes.as_array().unwrap())
    }

    /// A number of 32 bits.
    fn word(&mut self) -> Result<u32, FeedFault>
        ensures { Step itself (number 4) self.old self.new result }
    {
        Ok(u32::from_be_bytes(self.fixed()?))
    }

    fn flag(&mut self) -> Result<Flag, FeedFault>
        ensures { Step itself flag_of self.old self.new result }
    {
        let letters = self.field(2)?;
        Flag::try_from(letters).or(Err(FeedFault::FlagLetters))
    }

    /// The length of a reference, and the reference.
    fn reference(&mut self) -> Result<&'a [u8], FeedFault>
        ensures { Step held reference_of self.old self.new result }
    {
        let length = u8::from_be_bytes(self.fixed()?) as usize;
        if length < 1 || length > MOST_REFERENCE {
            return Err(FeedFault::Length);
        }
        self.field(length)
    }

    /// The fields of a trade.
    fn trade(&mut self) -> Result<Option<Entry<'a>>, FeedFault>
        ensures { Step told_if_any trade_of self.old self.new result }
    {
        let reference = self.reference()?;
        let buyer = u8::from_be_bytes(self.fixed()?);
        let buyer_flag = self.flag()?;
        let seller = u8::from_be_bytes(self.fixed()?);
        let seller_flag = self.flag()?;
        let security = u8::from_be_bytes(self.fixed()?);
        let quantity = self.word()?;
        let price = self.word()?;
        Ok(Some(Entry::Trade {
            reference,
            buyer,
            buyer_flag,
            seller,
            seller_flag,
            security,
            quantity,
            price,
        }))
    }

    /// The fields of a closing price.
    fn close(&mut self) -> Result<Option<Entry<'a>>, FeedFault>
        ensures { Step told_if_any close_of self.old self.new result }
    {
        let security = u8::from_be_bytes(self.fixed()?);
        let price = self.word()?;
        Ok(Some(Entry::Close { security, price }))
    }

    /// The entry at the place reached, or none at the letter that ends the feed.
    pub(crate) fn entry(&mut self) -> Result<Option<Entry<'a>>, FeedFault>
        ensures step { Step told_if_any entry_of self.old self.new result }
        ensures on { OnOk result (self.old.place < self.new.place) }
    {
        match &self.fixed()? {
            b"T" => self.trade(),
            b"C" => self.close(),
            b"Z" => Ok(None),
            _ => Err(FeedFault::Kind),
        }
    }

    /// The mark and the version.
    pub(crate) fn head(&mut self) -> Result<(), FeedFault>
        ensures { Step itself head_of self.old self.new result }
    {
        if self.fixed()? != *b"TRF" {
            return Err(FeedFault::Mark);
        }
        if u16::from_be_bytes(self.fixed()?) != 1 {
            return Err(FeedFault::Version);
        }
        Ok(())
    }

    /// Nothing may follow.
    pub(crate) fn end(&self) -> Result<(), FeedFault>
        ensures { result ≡ end_of self.now.bytes.now self.now.place }
    {
        if self.place < self.bytes.len() {
            return Err(FeedFault::AfterEnd);
        }
        Ok(())
    }
}
