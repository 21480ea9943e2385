// How a house is opened and closed.
ghost use Rattle.std.specs.Prelude.{◌≡◌, ◌≤◌, ◌==◌};
ghost use Rattle.book.specs.Ledger.{sum_to};
ghost use Rattle.rules.specs.Events.{book_sum, open_answer, suits};
ghost use Rattle.rules.specs.Fit.{Fit};
ghost use Rattle.rules.specs.Limits.{most_members, most_securities};
ghost use Rattle.house.specs.Seen.{refusal_in, figures_in};
ghost use Rattle.house.specs.Opened.{OpenedBy, bad_counts};

use crate::house::House;
use crate::making::new_figures;
use book::Book;
use book::shift::holds;
use rank::Rank;
use rules::fault::HouseFault;
use rules::figures::Figures;

const MOST_MEMBERS: u8 = 24;

const MOST_SECURITIES: u8 = 16;

// Whether an account holds nothing.
fn is_bare<B: Book>(book: &B, account: u8) -> bool
    ensures { B.good book.now → result ≡ (sum_to (B.ledger book.now).assets ((B.ledger book.now).held account) == 0) }
{
    for asset in 0..book.assets() {
        if holds(book, account, asset) > 0 {
            return false;
        }
    }
    true
}

// Whether all balances are 0.
fn is_empty<B: Book>(book: &B) -> bool
    ensures { B.good book.now → result ≡ (book_sum (B.ledger book.now) == 0) }
{
    for account in 0..book.accounts() {
        if !is_bare(book, account) {
            return false;
        }
    }
    true
}

fn bad_counts(members: u8, securities: u8) -> bool
    ensures { result ≡ bad_counts members securities }
{
    members == 0 || members > MOST_MEMBERS || securities == 0 || securities > MOST_SECURITIES
}

// Whether a house of these counts can be opened over a book.
fn suits<B: Book>(book: &B, members: u8, securities: u8) -> bool
    requires few_members { members ≤ most_members }
    requires few_securities { securities ≤ most_securities }
    ensures { B.good book.now → result ≡ suits (B.ledger book.now) members securities }
{
    book.accounts() == 3 * members + 3 && book.assets() == securities + 1 && is_empty(book)
}

// The figures of a house of these counts over a book, or why it is refused.
fn begin<B: Book>(book: &B, members: u8, securities: u8) -> Result<Figures, HouseFault>
    ensures opened { B.good book.now → OpenedBy (B.ledger book.now) members securities (refusal_in result) (figures_in result) }
    ensures fit { Fit (figures_in result) }
{
    if bad_counts(members, securities) {
        return Err(HouseFault::BadCounts);
    }
    if !suits(book, members, securities) {
        return Err(HouseFault::UnfitBook);
    }
    Ok(new_figures(members, securities))
}

impl<B: Book, R: Rank> House<B, R> {
    // A house of so many members and securities over a book, in any case. One that is refused answers every later call by its
    // refusal, but for `close`; nobody reads its figures.
    pub fn open(book: B, rank: R, members: u8, securities: u8) -> House<B, R>
        ensures opened { B.good book → OpenedBy (B.ledger book) members securities result.refusal result.figures }
        ensures book { result.book ≡ book }
        ensures rank { result.rank ≡ rank }
    {
        let state = begin(&book, members, securities);
        House { book, rank, state }
    }

    // Why the house was refused at its opening, if it was.
    pub fn refusal(&self) -> Option<HouseFault>
        ensures { result ≡ self.now.refusal }
    {
        self.state.as_ref().err().copied()
    }

    // Hands the book and the rank back, of any house.
    pub fn close(self) -> (B, R)
        ensures book { result.0 ≡ self.book }
        ensures rank { result.1 ≡ self.rank }
    {
        let House {
            book,
            rank,
            state: _,
        } = self;
        (book, rank)
    }
}
