// What every list of movements does to the sums of a book's assets.
ghost use Rattle.book.specs.Ledger.{most_amount};
ghost use Rattle.book.specs.Laws.{TotalsFollow, TotalsWithin};

// The laws of the totals of any book. The function does nothing: its contract asks for their proof.
pub fn totals_hold()
    ensures follow { TotalsFollow }
    ensures within { TotalsWithin most_amount }
{}
