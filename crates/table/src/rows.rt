// The rows of a table: each account's balances.
ghost use Rattle.std.specs.Prelude.{◌≡◌, ℕ, ◌<◌, if◌then◌else◌, nat_eq, slice_index};
ghost use Rattle.book.specs.Ledger.{with_held, most_accounts, most_assets};
ghost use Rattle.table.specs.Rows.{cell};

pub(crate) const ACCOUNTS: usize = 75;

const ASSETS: usize = 17;

// One account's balances, one for each asset.
#[derive(Clone, Copy)]
pub(crate) struct Row {
    cells: [u64; ASSETS],
}

// Where a balance stands.
#[derive(Clone, Copy)]
pub(crate) struct Place {
    pub(crate) account: u8,
    pub(crate) asset: u8,
}

impl Row {
    pub(crate) fn get(&self, asset: u8) -> u64
        ensures { result ≡ slice_index self.now.cells asset }
    {
        let asset = usize::from(asset);
        if asset < ASSETS { self.cells[asset] } else { 0 }
    }

    fn set(&mut self, asset: u8, balance: u64)
        ensures { asset < most_assets → (y : ℕ) → slice_index self.new.cells y ≡ (if nat_eq y asset then balance else slice_index self.old.cells y) }
    {
        let asset = usize::from(asset);
        if asset < ASSETS {
            self.cells[asset] = balance;
        }
    }
}

// Rows of which every balance is 0.
pub(crate) fn empty_rows() -> [Row; ACCOUNTS]
    ensures { (a s : ℕ) → cell result a s ≡ 0 }
{
    [Row { cells: [0; ASSETS] }; ACCOUNTS]
}

// The balance at a place: 0 beyond the rows.
pub(crate) fn balance_at(rows: &[Row; ACCOUNTS], place: Place) -> u64
    ensures { result ≡ cell rows.now place.account place.asset }
{
    let account = usize::from(place.account);
    if account < ACCOUNTS {
        rows[account].get(place.asset)
    } else {
        0
    }
}

// Writes the balance at a place.
pub(crate) fn write(rows: &mut [Row; ACCOUNTS], place: Place, balance: u64)
    ensures { place.account < most_accounts → place.asset < most_assets → cell rows.new ≡ with_held (cell rows.old) place.account place.asset balance }
{
    let account = usize::from(place.account);
    if account < ACCOUNTS {
        rows[account].set(place.asset, balance);
    }
}
