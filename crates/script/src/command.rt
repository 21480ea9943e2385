// The commands of a script.
#[derive(Clone, Copy, Debug, PartialEq, Eq)]
pub enum Command {
    // Make an empty table.
    Table { accounts: u8, assets: u8 },
    // Do this with the book.
    OnBook(BookCommand),
}

// What a script does with a book.
#[derive(Clone, Copy, Debug, PartialEq, Eq)]
pub enum BookCommand {
    // An amount from outside to an account.
    Put {
        account: u8,
        asset: u8,
        amount: u64,
    },
    // An amount from an account to outside.
    Pull {
        account: u8,
        asset: u8,
        amount: u64,
    },
    // An amount from one account to another.
    Move {
        from: u8,
        to: u8,
        asset: u8,
        amount: u64,
    },
    // What an account holds of an asset?
    Balance {
        account: u8,
        asset: u8,
    },
    // What do all accounts hold?
    Balances,
}
