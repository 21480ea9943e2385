// Rows of amounts: what an account of a house holds of each asset, and what escrow holds in a member's name of each security.
ghost use Rattle.std.specs.Prelude.{◌≡◌, ℕ, ◌-◌, IfOk, string_bytes};
ghost use Rattle.desk.specs.Accounts.{account_of};
ghost use Rattle.desk.specs.Passed.{state_of};
ghost use Rattle.statement.specs.Rows.{cash_on, escrowed_amount, guarantee_text, holdings_text, member_text, own_amount, own_text, row_text, settled_amount};

use book::Book;
use desk::accounts::{CASH, Purse};
use house::house::House;
use rank::Rank;
use std::alloc::{AllocError, Global};

// An account of the house itself.
pub use desk::accounts::Own;

// So many amounts, from a place up to another, each after a space.
pub(crate) fn row<F: Fn(u8) -> u64>(
    heap: Global,
    amount: F,
    from: u8,
    to: u8,
) -> Result<String, AllocError>
    requires { F.IsAlwaysCallable amount }
    ensures { (a : ℕ → ℕ) → ((place n : ℕ) → F.post amount place n → n ≡ a place) → IfOk result (λ text. string_bytes text ≡ row_text a from (to - from)) }
{
    let mut text = String::new(heap);
    for place in from..to {
        let word = format!(in heap; " {}", amount(place))?;
        text.push_str(word.as_str())?;
    }
    Ok(text)
}

// The amounts at a place of such a row. Nothing is shown of what the house has not.
fn own_amount<B: Book, R: Rank>(house: &House<B, R>, own: Own, place: u8) -> u64
    ensures { B.good house.now.book → result ≡ own_amount house.now.refusal (state_of house.now.figures (B.ledger house.now.book)) own place }
{
    house.own_balance(own, place).unwrap_or(0)
}

fn settled_amount<B: Book, R: Rank>(house: &House<B, R>, member: u8, place: u8) -> u64
    ensures { B.good house.now.book → result ≡ settled_amount house.now.refusal (state_of house.now.figures (B.ledger house.now.book)) member place }
{
    house.balance(member, Purse::Settlement, place).unwrap_or(0)
}

fn escrowed_amount<B: Book, R: Rank>(house: &House<B, R>, member: u8, place: u8) -> u64
    ensures { B.good house.now.book → result ≡ escrowed_amount house.now.refusal (state_of house.now.figures (B.ledger house.now.book)) member place }
{
    house.in_escrow(member, place).unwrap_or(0)
}

// What an account of the house holds of so many assets.
pub fn own_line<B: Book, R: Rank>(
    heap: Global,
    house: &House<B, R>,
    own: Own,
    assets: u8,
) -> Result<String, AllocError>
    ensures { B.good house.now.book → IfOk result (λ text. string_bytes text ≡ own_text house.now.refusal (state_of house.now.figures (B.ledger house.now.book)) own assets) }
{
    let amounts = row(heap, |place| own_amount(house, own, place), 0, assets)?;
    format!(in heap; "{own}{amounts}")
}

// The cash of a member on an account of its own. Nothing is shown of what the house has not.
fn cash_of<B: Book, R: Rank>(house: &House<B, R>, member: u8, purse: Purse) -> u64
    ensures { B.good house.now.book → result ≡ cash_on house.now.refusal (state_of house.now.figures (B.ledger house.now.book)) member (account_of purse member) }
{
    house.balance(member, purse, CASH).unwrap_or(0)
}

// A member's cash behind its obligations, and a row of what escrow holds in its name.
fn guarantee_text(
    heap: Global,
    pledged: u64,
    contributed: u64,
    escrowed: &str,
) -> Result<String, AllocError>
    ensures { IfOk result (λ text. string_bytes text ≡ guarantee_text pledged contributed escrowed.now) }
{
    format!(in heap; "collateral {pledged} contribution {contributed} escrow{escrowed}")
}

// A member's row of what it has in settlement, and its guarantees.
fn member_text(
    heap: Global,
    member: u8,
    settled: &str,
    guarantee: &str,
) -> Result<String, AllocError>
    ensures { IfOk result (λ text. string_bytes text ≡ member_text member settled.now guarantee.now) }
{
    format!(in heap; "member {member} settlement{settled} {guarantee}")
}

// What a member holds of so many assets.
pub fn holdings_line<B: Book, R: Rank>(
    heap: Global,
    house: &House<B, R>,
    member: u8,
    assets: u8,
) -> Result<String, AllocError>
    ensures { B.good house.now.book → IfOk result (λ text. string_bytes text ≡ holdings_text house.now.refusal (state_of house.now.figures (B.ledger house.now.book)) member assets) }
{
    let settled = row(
        heap,
        |place| settled_amount(house, member, place),
        0,
        assets,
    )?;
    let escrowed = row(
        heap,
        |place| escrowed_amount(house, member, place),
        1,
        assets,
    )?;
    let pledged = cash_of(house, member, Purse::Collateral);
    let contributed = cash_of(house, member, Purse::Contribution);
    let guarantee = guarantee_text(heap, pledged, contributed, escrowed.as_str())?;
    member_text(heap, member, settled.as_str(), guarantee.as_str())
}
