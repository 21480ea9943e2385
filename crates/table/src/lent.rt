// A caller that is lent a table, and shows nothing of it before it calls: that a table is sound, its type says.
ghost use Rattle.std.specs.Prelude.{◌≡◌};
ghost use Rattle.book.specs.Ledger.{Sound};
ghost use Rattle.book.specs.Movement.{Put, Carried};
ghost use Rattle.book.specs.Faults.{answer_number};
ghost use Rattle.table.specs.Meaning.{meaning};

use crate::Table;
use book::Book;
use book::counts::Counts;
use book::fault::BookFault;
use std::test::Fail;

fn put_one(t: &mut Table) -> Result<(), BookFault>
    ensures carried { Carried (Put 0 1 1) (meaning t.old) (answer_number result) (meaning t.new) }
    ensures sound { Sound (meaning t.new) }
{
    t.put(0, 1, 1)
}

#[test]
fn a_lent_table_is_sound(rt: HostRuntime) -> Result<(), Fail> {
    let mut t = Table::new(Counts::new(2, 2)?);
    assert_eq!(rt; put_one(&mut t), Ok(()));
    assert_eq!(rt; put_one(&mut t), Ok(()));
    assert_eq!(rt; t.balance(0, 1), Ok(2));
    assert_eq!(rt; put_one(&mut Table::smallest()), Err(BookFault::NoAsset));
    Ok(())
}
