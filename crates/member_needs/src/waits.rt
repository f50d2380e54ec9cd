//! Waits of transactions for one another.

ghost use Rattle.std.specs.Prelude.{◌≡◌};
ghost use Rattle.member_needs.specs.Waits.{tran_test, wait_need, unwait_need};

use ds_base::TranId;
use member_intents::{Command, Sent, Test};
use member_marks::{Marks, Owner};

// The slot has a transaction.
fn test_tran(marks: &Marks, slot: u8) -> Result<(), Test>
    ensures { result ≡ tran_test marks.now slot }
{
    if marks.tran(&Owner::Slot(slot)).number == 0 {
        return Err(Test::NoTransaction);
    }
    Ok(())
}

pub fn wait_need(marks: &Marks, slot: u8, holder: TranId, flag: u8) -> Result<Sent, Test>
    ensures { result ≡ wait_need marks.now slot holder flag }
{
    test_tran(marks, slot)?;
    Ok(Sent::Command(Command::Wait {
        tran: marks.tran(&Owner::Slot(slot)),
        holder,
        flag,
    }))
}

pub fn unwait_need(marks: &Marks, slot: u8) -> Result<Sent, Test>
    ensures { result ≡ unwait_need marks.now slot }
{
    test_tran(marks, slot)?;
    Ok(Sent::Command(Command::Unwait {
        tran: marks.tran(&Owner::Slot(slot)),
    }))
}
