ghost use Rattle.std.specs.Prelude.{◌≡◌, true, IfOk};
ghost use Rattle.tran_history.specs.Histories.{has_committed};

use ds_base::{Bytes, MemberId, RowList, TableId, Value};
use ds_model::{Answer, Entry, Fate, Op, OpList, Reads, Tran};
use std::alloc::Global;
use std::test::Fail;
use tran_history::{History, replay};

// A transaction has read a row where there is none, for nobody yet.
fn a_wrong_read(alloc: Global) -> Result<History, Fail>
    ensures { IfOk result (λ history. has_committed history.entries 1 ≡ true) }
{
    let mut ops = OpList::new(alloc);
    ops.push(Op::Get {
        table: TableId::new(1).unwrap(),
        key: 10,
    })?;
    let mut reads = Reads::new(alloc);
    reads.push(Answer::Value(Value::new(alloc, b"a")?))?;
    let mut history = History::new(alloc, 1)?;
    history.push(Entry {
        member: MemberId::new(1).unwrap(),
        tran: Tran {
            name: Bytes::new(alloc),
            number: 1,
            wait: true,
            ops,
        },
        fate: Fate::Committed {
            answered: false,
            reads,
        },
    });
    Ok(history)
}

/// Whether one thread, from no rows on, reads what is answered.
fn is_replayed(alloc: Global, history: &History) -> Result<bool, Fail> {
    let nothing = RowList::new(alloc);
    Ok(replay(alloc, &nothing, history)?.is_some())
}

#[test]
fn what_is_answered_must_be_what_one_thread_reads(rt: HostRuntime) -> Result<(), Fail> {
    let alloc = rt.alloc();
    let mut history = a_wrong_read(alloc)?;
    assert!(rt; is_replayed(alloc, &history)?);
    history.answer(1);
    assert!(rt; !is_replayed(alloc, &history)?);
    Ok(())
}
