ghost use Rattle.std.specs.Prelude.{◌≡◌, IfOk};
ghost use Rattle.ds_model.specs.RecordBytes.{ChangeFits};
ghost use Rattle.group_restart.specs.Records.{IsOfRestart, ended, restart_end, checkpoint, ending, compensation};

use crate::append::Append;
use ds_base::{Lrsn, NoMemory};
use ds_model::{Body, LogRecord, Version};
use log_record::compensation_of;
use restart_plan::{TranNumber, Undo};
use std::alloc::Global;

pub fn ended(lrsn: Lrsn, tran: TranNumber) -> LogRecord
    ensures value { result ≡ ended lrsn tran }
    ensures kind { IsOfRestart result }
{
    LogRecord {
        version: Version::Two,
        lrsn,
        tran: tran.lrsn(),
        body: Body::Ended,
    }
}

fn no_tran() -> Lrsn
    ensures { result ≡ 0 }
{
    let Some(tran) = Lrsn::new(0) else {
        unreachable!()
    };
    tran
}

fn restart_end(lrsn: Lrsn) -> LogRecord
    ensures value { result ≡ restart_end lrsn }
    ensures kind { IsOfRestart result }
{
    LogRecord {
        version: Version::Two,
        lrsn,
        tran: no_tran(),
        body: Body::RestartEnd,
    }
}

fn checkpoint(lrsn: Lrsn, offset: u64) -> LogRecord
    ensures value { result ≡ checkpoint lrsn offset }
    ensures kind { IsOfRestart result }
{
    LogRecord {
        version: Version::Two,
        lrsn,
        tran: no_tran(),
        body: Body::Checkpoint { offset },
    }
}

/// What a log that ends at this byte gets behind all: a Checkpoint whose offset is its own place, and a RestartEnd.
pub fn ending(alloc: Global, lrsn: Lrsn, at: u64) -> Result<Append, NoMemory>
    ensures { IfOk result (λ a. a ≡ ending lrsn at) }
{
    Append::new(alloc)
        .with(checkpoint(lrsn, at))?
        .with(restart_end(lrsn))
}

pub fn compensation(undo: &Undo, lrsn: Lrsn) -> LogRecord
    requires { ChangeFits undo.now.change }
    ensures value { result ≡ compensation undo.now lrsn }
    ensures kind { IsOfRestart result }
{
    LogRecord {
        version: Version::Two,
        lrsn,
        tran: undo.tran.lrsn(),
        body: compensation_of(&undo.change, undo.lrsn),
    }
}
