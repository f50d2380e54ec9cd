//! The own log, as it is judged.

ghost use Rattle.std.specs.Prelude.{◌≡◌, [], ◌∷◌, IfOk};
ghost use Rattle.std.specs.List.{AllByRecursion};
ghost use Rattle.ds_model.specs.RecordBytes.{IsAllowed};
ghost use Rattle.log_trans.specs.Damage.{log_damage};
ghost use Rattle.restart_records.specs.Own.{last_number};

use ds_base::{Lrsn, NoMemory};
use ds_model::LogRecord;
use log_record::Log;
use log_trans::{Damaged, find_log_damage};
use std::alloc::Global;

pub fn no_number() -> Lrsn
    ensures { result ≡ 0 }
{
    Lrsn::new(0).unwrap()
}

/// The number of the last record, 0 where there is none.
pub fn last_number(records: &[LogRecord]) -> Lrsn
    ensures { result ≡ last_number records.now }
{
    match records.last() {
        Some(it) => it.lrsn,
        None => no_number(),
    }
}

/// The log, and the first number in it that can't stand there.
pub fn judge(alloc: Global, log: Log) -> Result<(Log, Option<Damaged>), NoMemory>
    requires { AllByRecursion IsAllowed log.records }
    ensures same { IfOk result (λ judged. judged.0 ≡ log) }
    ensures found { IfOk result (λ judged. judged.1 ≡ log_damage (log ∷ [])) }
{
    let mut logs = Vec::new(alloc);
    logs.push(log)?;
    let found = find_log_damage(alloc, &logs)?;
    let Some(log) = logs.pop() else {
        unreachable!()
    };
    Ok((log, found))
}
