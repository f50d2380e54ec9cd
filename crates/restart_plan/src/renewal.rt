ghost use Rattle.std.specs.Prelude.{◌≡◌, ◌-◌, length, slice_get};
ghost use Rattle.std.specs.List.{list_any};
ghost use Rattle.ds_model.specs.declared.log.LogRecord.{LogRecord};
ghost use Rattle.restart_plan.specs.Renewal.{is_old, is_ended, asks_behind, asks_renewal, must_renew};

use crate::opened::is_end;
use ds_model::{LogRecord, Version};
use log_record::Log;

fn is_old(it: &LogRecord) -> bool
    ensures { result ≡ is_old it.now }
{
    matches!(it.version, Version::One)
}

fn has_old(records: &[LogRecord]) -> bool
    ensures { result ≡ list_any (λ (r : LogRecord). is_old r) records.now }
{
    records.iter().any(|it| is_old(it))
}

fn is_ended(records: &[LogRecord]) -> bool
    ensures { result ≡ is_ended (slice_get records.now (length records.now - 1)) }
{
    match records.last() {
        Some(last) => is_end(last),
        None => false,
    }
}

/// Whether a log of which the last records were read, and which may have one of version 1 before them, has a record of version 1
/// and doesn't end with a RestartEnd of version 2.
pub fn asks_behind(is_old_before: bool, log: &Log) -> bool
    ensures { result ≡ asks_behind is_old_before log.now }
{
    (is_old_before || has_old(log.records())) && !is_ended(log.records())
}

fn asks_renewal(log: &Log) -> bool
    ensures { result ≡ asks_renewal log.now }
{
    asks_behind(false, log)
}

/// Whether one of the logs has a record of version 1 and doesn't end with a RestartEnd of version 2: pages of version 1 may
/// stand on the disk.
pub fn must_renew(logs: &[Log]) -> bool
    ensures { result ≡ must_renew logs.now }
{
    logs.iter().any(|log| asks_renewal(log))
}
