ghost use Rattle.std.specs.Prelude.{◌≡◌, [], ◌∷◌, ◌++◌, IfOk};
ghost use Rattle.std.specs.List.{AllByRecursion};
ghost use Rattle.ds_model.specs.RecordBytes.{IsAllowed, log_bytes};
ghost use Rattle.group_restart.specs.Records.{IsOfRestart};

use ds_base::{Bytes, NoMemory};
use ds_model::{LogRecord, RecordList};
use log_record::put_record;
use std::alloc::Global;
use std::marker::Model;

/// Records that are appended to a log at once.
#[derive(Drop)]
pub struct Append {
    records: RecordList,
    bytes: Bytes,
}

impl Model for Append {
    ghost use Rattle.std.specs.Prelude.{List};
    ghost use Rattle.ds_model.specs.declared.log.LogRecord.{LogRecord};
    ghost use Rattle.group_restart.specs.Records.{AreSpelled};

    ghost Value = { List LogRecord };

    ghost view = { λ a. a.records };

    ghost invariant = { λ a. AreSpelled a.records a.bytes };
}

impl Append {
    pub fn new(alloc: Global) -> Append
        ensures { result ≡ [] }
    {
        Append {
            records: RecordList::new(alloc),
            bytes: Bytes::new(alloc),
        }
    }

    /// One record more.
    pub fn with(self, it: LogRecord) -> Result<Append, NoMemory>
        requires { IsOfRestart it }
        ensures { IfOk result (λ a. a ≡ self ++ it ∷ []) }
    {
        let Append {
            mut records,
            mut bytes,
        } = self;
        put_record(&mut bytes, &it)?;
        records.push(it)?;
        Ok(Append { records, bytes })
    }

    pub fn bytes(&self) -> &[u8]
        ensures bytes { result.now ≡ log_bytes self.now }
        ensures records { AllByRecursion IsOfRestart self.now }
        ensures allowed { AllByRecursion IsAllowed self.now }
    {
        self.bytes.as_slice()
    }
}
