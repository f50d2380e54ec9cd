ghost use Rattle.std.specs.Prelude.{◌≡◌, [], ◌∷◌, ◌++◌, OnOk, OnErr};
ghost use Rattle.std.specs.List.{AllByRecursion};
ghost use Rattle.ds_model.specs.RecordBytes.{IsAllowed};
ghost use Rattle.log_trans.specs.Damage.{AreAllowed};

use ds_base::NoMemory;
use log_record::Log;
use std::alloc::Global;
use std::marker::Model;

/// Logs that were read.
#[derive(Drop)]
pub struct Logs {
    logs: Vec<Log>,
}

impl Model for Logs {
    ghost use Rattle.std.specs.Prelude.{List};
    ghost use Rattle.log_record.specs.declared.log.Log.{Log};
    ghost use Rattle.log_trans.specs.Damage.{AreAllowed};

    ghost Value = { List Log };

    ghost view = { λ l. l.logs.items };

    ghost invariant = { λ l. AreAllowed l.logs.items };
}

impl Logs {
    pub fn new(alloc: Global) -> Logs
        ensures { result ≡ [] }
    {
        Logs {
            logs: Vec::new(alloc),
        }
    }

    pub fn add(&mut self, log: Log) -> Result<(), NoMemory>
        requires { AllByRecursion IsAllowed log.records }
        ensures ok { OnOk result (self.new ≡ self.old ++ log ∷ []) }
        ensures err { OnErr result (self.new ≡ self.old) }
    {
        self.logs.push(log)?;
        Ok(())
    }

    pub fn as_slice(&self) -> &[Log]
        ensures value { result.now ≡ self.now }
        ensures allowed { AreAllowed self.now }
    {
        &self.logs
    }
}
