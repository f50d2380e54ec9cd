//! Whether a disk of files still answers, and how often it has failed.
ghost use Rattle.std.specs.Prelude.{◌≡◌, true, false, IfOk, IfErr, IsErr, Ok};
ghost use Rattle.ds_disk.specs.declared.disk.DiskError.TheVariants.{Failed};
ghost use Rattle.ds_file_disk.specs.Conditions.{failed, died};

use ds_disk::DiskError;
use std::io;
use std::marker::Model;

#[derive(Drop)]
pub struct Health {
    alive: bool,
    faults: u64,
}

impl Model for Health {
    ghost use Rattle.ds_file_disk.specs.Conditions.{Condition};

    ghost Value = { Condition };

    ghost view = { λ h. record { alive = h.alive; faults = h.faults } };
}

impl Health {
    pub fn new() -> Health
        ensures { result ≡ record { alive = true; faults = 0 } }
    {
        Health {
            alive: true,
            faults: 0,
        }
    }

    /// Counts a failure.
    fn fail(&mut self) -> DiskError
        ensures error { result ≡ Failed }
        ensures condition { self.new ≡ failed self.old }
    {
        self.faults = self.faults.saturating_add(1);
        DiskError::Failed
    }

    /// A dead disk fails in each call.
    pub fn check(&mut self) -> Result<(), DiskError>
        ensures ok { IfOk result (λ _. (self.old.alive ≡ true) × (self.new ≡ self.old)) }
        ensures err { IfErr result (λ e. (e ≡ Failed) × (self.old.alive ≡ false) × (self.new ≡ failed self.old)) }
    {
        if self.alive { Ok(()) } else { Err(self.fail()) }
    }

    /// The answer of a call that has changed nothing so far.
    pub fn looked<T>(&mut self, done: io::Result<T>) -> Result<T, DiskError>
        ensures ok { IfOk result (λ found. (done ≡ Ok found) × (self.new ≡ self.old)) }
        ensures err { IfErr result (λ e. (e ≡ Failed) × IsErr done × (self.new ≡ failed self.old)) }
    {
        match done {
            Ok(found) => Ok(found),
            Err(_) => Err(self.fail()),
        }
    }

    /// The answer of a call that may have changed something.
    pub fn written(&mut self, done: io::Result<()>) -> Result<(), DiskError>
        ensures ok { IfOk result (λ _. (done ≡ Ok tt) × (self.new ≡ self.old)) }
        ensures err { IfErr result (λ e. (e ≡ Failed) × IsErr done × (self.new ≡ died self.old)) }
    {
        match done {
            Ok(()) => Ok(()),
            Err(_) => {
                let error = self.fail();
                self.alive = false;
                Err(error)
            }
        }
    }
}
