//! The own log, as it is read.

ghost use Rattle.std.specs.Prelude.{◌≡◌, [], ◌∷◌, IfOk, OnOk};
ghost use Rattle.ds_base.specs.declared.names.Volume.TheVariants.{Log as LogVolume};
ghost use Rattle.std.specs.List.{AllByRecursion};
ghost use Rattle.ds_model.specs.RecordBytes.{IsAllowed};
ghost use Rattle.log_trans.specs.Damage.{log_damage};
ghost use Rattle.restart_records.specs.Given.{IsRead};
ghost use Rattle.restart_marks.specs.declared.told.RestartTold.TheVariants as told;
ghost use Rattle.restart_marks.specs.State.{with_own};
ghost use Rattle.restart_marks.specs.Reading.{entered, judged_told, judged_after, read_told, read_after, read_on_told, read_on_after};

use crate::marks::RestartMarks;
use crate::told::RestartTold;
use ds_base::{MemberId, NoMemory, Volume};
use log_record::Log;
use log_trans::{Damaged, greatest_number, open_trans};
use restart_records::{
    CheckpointReader, LogRead, LogReply, judge, last_number, place_in, places_of,
};
use std::alloc::Global;

fn damaged(member: MemberId, at: u64) -> RestartTold
    ensures { result ≡ told.Damaged (LogVolume member) at }
{
    RestartTold::Damaged {
        volume: Volume::Log(member),
        at,
    }
}

impl RestartMarks {
    // The log is read, and sound.
    fn enter_log(&mut self, alloc: Global, log: Log) -> Result<(), NoMemory>
        ensures { OnOk result (self.new ≡ entered self.old log) }
    {
        let opened = open_trans(alloc, &log)?;
        let places = places_of(alloc, log.records())?;
        let last = last_number(log.records());
        let counter = greatest_number(&log);
        self.names.need_trans(opened.as_slice())?;
        self.trans.add_all(opened)?;
        self.log.start_at(last);
        self.counter = counter;
        self.own.finish(log, places);
        Ok(())
    }

    fn enter_judged(
        &mut self,
        alloc: Global,
        log: Log,
        found: Option<Damaged>,
    ) -> Result<RestartTold, NoMemory>
        requires { AllByRecursion IsAllowed log.records }
        ensures told { IfOk result (λ said. said ≡ judged_told log found) }
        ensures after { OnOk result (self.new ≡ judged_after self.old log found) }
    {
        match found {
            Some(damage) => Ok(damaged(log.member, place_in(&log, damage.at)?)),
            None => {
                self.enter_log(alloc, log)?;
                Ok(RestartTold::LogWhole)
            }
        }
    }

    fn enter_whole(&mut self, alloc: Global, log: Log) -> Result<RestartTold, NoMemory>
        requires { AllByRecursion IsAllowed log.records }
        ensures told { IfOk result (λ said. said ≡ judged_told log (log_damage (log ∷ []))) }
        ensures after { OnOk result (self.new ≡ judged_after self.old log (log_damage (log ∷ []))) }
    {
        let (log, found) = judge(alloc, log)?;
        self.enter_judged(alloc, log, found)
    }

    // What the reader, which is taken out, has read.
    fn enter_read(
        &mut self,
        alloc: Global,
        reader: CheckpointReader,
        read: LogRead,
    ) -> Result<RestartTold, NoMemory>
        requires { IsRead reader read }
        ensures told { IfOk result (λ said. said ≡ read_told reader) }
        ensures after { OnOk result (self.new ≡ read_after self.old reader) }
    {
        match read {
            LogRead::More => {
                self.own.put_reader(reader);
                Ok(RestartTold::LogBlock)
            }
            LogRead::Whole(log) => self.enter_whole(alloc, log),
            LogRead::Bad { at } => Ok(damaged(reader.member(), at)),
        }
    }

    /// Takes the disk's reply about the own log. After `NoMemory` and `Damaged` it is given up.
    pub fn read_on(&mut self, alloc: Global, reply: LogReply) -> Result<RestartTold, NoMemory>
        ensures told { IfOk result (λ said. said ≡ read_on_told self.old reply) }
        ensures after { OnOk result (self.new ≡ read_on_after self.old reply) }
    {
        let Some(mut reader) = self.own.take_reader() else {
            return Ok(RestartTold::Stepped);
        };
        let read = reader.take(alloc, reply)?;
        self.enter_read(alloc, reader, read)
    }

    /// What followed the whole records of the own log is cut.
    pub fn tail_cut(&mut self) -> RestartTold
        ensures told { result ≡ told.TailCut }
        ensures after { self.new ≡ with_own self.old (record self.old.own { tail = 0 }) }
    {
        self.own.cut();
        RestartTold::TailCut
    }
}
