//! The logs, as they are read.

ghost use Rattle.std.specs.Prelude.{◌≡◌, IfOk, OnOk};
ghost use Rattle.std.specs.List.{AllByRecursion};
ghost use Rattle.ds_base.specs.declared.names.Volume.TheVariants as volume;
ghost use Rattle.ds_model.specs.RecordBytes.{IsAllowed};
ghost use Rattle.rebuild_resources.specs.declared.told.RebuildTold.TheVariants as told;
ghost use Rattle.rebuild_resources.specs.Logs.{logs_read, TakesWhole, TakesLog};

use crate::{Rebuild, RebuildTold};
use checkpoint_reader::{CheckpointReader, LogRead, LogReply};
use ds_base::{MemberId, NoMemory, Volume};
use log_merge::merge;
use log_record::Log;
use page_records::by_page;
use restart_plan::{Logs, Queue};
use std::alloc::Global;

fn damaged(member: MemberId, at: u64) -> RebuildTold
    ensures { result ≡ told.Damaged (volume.Log member) at }
{
    RebuildTold::Damaged {
        volume: Volume::Log(member),
        at,
    }
}

impl Rebuild {
    // All logs are read: the pages that they name follow from them.
    #[tactic(auto, unfolding(crate::specs::Logs::logs_read))]
    fn enter_logs(&mut self, alloc: Global) -> Result<(), NoMemory>
        ensures { OnOk result (self.new ≡ logs_read self.old) }
    {
        let merged = merge(alloc, self.logs.as_slice())?;
        let pages = by_page(alloc, merged.records())?;
        self.pages = Queue::of(alloc, pages)?;
        self.merged = Some(merged);
        self.logs = Logs::new(alloc);
        Ok(())
    }

    // The next log follows, if there is one.
    #[tactic(auto, unfolding(crate::specs::Logs::TakesWhole))]
    fn take_whole(&mut self, alloc: Global, log: Log) -> Result<RebuildTold, NoMemory>
        requires { AllByRecursion IsAllowed log.records }
        ensures { IfOk result (λ said. TakesWhole self.old log said self.new) }
    {
        self.logs.add(log)?;
        match MemberId::new(self.reader.member().number() + 1) {
            Some(member) => {
                self.reader = CheckpointReader::new(alloc, member, self.known.of(member))?;
                Ok(RebuildTold::LogBlock)
            }
            None => {
                self.enter_logs(alloc)?;
                Ok(RebuildTold::LogsWhole)
            }
        }
    }

    /// Takes the disk's reply about the log that is read. After `NoMemory` the rebuild is given up.
    pub(crate) fn take_log(
        &mut self,
        alloc: Global,
        reply: LogReply,
    ) -> Result<RebuildTold, NoMemory>
        ensures { IfOk result (λ said. TakesLog self.old reply said self.new) }
    {
        match self.reader.take(alloc, reply)? {
            LogRead::More => Ok(RebuildTold::LogBlock),
            LogRead::Bad { at } => Ok(damaged(self.reader.member(), at)),
            LogRead::Whole(log) => self.take_whole(alloc, log),
        }
    }
}
