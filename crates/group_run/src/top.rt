ghost use Rattle.std.specs.Prelude.{◌≡◌, ℕ, true, false, List, [], Option, None};
ghost use Rattle.ds_disk.specs.Contents.{Contents, Becomes};
ghost use Rattle.disk_restart.specs.Keeping.{KeepsRecords};
ghost use Rattle.member_core.specs.declared.member.Member.{Member as AnyMember};
ghost use Rattle.checked_run.specs.Accounts.{no_account};
ghost use Rattle.checked_run.specs.Leading.{kind_of};
ghost use Rattle.checked_run.specs.Outcomes.{IsLeft};
ghost use Rattle.checked_run.specs.Restarted.{IsLeftByRestarts};
ghost use Rattle.group_words.specs.Orders.{AreSizes};
ghost use Rattle.group_words.specs.declared.order.Order.{Order};
ghost use Rattle.group_run.specs.Outside.{outside};
ghost use Rattle.group_run.specs.Prepares.{ordered, IsPrepared, ReadsNothing, IsAllowed, table_to_copy, table_to_recover};
ghost use Rattle.group_run.specs.Tellings.{TellsOutcome};
ghost use Rattle.group_run.specs.Ends.{Tells, Meets, Works, Checks, EndsBy, RestartsAlone, TellsDamage};

use crate::copies::finish_copy;
use crate::finish::{Finished, finish_unopened, tell};
use crate::prepare::{Prepared, Setting, prepare, table_to_copy, table_to_recover};
use crate::recoveries::finish_recovery;
use crate::run::run;
use crate::status::Status;
use crate::telling::{
    Telling, checked_status, fault_status, or_wanting, script_telling, short_telling, telling_of,
};
use checked_run::{Account, Gate, Outcome, Ran, no_account, show_disk};
use disk_orders::check;
use disk_restart::keeping_laws;
use ds_base::{NoMemory, RowList, Sink, Source};
use ds_disk::Disk;
use std::alloc::Global;
use std::sync::Wait;
use std::thread::Threads;
use work_maker::make_script;

// What a call has come to, before it is told.
#[derive(Drop)]
struct Came<D> {
    disk: D,
    opened: bool,
    opening: RowList,
    account: Account,
    telling: Telling,
}

// What a call has come to that opened no disk.
fn unopened<D>(alloc: Global, disk: D, telling: Telling) -> Came<D>
    ensures { result ≡ record { disk = disk; opened = false; opening = []; account = no_account; telling = telling } }
{
    Came {
        disk,
        opened: false,
        opening: RowList::new(alloc),
        account: no_account(alloc),
        telling,
    }
}

// What a call has come to by what became of the disk. The work of a number is told in one line.
fn came_of<D>(alloc: Global, work: Option<u64>, ran: Ran<D>) -> Came<D>
    ensures disk { result.disk ≡ ran.disk }
    ensures account { result.account ≡ ran.account }
    ensures tells { TellsOutcome work ran.outcome result.opened result.opening result.telling }
    ensures left { (before after : Option Contents) → IsLeft ran.outcome before after → result.opened ≡ false → Becomes before after KeepsRecords }
{
    let Ran {
        disk,
        outcome,
        account,
    } = ran;
    match outcome {
        Outcome::Unopened(why) => {
            let telling = short_telling(alloc, fault_status(why));
            Came {
                disk,
                opened: false,
                opening: RowList::new(alloc),
                account,
                telling: or_wanting(alloc, telling),
            }
        }
        Outcome::Opened { opening, ended } => {
            let telling = telling_of(alloc, work, ended);
            Came {
                disk,
                opened: true,
                opening,
                account,
                telling: or_wanting(alloc, telling),
            }
        }
    }
}

// Plays the script of a number.
fn perform_work<R: Threads + Wait + Sync, D: Disk + Drop + Send, G: Gate + Sync>(
    rt: &R,
    alloc: Global,
    disk: D,
    n: u64,
    setting: &Setting,
    gate: &G,
) -> Came<D>
    requires sizes { AreSizes setting.now.sizes }
    requires untraced { setting.now.trace ≡ false }
    requires seeded { setting.now.seed ≡ Some n }
    ensures works { Works (kind_of AnyMember D.alive D.contents D.faults) n
        (D.contents disk) (D.faults disk) (D.faults result.disk) (D.contents result.disk)
        result.opened result.opening result.account result.telling }
    ensures left { result.opened ≡ false → Becomes (D.contents disk) (D.contents result.disk) KeepsRecords }
    ensures restarts { result.opened ≡ false → IsLeftByRestarts D.alive D.contents disk (TellsDamage result.telling.status) result.disk }
{
    keeping_laws();
    match make_script(alloc, n) {
        Err(NoMemory) => unopened(alloc, disk, or_wanting(alloc, Err(NoMemory))),
        Ok(script) => came_of(alloc, Some(n), run(rt, alloc, disk, &script, setting, gate)),
    }
}

// Checks a disk.
fn perform_check<D: Disk>(alloc: Global, mut disk: D) -> Came<D>
    ensures checks { Checks (D.contents disk) (D.contents result.disk) (D.faults disk) (D.faults result.disk) result.telling }
    ensures unopened { (result.opened ≡ false) × (result.opening ≡ []) × (result.account ≡ no_account) }
    ensures left { Becomes (D.contents disk) (D.contents result.disk) KeepsRecords }
    ensures restarts { IsLeftByRestarts D.alive D.contents disk (TellsDamage result.telling.status) result.disk }
{
    keeping_laws();
    let told = check(alloc, &mut disk);
    let telling = short_telling(alloc, checked_status(told));
    unopened(alloc, disk, or_wanting(alloc, telling))
}

// All that a call does behind the words and the script, but tell it, for an order that is neither a copy of a table nor its recovery.
fn perform<R: Threads + Wait + Sync, D: Disk + Drop + Send, G: Gate + Sync>(
    rt: &R,
    alloc: Global,
    prepared: Prepared,
    disk: D,
    gate: &G,
) -> Came<D>
    requires allowed { IsAllowed prepared }
    requires uncopied { table_to_copy prepared ≡ None }
    requires unrecovered { table_to_recover prepared ≡ None }
    ensures meets { (o : Option Order) (left left_now : Option (List ℕ)) (faults faults_now : ℕ) → IsPrepared o prepared left left_now faults faults_now → (ReadsNothing o → left_now ≡ left)
        → Meets (kind_of AnyMember D.alive D.contents D.faults) o
        (outside left faults (D.contents disk) (D.alive disk) (D.faults disk))
        (outside left_now faults_now (D.contents result.disk) (D.alive result.disk) (D.faults result.disk))
        result.telling.status result.telling.text result.opened result.opening result.account result.telling.report }
    ensures left { result.opened ≡ false → Becomes (D.contents disk) (D.contents result.disk) KeepsRecords }
    ensures restarts { (o : Option Order) (left left_now : Option (List ℕ)) (faults faults_now : ℕ) → IsPrepared o prepared left left_now faults faults_now → RestartsAlone o result.opened
        → IsLeftByRestarts D.alive D.contents disk (TellsDamage result.telling.status) result.disk }
{
    keeping_laws();
    match prepared {
        Prepared::Ended(met) => {
            let telling = short_telling(alloc, met);
            unopened(alloc, disk, or_wanting(alloc, telling))
        }
        Prepared::Make(n) => {
            let telling = script_telling(alloc, n);
            unopened(alloc, disk, or_wanting(alloc, telling))
        }
        Prepared::Show => came_of(alloc, None, show_disk(alloc, disk)),
        Prepared::Play(script, setting) => {
            came_of(alloc, None, run(rt, alloc, disk, &script, &setting, gate))
        }
        Prepared::Work(n, setting) => perform_work(rt, alloc, disk, n, &setting, gate),
        Prepared::Check => perform_check(alloc, disk),
        Prepared::Copy(_) | Prepared::Recover(_) => unreachable!(),
    }
}

// Tells what a call has come to.
fn finish<D, K: Sink>(sink: &mut K, came: Came<D>) -> Finished<D>
    requires { came.telling.status ≡ Status.SinkFailed → ⊥ }
    ensures told { Tells came.telling.status result.status came.telling.text (K.taken sink.old) (K.taken sink.new) (K.faults sink.old) (K.faults sink.new) }
    ensures rest { result ≡ record { status = result.status; opened = came.opened; disk = came.disk; report = came.telling.report; journal = came.account.journal; causes = came.account.causes; faults = came.account.faults; opening = came.opening } }
{
    let Came {
        disk,
        opened,
        opening,
        account,
        telling,
    } = came;
    let Account {
        journal,
        causes,
        faults,
    } = account;
    let Telling {
        status,
        text,
        report,
    } = telling;
    Finished {
        status: tell(sink, status, text.as_slice()),
        opened,
        disk,
        report,
        journal,
        causes,
        faults,
        opening,
    }
}

/// Does what the words order: plays the script of the source on the disk, or shows the disk, and writes the report to the sink;
/// or plays the script of a number, and writes how many transactions met which fate; or writes the script of a number; or checks the
/// disk, and writes whether it is sound; or writes an image of a table; or makes a table anew
/// from the image that is left of the source, and writes how many pages it has.
///
/// The words are the command line without the program's name. For a script the source is read to its end, or to the first byte past
/// the longest script. Then the logs of the disk are read, and a group restart opens it; the script is run; another group restart
/// closes the disk. The report is held against the script, the rows before and the logs, and where it isn't sound the status says so.
/// The sink gets the report, its one line for the work of a number, or the one line of a status.
///
/// With a seed this thread plays all, and no gate is passed. Without one each member of a phase has a thread, which passes the gate
/// before each of its events.
pub fn play<R: Threads + Wait + Sync, S: Source, K: Sink, D: Disk + Drop + Send, G: Gate + Sync>(
    rt: &R,
    alloc: Global,
    words: &[String],
    source: &mut S,
    sink: &mut K,
    disk: D,
    gate: &G,
) -> Finished<D>
    ensures ends { EndsBy (kind_of AnyMember D.alive D.contents D.faults) (ordered words.now)
        (outside (S.left source.old) (S.faults source.old) (D.contents disk) (D.alive disk) (D.faults disk))
        (outside (S.left source.new) (S.faults source.new) (D.contents result.disk) (D.alive result.disk) (D.faults result.disk))
        result.status result.opened result.opening
        (record { journal = result.journal; causes = result.causes; faults = result.faults })
        result.report
        (K.taken sink.old) (K.taken sink.new) (K.faults sink.old) (K.faults sink.new) }
    // What the logs of a disk say of rows isn't touched where no run began.
    ensures left { result.opened ≡ false → Becomes (D.contents disk) (D.contents result.disk) KeepsRecords }
    // There, and where the rows are shown, nothing but group restarts writes to it; and damage that is told of was met in its logs, or
    // by such a restart.
    ensures restarts { RestartsAlone (ordered words.now) result.opened → IsLeftByRestarts D.alive D.contents disk (TellsDamage result.status) result.disk }
{
    keeping_laws();
    match prepare(alloc, words, source) {
        Err(NoMemory) => finish_unopened(alloc, disk, Status::NoMemory),
        Ok(prepared) => match table_to_copy(&prepared) {
            Some(table) => finish_copy(alloc, disk, sink, table),
            None => match table_to_recover(&prepared) {
                Some(table) => finish_recovery(alloc, source, disk, sink, table),
                None => finish(sink, perform(rt, alloc, prepared, disk, gate)),
            },
        },
    }
}
