ghost use Rattle.std.specs.Prelude.{◌≡◌, Some, IfOk};
ghost use Rattle.group_words.specs.Orders.{AreSizes, HasSizes};
ghost use Rattle.group_run.specs.Prepares.{ordered, setting_of, IsPrepared, IsPreparedToPlay, ReadsNothing, LeavesSource, IsAllowed, table_to_copy, table_to_recover};

use crate::status::Status;
use ds_base::{NoMemory, Sizes, Source, TableId};
use ds_model::Script;
use group_words::{Order, WordsFault, read_words, size_laws};
use script_text::{ScriptError, read_script};
use std::alloc::Global;
use whole_streams::{ReadError, read_all};

/// The bytes of the longest script.
const SCRIPT_LIMIT: usize = 4_194_304;

/// How a script is to be played.
#[derive(Clone, Copy, Debug, PartialEq, Eq)]
pub struct Setting {
    pub sizes: Sizes,
    /// Settles the order of the events. Without one each member of a phase has a thread.
    pub seed: Option<u64>,
    pub trace: bool,
}

/// What is ready to run, or the status that was met before.
#[derive(Drop)]
pub enum Prepared {
    Play(Script, Setting),
    Show,
    /// The script of this number is to be written.
    Make(u64),
    /// The script of this number is to be played, and the line of its fates written.
    Work(u64, Setting),
    /// The disk is to be checked.
    Check,
    /// An image of this table is to be written.
    Copy(TableId),
    /// This table is to be made anew from the image in the source.
    Recover(TableId),
    Ended(Status),
}

fn setting_of(sizes: Sizes, seed: Option<u64>, trace: bool) -> Setting
    ensures { result ≡ setting_of sizes seed trace }
{
    Setting { sizes, seed, trace }
}

// Settles the source, and then the script.
fn prepare_to_play<S: Source>(
    alloc: Global,
    source: &mut S,
    setting: Setting,
) -> Result<Prepared, NoMemory>
    requires { AreSizes setting.sizes }
    ensures prepared { IfOk result (λ p. IsPreparedToPlay setting p (S.left source.old) (S.left source.new) (S.faults source.old) (S.faults source.new)) }
    ensures allowed { IfOk result IsAllowed }
{
    let bytes = match read_all(alloc, source, SCRIPT_LIMIT) {
        Err(ReadError::NoMemory) => return Err(NoMemory),
        Err(ReadError::Failed) => return Ok(Prepared::Ended(Status::SourceFailed)),
        Ok(bytes) => bytes,
    };
    match read_script(alloc, &bytes, setting.sizes.members) {
        Err(ScriptError::NoMemory) => Err(NoMemory),
        Err(ScriptError::Fault(fault)) => Ok(Prepared::Ended(Status::ScriptRefused(fault))),
        Ok(script) => Ok(Prepared::Play(script, setting)),
    }
}

// Settles what the words order.
fn prepare_order<S: Source>(
    alloc: Global,
    order: &Order,
    source: &mut S,
) -> Result<Prepared, NoMemory>
    requires { HasSizes order.now }
    ensures prepared { IfOk result (λ p. IsPrepared (Some order.now) p (S.left source.old) (S.left source.new) (S.faults source.old) (S.faults source.new)) }
    ensures unread { ReadsNothing (Some order.now) → S.left source.new ≡ S.left source.old }
    ensures unmoved { LeavesSource (Some order.now) (S.left source.old) (S.left source.new) (S.faults source.old) (S.faults source.new) }
    ensures allowed { IfOk result IsAllowed }
{
    match order {
        Order::Play { sizes, seed, trace } => {
            prepare_to_play(alloc, source, setting_of(*sizes, *seed, *trace))
        }
        Order::Show => Ok(Prepared::Show),
        Order::Make { n } => Ok(Prepared::Make(*n)),
        Order::Check => Ok(Prepared::Check),
        Order::Copy { table } => Ok(Prepared::Copy(*table)),
        Order::Recover { table } => Ok(Prepared::Recover(*table)),
        Order::Work { n, sizes } => Ok(Prepared::Work(*n, setting_of(*sizes, Some(*n), false))),
    }
}

/// Settles the words and then what they order: for a script the source and the script. No disk is touched before. The image of a recovery isn't read yet.
pub fn prepare<S: Source>(
    alloc: Global,
    words: &[String],
    source: &mut S,
) -> Result<Prepared, NoMemory>
    ensures prepared { IfOk result (λ p. IsPrepared (ordered words.now) p (S.left source.old) (S.left source.new) (S.faults source.old) (S.faults source.new)) }
    ensures unread { ReadsNothing (ordered words.now) → S.left source.new ≡ S.left source.old }
    ensures unmoved { LeavesSource (ordered words.now) (S.left source.old) (S.left source.new) (S.faults source.old) (S.faults source.new) }
    ensures allowed { IfOk result IsAllowed }
{
    size_laws();
    match read_words(alloc, words) {
        Err(WordsFault::NoMemory) => Err(NoMemory),
        Err(WordsFault::Refused) => Ok(Prepared::Ended(Status::WordsRefused)),
        Ok(order) => prepare_order(alloc, &order, source),
    }
}

/// The table of which an image is to be written, if one is.
pub fn table_to_copy(prepared: &Prepared) -> Option<TableId>
    ensures { result ≡ table_to_copy prepared.now }
{
    match prepared {
        Prepared::Copy(table) => Some(*table),
        Prepared::Play(..)
        | Prepared::Show
        | Prepared::Make(_)
        | Prepared::Work(..)
        | Prepared::Check
        | Prepared::Recover(_)
        | Prepared::Ended(_) => None,
    }
}

/// The table that is to be recovered, if one is.
pub fn table_to_recover(prepared: &Prepared) -> Option<TableId>
    ensures { result ≡ table_to_recover prepared.now }
{
    match prepared {
        Prepared::Recover(table) => Some(*table),
        Prepared::Play(..)
        | Prepared::Show
        | Prepared::Make(_)
        | Prepared::Work(..)
        | Prepared::Check
        | Prepared::Copy(_)
        | Prepared::Ended(_) => None,
    }
}
