//! The locks that an operation takes.

ghost use Rattle.std.specs.Prelude.{◌≡◌};
ghost use Rattle.lock_sights.specs.Locks as spec;

use ds_base::{Key, TableId};
use ds_model::{Name, Op};
use lock_names::Mode;

/// A lock, in a mode.
#[derive(Clone, Copy, Debug, PartialEq, Eq)]
pub struct Lock {
    pub name: Name,
    pub mode: Mode,
}

fn on_space(table: TableId, mode: Mode) -> Option<Lock>
    ensures { result ≡ spec.on_space table mode }
{
    Some(Lock {
        name: Name::Space(table),
        mode,
    })
}

fn on_row(table: TableId, key: Key, mode: Mode) -> Option<Lock>
    ensures { result ≡ spec.on_row table key mode }
{
    Some(Lock {
        name: Name::Row(table, key),
        mode,
    })
}

/// The lock of its table space that an operation takes first.
pub fn space_lock(op: &Op) -> Option<Lock>
    ensures { result ≡ spec.space_lock op.now }
{
    match op {
        Op::Get { table, .. } => on_space(*table, Mode::IS),
        Op::Getu { table, .. } | Op::Put { table, .. } | Op::Del { table, .. } => {
            on_space(*table, Mode::IX)
        }
        Op::Scan { table, .. } => on_space(*table, Mode::S),
        Op::Raise { .. } | Op::Await { .. } | Op::LoseCache | Op::Abort => None,
    }
}

/// The lock of its row that it takes then.
pub fn row_lock(op: &Op) -> Option<Lock>
    ensures { result ≡ spec.row_lock op.now }
{
    match op {
        Op::Get { table, key } => on_row(*table, *key, Mode::S),
        Op::Getu { table, key } => on_row(*table, *key, Mode::U),
        Op::Put { table, key, .. } | Op::Del { table, key } => on_row(*table, *key, Mode::X),
        Op::Scan { .. } | Op::Raise { .. } | Op::Await { .. } | Op::LoseCache | Op::Abort => None,
    }
}
