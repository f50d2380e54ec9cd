ghost use Rattle.std.specs.Prelude.{◌≡◌, ◌≤◌, ◌<◌};
ghost use Rattle.lock_names.specs.Entries.{entry_number};
ghost use Rattle.lock_names.specs.Names.{same_name};

use ds_model::Name;

/// What the hash of a name multiplies by.
const FACTOR: u128 = 65_599;

/// The entry that a name falls on, counted from 0, in a lock table of so many entries.
///
/// The hash is over whole numbers and never wraps: a key may be any `u64`.
#[tactic(auto, unfolding(crate::specs::Entries::number_of))]
pub fn entry_of(name: &Name, entries: u32) -> u32
    requires { 1 ≤ entries }
    ensures hash { result ≡ entry_number name.now entries }
    ensures range { result < entries }
{
    let (kind, first, second) = match name {
        Name::Space(table) => (1, table.number(), 0),
        Name::Row(table, key) => (2, table.number(), *key),
        Name::Page(page) => (3, page.set as u64, page.number as u64),
        Name::Set(set) => (4, *set as u64, 0),
    };
    let sum = (kind * FACTOR + first as u128) * FACTOR + second as u128;
    (sum % entries as u128) as u32
}

/// Whether both are the same name.
#[tactic(auto, unfolding(crate::specs::Names::same_name))]
pub fn is_same_name(a: &Name, b: &Name) -> bool
    ensures { result ≡ same_name a.now b.now }
{
    *a == *b
}
