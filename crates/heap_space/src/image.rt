ghost use Rattle.std.specs.Prelude.{◌≡◌, ◌≤◌, ◌++◌, length, option_copied};
ghost use Rattle.heap_space.specs.Slots.{head, padded, image};

use crate::layout::{ABSENT, PRESENT, SLOT_SIZE, VALUE_AT};
use ds_base::{Key, Value};

/// How many bytes of a slot lie behind its key.
const REST: usize = SLOT_SIZE - VALUE_AT;

// What stands before the value.
fn head(state: u8, count: u8, key: Key) -> [u8; VALUE_AT]
    ensures { result ≡ head state count key }
{
    let k = key.to_be_bytes();
    [
        state, count, 0, 0, 0, 0, 0, 0, k[0], k[1], k[2], k[3], k[4], k[5], k[6], k[7],
    ]
}

// The value, and zeros behind it.
fn padded(value: &[u8]) -> [u8; REST]
    requires { length value.now ≤ 112 }
    ensures { result ≡ padded value.now }
{
    let mut filled = [0u8; REST];
    filled[..value.len()].copy_from_slice(value);
    filled
}

fn joined(head: &[u8; VALUE_AT], rest: &[u8; REST]) -> [u8; SLOT_SIZE]
    ensures { result ≡ head.now ++ rest.now }
{
    let mut slot = [0u8; SLOT_SIZE];
    slot[..VALUE_AT].copy_from_slice(head);
    slot[VALUE_AT..].copy_from_slice(rest);
    slot
}

/// The bytes of the slot of a row with this value, or of an absent row.
pub fn slot_image(key: Key, value: Option<&Value>) -> [u8; SLOT_SIZE]
    ensures { result ≡ image key (option_copied value.entry) }
{
    match value {
        None => joined(&head(ABSENT, 0, key), &padded(&[])),
        Some(value) => {
            let bytes = value.bytes();
            joined(&head(PRESENT, bytes.len() as u8, key), &padded(bytes))
        }
    }
}
