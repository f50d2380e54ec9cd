ghost use Rattle.std.specs.Prelude.{◌≡◌, ℕ, ◌-◌, ◌≤◌, List, ◌++◌, take, drop, length, replicate, IfOk, IsOk};
ghost use Rattle.std.specs.Option.{SomeIff};
ghost use Rattle.ds_base.specs.Values.{IsValue, IsValueByte, IsValueImage, image, image_back, count_back};

use crate::NoMemory;
use std::alloc::Global;
use std::marker::Model;

/// The most bytes that a value has.
pub const VALUE_LIMIT: usize = 100;

/// What stands in a row: at most 100 bytes, each 0x21 to 0x7e.
///
/// The bytes lie in place, so that a value is copied without taking memory.
#[derive(Clone, Copy, Debug)]
pub struct Value {
    bytes: [u8; 100],
    count: u8,
}

impl Model for Value {
    ghost Value = { List ℕ };

    ghost view = { λ v. take v.count v.bytes };

    ghost invariant = { λ v. IsValueImage v.bytes v.count };

    ghost inverse = { λ l. record { bytes = image l; count = length l } };

    ghost inverse_ok = { λ a h i. record { bytes = image_back a.bytes a.count h i; count = count_back a.bytes a.count h i } };
}

// The bytes, and zeros behind them.
fn image_of(bytes: &[u8]) -> [u8; 100]
    requires { length bytes.now ≤ 100 }
    ensures { result ≡ image bytes.now }
{
    let mut filled = [0u8; 100];
    filled[..bytes.len()].copy_from_slice(bytes);
    filled
}

impl Value {
    /// The value of these bytes, or `None` where they are no value. Takes no memory.
    pub fn new(_alloc: Global, bytes: &[u8]) -> Result<Option<Value>, NoMemory>
        ensures found { IfOk result (λ found. SomeIff found (IsValue bytes.now) bytes.now) }
        ensures answers { IsOk result }
    {
        if bytes.len() <= VALUE_LIMIT && bytes.iter().all(|b| 0x21 <= *b && *b <= 0x7e) {
            Ok(Some(Value {
                bytes: image_of(bytes),
                count: bytes.len() as u8,
            }))
        } else {
            Ok(None)
        }
    }

    pub fn bytes(&self) -> &[u8]
        ensures value { result.now ≡ self.now }
        ensures range { IsValue self.now }
    {
        &self.bytes[..self.count as usize]
    }
}
