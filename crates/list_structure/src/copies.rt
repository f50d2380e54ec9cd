ghost use Rattle.std.specs.Prelude.{◌≡◌, ℕ, IfOk, length, replicate, slice_index_or};

use ds_base::NoMemory;
use std::alloc::Global;

/// So many copies of a value.
pub fn copies<T: Copy + Drop>(alloc: Global, value: T, count: usize) -> Result<Vec<T>, NoMemory>
    ensures items { IfOk result (λ all. all.items ≡ replicate count value) }
    ensures length { IfOk result (λ all. length all.items ≡ count) }
    ensures same { IfOk result (λ all. (k : ℕ) → slice_index_or all.items k value ≡ value) }
{
    let mut all = Vec::with_capacity(alloc, count)?;
    for n in 0..count {
        all.push_reserved(value);
    }
    Ok(all)
}

/// Writes the value to each place.
pub fn fill<T: Copy + Drop>(all: &mut [T], value: T)
    ensures items { all.new ≡ replicate (length all.old) value }
    ensures same { (k : ℕ) → slice_index_or all.new k value ≡ value }
{
    for place in 0..all.len() {
        all[place] = value;
    }
}
