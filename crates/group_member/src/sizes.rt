ghost use Rattle.std.specs.Prelude.{◌≤◌};

use ds_base::Sizes;

/// The sizes of a group, with an entry of the lock table and a frame at least.
#[derive(Clone, Copy, Debug)]
pub struct GroupSizes {
    pub sizes: Sizes,
    ghost roomy: { (1 ≤ sizes.locks) × (1 ≤ sizes.pool) },
}
