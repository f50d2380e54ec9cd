ghost use Rattle.std.specs.Prelude.{◌+◌, ◌<◌, ◌^◌, ◌↔◌, IsTrue};
ghost use Rattle.ds_base.specs.Ids.{IsLrsn};

use ds_base::LRSN_END;

/// Whether so many numbers above this one are numbers still.
pub fn are_left(greatest: u128, changes: u64) -> bool
    ensures { IsTrue result ↔ IsLrsn (greatest + changes) }
{
    match LRSN_END.checked_sub(greatest) {
        Some(left) => u128::from(changes) < left,
        None => false,
    }
}
