ghost use Rattle.std.specs.Prelude.{◌≡◌};
ghost use Rattle.member_intents.specs.Cells.{cell_slot};

use lock_names::Name;
use member_trans::Owner;

/// The slot in whose cells others answer about the name: that of a transaction which claims a table space or row itself, and
/// 0 where the member claims the name.
pub fn cell_slot(owner: &Owner, name: &Name) -> u8
    ensures { result ≡ cell_slot owner.now name.now }
{
    match (owner, name) {
        (Owner::Slot(slot), Name::Space(_) | Name::Row(..)) => *slot,
        _ => 0,
    }
}
