//! What the members hold, in a list.

ghost use Rattle.std.specs.Prelude.{◌≡◌, map, IfOk};
ghost use Rattle.run_replay.specs.Seen as spec;

use ds_base::NoMemory;
use group_core::MemberPart;
use member_marks::Marks;
use std::alloc::Global;

/// What each member holds.
pub fn marks_of<P>(alloc: Global, parts: &[MemberPart<P>]) -> Result<Vec<&Marks>, NoMemory>
    ensures { IfOk result (λ all. map (λ m. m.now) all.items ≡ spec.marks_of parts.now) }
{
    let mut all = Vec::new(alloc);
    for part in parts {
        all.push(part.resources.marks())?;
    }
    Ok(all)
}
