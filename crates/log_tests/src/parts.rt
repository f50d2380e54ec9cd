ghost use Rattle.std.specs.Prelude.{◌≡◌, length, IfOk};

use std::test::Fail;

/// So many bytes of a log from this place on.
pub fn part_of(log: &[u8], at: u64, count: u32) -> Result<&[u8], Fail>
    ensures { IfOk result (λ part. length part.now ≡ count) }
{
    let Some(end) = at.checked_add(u64::from(count)) else {
        return Err("a place".into());
    };
    match log.get(at as usize..end as usize) {
        Some(part) if part.len() == count as usize => Ok(part),
        _ => Err("too few bytes".into()),
    }
}
