use crate::{Leader, Pool, Task, with_threads};
use std::sync::Wait;
use std::test::*;

/// A number that counts how often it was worked on.
#[derive(Drop)]
struct Tally {
    number: u64,
    times: u64,
}

impl Task for Tally {
    ghost use Rattle.std.specs.Prelude.{◌≡◌, ⊤};

    ghost ready = { λ x. ⊤ };

    ghost leaves = { λ x y. y.number ≡ x.number };

    fn work<R: Wait>(&mut self, _: &R) {
        self.times = self.times.wrapping_add(1);
    }
}

#[derive(Drop)]
struct Rounds {
    row: Vec<Tally>,
}

impl Leader<Tally> for Rounds {
    ghost use Rattle.std.specs.Prelude.{⊤};

    type Answer = Vec<Tally>;

    ghost leads = { λ x y. ⊤ };

    fn lead<R: Wait>(self, rt: &R, pool: &mut Pool<Tally>) -> Vec<Tally> {
        let mut row = self.row;
        for _ in 0..100u64 {
            pool.work_each(rt, &mut row);
        }
        row
    }
}

#[test]
fn each_of_a_row_is_worked_on_once_a_round(rt: HostRuntime) -> Result<(), Fail> {
    let mut row = Vec::new(rt.alloc());
    for number in 0..6u64 {
        row.push(Tally { number, times: 0 })?;
    }
    let Ok(row) = with_threads(&rt, rt.alloc(), 3, Rounds { row }) else {
        return Ok(());
    };
    assert!(rt; row.len() == 6);
    for (at, it) in row.iter().enumerate() {
        assert!(rt; it.number == at as u64);
        assert!(rt; it.times == 100);
    }
    Ok(())
}
