//! The lanes, one below the other: that of the group, and one a member.

ghost use Rattle.std.specs.Prelude.{◌≡◌, ◌+◌, ◌*◌, ◌≤◌, vec_len, IfOk};
ghost use Rattle.std.specs.List.{All};
ghost use Rattle.run_picture.specs.Places.{IsTall, height_of, lane_of, tall};

use crate::lane::Lane;
use crate::rows::Rows;
use ds_base::NoMemory;
use std::alloc::Global;

/// The heights of what stands above the lanes, of a lane without its rows, of a row, and between two lanes.
pub const ABOVE: u64 = 70;

pub const HEAD: u64 = 34;

pub const ROW: u64 = 22;

pub const GAP: u64 = 10;

/// The height of a bar.
pub const BAR: u64 = 18;

// The most rows for which a lane has room.
const MOST_ROWS: u64 = 1_000_000;

fn rows_of(rows: &Rows, member: u64) -> u64
    ensures { result ≤ 1000000 }
{
    rows.count(member).min(MOST_ROWS)
}

// A lane that begins here, with so many rows.
fn lane_at(top: u64, rows: u64) -> Lane
    requires high { top ≤ 10000000000 }
    requires few { rows ≤ 1000000 }
    ensures top { result.top ≡ top }
    ensures tall { IsTall result }
    ensures bottom { result.bottom ≤ top + 22000034 }
{
    Lane {
        top,
        bottom: top + HEAD + ROW * rows,
    }
}

fn put_lane(lanes: &mut Vec<Lane>, top: u64, rows: u64) -> Result<u64, NoMemory>
    requires high { top ≤ 10000000000 }
    requires few { rows ≤ 1000000 }
    requires old { All IsTall lanes.old.items }
    ensures tall { IfOk result (λ _. All IsTall lanes.new.items) }
    ensures count { IfOk result (λ _. vec_len lanes.new ≡ vec_len lanes.old + 1) }
    ensures next { IfOk result (λ n. n ≤ top + 22000044) }
{
    let lane = lane_at(top, rows);
    lanes.push(lane)?;
    Ok(lane.bottom + GAP)
}

/// The lanes of the group and of members from 1 to the last one.
pub fn make_lanes(alloc: Global, rows: &Rows, members: u8) -> Result<Vec<Lane>, NoMemory>
    ensures tall { IfOk result (λ lanes. All IsTall lanes.items) }
    ensures count { IfOk result (λ lanes. vec_len lanes ≡ members + 1) }
{
    let mut lanes = Vec::new(alloc);
    let mut top = ABOVE;
    for member in 0..u64::from(members) + 1 {
        top = put_lane(&mut lanes, top, rows_of(rows, member))?;
    }
    Ok(lanes)
}

// A lane that is tall enough, or one above all.
fn tall(lane: Lane) -> Lane
    ensures value { result ≡ tall lane }
    ensures tall { IsTall result }
{
    if HEAD <= lane.bottom && lane.top <= lane.bottom - HEAD {
        lane
    } else {
        Lane {
            top: 0,
            bottom: HEAD,
        }
    }
}

/// The lane of a member; where there is none, one above all.
pub fn lane_of(lanes: &[Lane], member: u8) -> Lane
    ensures value { result ≡ lane_of lanes.now member }
    ensures tall { IsTall result }
{
    match lanes.get(usize::from(member)) {
        Some(lane) => tall(*lane),
        None => Lane {
            top: 0,
            bottom: HEAD,
        },
    }
}

/// Where the events of a lane stand.
pub fn line_of(lane: Lane) -> u64
    requires { IsTall lane }
    ensures { result ≡ lane.top + 24 }
{
    lane.top + 24
}

/// Where the bars of a row begin.
pub fn row_of(lane: Lane, row: u64) -> u64
    requires { IsTall lane }
    ensures below { lane.top ≤ result }
    ensures above { result + 22 ≤ lane.bottom }
{
    let down = (lane.top + HEAD).saturating_add(row.saturating_mul(ROW));
    down.min(lane.bottom - ROW)
}

/// The height of all lanes, with some space below.
pub fn height_of(lanes: &[Lane]) -> u64
    ensures { result ≡ height_of lanes.now }
{
    match lanes.get(lanes.len().saturating_sub(1)) {
        Some(lane) => lane.bottom.saturating_add(2 * GAP),
        None => ABOVE,
    }
}
