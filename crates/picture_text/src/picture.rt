use ds_base::{Bytes, Sequence};

/// What a shape stands for. Lanes, fates and waits are areas; all others are lines.
#[derive(Clone, Copy, Debug, PartialEq, Eq)]
pub enum Kind {
    /// A member, or the group.
    Lane,
    /// The start of a phase.
    Phase,
    /// A transaction that committed and was answered.
    Answered,
    /// One that committed, and whose answer was lost.
    Unanswered,
    Refused,
    Stopped,
    /// The time in which a transaction waits.
    Wait,
    /// From the end of a wait to what came before it.
    Rung,
    Event,
    /// From the write of a page to a read by another member.
    Page,
    /// A failure of a member or of the group, or a loss of the cache.
    Failure,
    /// The end of a failure.
    Mended,
    /// From a refused transaction to what was in its way.
    Cause,
}

/// A place of the picture, in pixels from its upper left corner.
#[derive(Clone, Copy, Debug, PartialEq, Eq)]
pub struct Spot {
    pub across: u64,
    pub down: u64,
}

/// An area between two corners, or a line from one spot to the other. The title is shown where one points at it, and the
/// label, if any, stands at its first spot.
#[derive(Debug, Drop)]
pub struct Shape {
    pub kind: Kind,
    pub from: Spot,
    pub to: Spot,
    pub title: Bytes,
    pub label: Bytes,
}

pub type ShapeList = Sequence<Shape>;

/// A picture, 1,400 pixels wide. What stands later is drawn over what stands earlier.
#[derive(Debug, Drop)]
pub struct Picture {
    pub height: u64,
    pub lanes: ShapeList,
    pub phases: ShapeList,
    pub bars: ShapeList,
    pub waits: ShapeList,
    pub events: ShapeList,
    pub pages: ShapeList,
    pub marks: ShapeList,
    pub causes: ShapeList,
}
