// The updates of a list of records: where each stands.
ghost use Rattle.std.specs.Prelude.{◌≤◌};

use clock::{FrameOffset, START};

// An update of a list: its record and its sample offset.
#[derive(Clone, Copy)]
pub struct Sent {
    pub place: usize,
    pub offset: FrameOffset,
}

// Past every frame: the offset of an update that only waits.
pub const NO_SAMPLE: FrameOffset = FrameOffset(u32::MAX);

pub(crate) const NOT_SENT: Sent = Sent {
    place: 0,
    offset: START,
};

// Up to 16 updates in the order sent. (d) `count` beside `sent`: an ArrayVec is no Copy, and `IsLayout` speaks of each of the 16 entries.
#[derive(Clone, Copy)]
pub struct Layout {
    pub count: usize,
    pub sent: [Sent; 16],
    ghost few: { count ≤ 16 },
}
