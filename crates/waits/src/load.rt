// How many updates wait after a frame, of how many bytes of records.
ghost use Rattle.std.specs.Prelude.{◌≡◌, ◌+◌, ◌<◌, ◌≤◌, ◌^◌, ◌&&◌, ℕ, true, length, leb};
ghost use Rattle.fields.specs.Update.{is_far, offset};
ghost use Rattle.waits.specs.Area.{waits_of};
ghost use Rattle.waits.specs.Settled.{staying, waits_next, comes};
ghost use Rattle.waits.specs.ValidAreas.{area_valid};
ghost use Rattle.waits.specs.Answers.{FallAt, LoadOf};

use crate::Area;
use crate::area::{position_ahead, records_of};
use clock::{FrameOffset, StreamSample};
use fields::record::Record;
use records::metadata::Metadata;

#[derive(Clone, Copy)]
pub(crate) struct Load {
    pub count: usize,
    pub bytes: usize,
}

pub(crate) const NOTHING: Load = Load { count: 0, bytes: 0 };

impl Load {
    // One update more, of these records.
    pub(crate) fn with(self, records: &[u8]) -> Load
        requires { (self.count ≤ 255) × (self.bytes + length records.now < 2 ^ 64) }
        ensures { (result.count ≡ self.count + 1) × (result.bytes ≡ self.bytes + length records.now) }
    {
        Load {
            count: self.count + 1,
            bytes: self.bytes + records.len(),
        }
    }
}

// Whether what falls at `position` falls behind the frame.
pub(crate) fn stays(position: StreamSample, start: StreamSample, end: FrameOffset) -> bool
    requires { start.0 ≤ 2199023255552 }
    ensures { result ≡ leb (start.0 + end.0) position.0 }
{
    start.at(end) <= position
}

// Whether an own update waits.
pub(crate) fn comes(update: Record<'_>, end: FrameOffset) -> bool
    ensures { result ≡ (is_far update.entry.meta.now update.entry.place && leb end.0 (offset update.entry.meta.now update.entry.place)) }
{
    update.is_far() && end <= update.offset()
}

// What stays.
fn staying(area: &Area, kept: Metadata<'_>, start: StreamSample, end: FrameOffset) -> Load
    requires { (area_valid start.0 area.now ≡ true) × FallAt start.0 end.0 area.now kept }
    ensures { LoadOf result (staying start.0 end.0 (waits_of area.now)) × (result.count ≤ 8) × (result.bytes ≤ 48000) }
{
    let mut load = NOTHING;
    for i in 0..kept.layout.count {
        if stays(position_ahead(area, i), start, end) {
            load = load.with(records_of(kept, i));
        }
    }
    load
}

// What stays, and then the own ones that wait.
pub(crate) fn waiting(
    area: &Area,
    kept: Metadata<'_>,
    start: StreamSample,
    end: FrameOffset,
    own: Metadata<'_>,
) -> Load
    requires { (area_valid start.0 area.now ≡ true) × FallAt start.0 end.0 area.now kept }
    ensures { LoadOf result (waits_next start.0 end.0 area.now own.entry.records.now) }
{
    let mut load = staying(area, kept, start, end);
    for i in 0..own.layout.count {
        if comes(own.update(i).record, end) {
            load = load.with(records_of(own, i));
        }
    }
    load
}
