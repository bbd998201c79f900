// What stands in an area.
ghost use Rattle.std.specs.Prelude.{◌≡◌, ◌+◌, ◌*◌, ◌<◌, ◌≤◌, ◌-◌, ltb, cond, length};
ghost use Rattle.records.specs.Falls.{no_sample};
ghost use Rattle.waits.specs.Area.{waiting_count, records_ahead, position_ahead, kept_records, records_of};
ghost use Rattle.waits.specs.Answers.{WaitingLayout, FallingLayout};
ghost use Rattle.waits.specs.Settled.{falls_at};

use crate::Area;
use clock::{FrameOffset, StreamSample};
use records::metadata::Metadata;
use records::sent::{Layout, NO_SAMPLE, Sent};

pub(crate) fn waiting_count(area: &Area) -> usize
    ensures { result ≡ waiting_count area.now }
{
    words::u32_at(area, 0) as usize
}

pub(crate) fn records_ahead(area: &Area) -> usize
    ensures { result ≡ records_ahead area.now }
{
    words::u32_at(area, 4) as usize
}

// The stream's sample where update i falls.
pub(crate) fn position_ahead(area: &Area, i: usize) -> StreamSample
    requires { i < 8 }
    ensures { result.0 ≡ position_ahead area.now i }
{
    StreamSample(words::u64_at(area, 8 + 8 * i))
}

// The records of all that wait.
pub(crate) fn kept_records(area: &Area) -> &[u8]
    requires { records_ahead area.now ≤ 1200 }
    ensures { result.now ≡ kept_records area.now }
{
    let end = 72 + 40 * records_ahead(area);
    &area[72..end]
}

// The records of update i.
pub(crate) fn records_of<'a>(metadata: Metadata<'a>, i: usize) -> &'a [u8]
    requires { i < metadata.layout.count }
    ensures { result.now ≡ records_of metadata.entry.records.now i }
{
    let from = 40 * metadata.layout.sent[i].place;
    let to = 40 * metadata.end_of(i);
    &metadata.records[from..to]
}

// The offset of the stream's sample `position` in a frame that begins at `start` and ends at `end`.
fn offset_of(position: StreamSample, start: StreamSample, end: FrameOffset) -> FrameOffset
    requires { (start.0 ≤ position.0) × (position.0 ≤ 2199023255552) }
    ensures { result.0 ≡ cond (ltb position.0 (start.0 + end.0)) (position.0 - start.0) no_sample }
{
    if position < start.at(end) {
        FrameOffset((position.0 - start.0) as u32)
    } else {
        NO_SAMPLE
    }
}

// The layout of the updates that wait, with their offsets in the frame.
pub(crate) fn placed(area: &Area, layout: Layout, start: StreamSample, end: FrameOffset) -> Layout
    requires { WaitingLayout start.0 area.now layout }
    ensures { FallingLayout start.0 end.0 area.now layout result }
{
    let mut sent = layout.sent;
    for i in 0..layout.count {
        let offset = offset_of(position_ahead(area, i), start, end);
        sent[i] = Sent {
            place: layout.sent[i].place,
            offset,
        };
    }
    Layout {
        count: layout.count,
        sent,
    }
}
