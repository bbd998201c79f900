// The ranges of an area.
ghost use Rattle.std.specs.Prelude.{◌≡◌, ◌≤◌, ◌&&◌, leb, ltb};
ghost use Rattle.fields.specs.RecordBytes.{all};
ghost use Rattle.fields.specs.Update.{is_far};
ghost use Rattle.records.specs.Laid.{update_at, is_updates};
ghost use Rattle.waits.specs.Area.{waiting_count, records_ahead};
ghost use Rattle.waits.specs.ValidAreas.{positions_ahead};

use crate::Area;
use crate::area::{position_ahead, records_ahead, waiting_count};
use clock::{START, StreamSample};
use fields::record::Record;
use records::layout::layout_of;

// Whether as few updates wait, of as few records, as may.
pub(crate) fn counts_fit(area: &Area) -> bool
    ensures { result ≡ (leb (waiting_count area.now) 8 && leb (records_ahead area.now) 1200) }
{
    (waiting_count(area) <= 8) & (records_ahead(area) <= 1200)
}

// 2^40 + 2^32
const END_OF_POSITIONS: u64 = 1_103_806_595_072;

// Whether a position is the stream's own or lies ahead of it, below 2^40 + 2^32.
fn lies_ahead(ahead: StreamSample, position: StreamSample) -> bool
    ensures { result ≡ (leb position.0 ahead.0 && ltb ahead.0 1103806595072) }
{
    (position.0 <= ahead.0) & (ahead.0 < END_OF_POSITIONS)
}

// Whether each position does.
pub(crate) fn positions_ahead(area: &Area, position: StreamSample) -> bool
    requires { waiting_count area.now ≤ 8 }
    ensures { result ≡ positions_ahead position.0 area.now }
{
    for i in 0..waiting_count(area) {
        if !lies_ahead(position_ahead(area, i), position) {
            return false;
        }
    }
    true
}

// Whether records are `count` updates, each of kind 9.
pub(crate) fn all_far(records: &[u8], count: usize) -> bool
    requires { count ≤ 8 }
    ensures { result ≡ (is_updates records.now count && all (λ i. is_far records.now (update_at records.now i)) count) }
{
    let Some(layout) = layout_of(records, START) else {
        return false;
    };
    if layout.count != count {
        return false;
    }
    for i in 0..count {
        let update = Record {
            meta: records,
            place: layout.sent[i].place,
        };
        if !update.is_far() {
            return false;
        }
    }
    true
}
