// SPDX-License-Identifier: Apache-2.0

// R-12: the updates that lie ahead of the stream, in an area at the end of the state block.
#![tactic(auto)]

mod area; // area.rt: what stands in an area
mod valid; // valid.rt: its ranges
mod load; // load.rt: how many wait after a frame, of how many bytes
mod laid; // laid.rt: updates laid one behind the other

ghost use Rattle.std.specs.Prelude.{◌≡◌, ◌≤◌, ◌&&◌, true, eqb};
ghost use Rattle.waits.specs.Area.{waiting_count, kept_records};
ghost use Rattle.waits.specs.Settled.{falls_at, fits, area_settled};
ghost use Rattle.waits.specs.ValidAreas.{area_valid};
ghost use Rattle.waits.specs.Answers.{FallAt};

use clock::{FrameOffset, StreamSample};
use records::layout::layout_of;
use records::metadata::Metadata;
use records::ranges::all_fit;

pub const BYTES: usize = 48_072;

pub type Area = [u8; BYTES];

// Whether no update waits.
pub fn is_empty(area: &Area) -> bool
    ensures { result ≡ eqb (waiting_count area.now) 0 }
{
    words::u32_at(area, 0) == 0
}

// Whether an area is within its ranges, in a block at a stream position.
pub fn is_valid(area: &Area, position: StreamSample) -> bool
    ensures { result ≡ area_valid position.0 area.now }
{
    if !valid::counts_fit(area) {
        return false;
    }
    if !valid::positions_ahead(area, position) {
        return false;
    }
    let records = area::kept_records(area);
    if !valid::all_far(records, area::waiting_count(area)) {
        return false;
    }
    all_fit(records)
}

// The updates that wait, in a frame that begins at `start` and ends at `end`.
pub fn metadata(area: &Area, start: StreamSample, end: FrameOffset) -> Metadata<'_>
    requires { area_valid start.0 area.now ≡ true }
    ensures { FallAt start.0 end.0 area.now result }
{
    let records = area::kept_records(area);
    let Some(laid) = layout_of(records, end) else {
        unreachable!()
    };
    let layout = area::placed(area, laid, start, end);
    Metadata { records, layout }
}

// Whether as few updates wait after the frame as may.
pub fn fit(area: &Area, start: StreamSample, end: FrameOffset, own: Metadata<'_>) -> bool
    requires { area_valid start.0 area.now ≡ true }
    ensures { result ≡ fits start.0 end.0 area.now own.entry.records.now }
{
    let kept = metadata(area, start, end);
    let load = load::waiting(area, kept, start, end, own);
    load.count <= 8 && load.bytes <= 48_000
}

// The area after the frame.
pub fn settle(area: &mut Area, start: StreamSample, end: FrameOffset, own: Metadata<'_>)
    requires { (start.0 ≤ 1099511627776) × (area_valid start.0 area.old ≡ true) × (fits start.0 end.0 area.old own.records.now ≡ true) }
    ensures { area.new ≡ area_settled start.0 end.0 area.old own.entry.records.now }
{
    let records = area::records_ahead(area);
    let layout = metadata(area, start, end).layout;
    let stayed = laid::keep(area, layout, records, start, end);
    let load = laid::add(area, stayed, own, start, end);
    words::put_u32(area, 0, load.count as u32);
    words::put_u32(area, 4, (load.bytes / 40) as u32);
}
