// Updates laid one behind the other.
ghost use Rattle.std.specs.Prelude.{◌≡◌, ◌+◌, ◌*◌, ◌/◌, ◌<◌, ◌≤◌, true, cond, ltb, length, take, drop};
ghost use Rattle.records.specs.Laid.{count};
ghost use Rattle.records.specs.LayoutAnswers.{sent_place};
ghost use Rattle.words.specs.Words.{with_long};
ghost use Rattle.waits.specs.Area.{waits_of, records_ahead};
ghost use Rattle.waits.specs.Settled.{staying, coming, all_records, with_run, laid_from};
ghost use Rattle.waits.specs.ValidAreas.{area_valid};
ghost use Rattle.waits.specs.Answers.{PlacesOf, LoadOf};

use crate::area::records_of;
use crate::load::{Load, NOTHING, comes, stays};
use clock::{FrameOffset, StreamSample};
use records::metadata::Metadata;
use records::sent::Layout;

// Lays whole records from byte `to` on, each read before it is written: a copy of all at once compiles to a call of `memmove`, a name more that a host must have.
fn lay(area: &mut [u8], to: usize, records: &[u8])
    requires { (to + length records.now ≤ length area.old) × (length area.old ≤ 48072) × (40 * (length records.now / 40) ≡ length records.now) }
    ensures { area.new ≡ with_run area.old to records.now }
{
    for k in 0..records.len() / 40 {
        let record: [u8; 40] = *records[40 * k..].first_chunk().unwrap();
        let at = to + 40 * k;
        area[at..at + 40].copy_from_slice(&record);
    }
}

// One update more behind those of a load.
fn join(area: &mut [u8], at: Load, position: StreamSample, records: &[u8]) -> Load
    requires { (at.count < 8) × (72 + at.bytes + length records.now ≤ length area.old) × (length area.old ≤ 48072) × (40 * (length records.now / 40) ≡ length records.now) }
    ensures laid { area.new ≡ with_run (with_long area.old (8 + 8 * at.count) position.0) (72 + at.bytes) records.now }
    ensures load { (result.count ≡ at.count + 1) × (result.bytes ≡ at.bytes + length records.now) }
{
    words::put_u64(area, 8 + 8 * at.count, position.0);
    lay(area, 72 + at.bytes, records);
    at.with(records)
}

// Moves n bytes down from `from` to `to`.
fn move_down(area: &mut [u8], to: usize, from: usize, n: usize)
    requires { (to ≤ from) × (from + n ≤ length area.old) × (length area.old ≤ 48072) }
    ensures { area.new ≡ with_run area.old to (take n (drop from area.old)) }
{
    if to == from {
        return;
    }
    for k in 0..n {
        area[to + k] = area[from + k];
    }
}

// One update of those that wait, whose n bytes stand at `from`, moved behind those of a load.
fn shift(area: &mut [u8], at: Load, position: StreamSample, from: usize, n: usize) -> Load
    requires { (at.count < 8) × (72 + at.bytes ≤ from) × (from + n ≤ length area.old) × (length area.old ≤ 48072) }
    ensures laid { area.new ≡ with_run (with_long area.old (8 + 8 * at.count) position.0) (72 + at.bytes) (take n (drop from area.old)) }
    ensures load { (result.count ≡ at.count + 1) × (result.bytes ≡ at.bytes + n) }
{
    words::put_u64(area, 8 + 8 * at.count, position.0);
    move_down(area, 72 + at.bytes, from, n);
    Load {
        count: at.count + 1,
        bytes: at.bytes + n,
    }
}

// The record after update i of those that wait.
fn end_of(layout: Layout, records: usize, i: usize) -> usize
    requires { i < layout.count }
    ensures { result ≡ cond (ltb (i + 1) layout.count) (sent_place layout (i + 1)) records }
{
    if i + 1 < layout.count {
        layout.sent[i + 1].place
    } else {
        records
    }
}

// Moves those that stay to the area's begin.
pub(crate) fn keep(
    area: &mut [u8],
    layout: Layout,
    records: usize,
    start: StreamSample,
    end: FrameOffset,
) -> Load
    requires { (length area.old ≡ 48072) × (area_valid start.0 area.old ≡ true) × PlacesOf area.old layout × (records ≡ records_ahead area.old) }
    ensures laid { area.new ≡ laid_from area.old 0 72 (staying start.0 end.0 (waits_of area.old)) }
    ensures load { LoadOf result (staying start.0 end.0 (waits_of area.old)) }
{
    let mut load = NOTHING;
    for i in 0..layout.count {
        let position = StreamSample(words::u64_at(area, 8 + 8 * i));
        if stays(position, start, end) {
            let from = layout.sent[i].place;
            let n = 40 * (end_of(layout, records, i) - from);
            load = shift(area, load, position, 72 + 40 * from, n);
        }
    }
    load
}

// Lays the own ones that wait behind a load.
pub(crate) fn add(
    area: &mut [u8],
    at: Load,
    own: Metadata<'_>,
    start: StreamSample,
    end: FrameOffset,
) -> Load
    requires { (length area.old ≡ 48072) × (start.0 ≤ 1099511627776) × (at.count + length (coming start.0 end.0 own.records.now (count own.records.now) 0) ≤ 8) × (at.bytes + length (all_records (coming start.0 end.0 own.records.now (count own.records.now) 0)) ≤ 48000) }
    ensures laid { area.new ≡ laid_from area.old at.count (72 + at.bytes) (coming start.0 end.0 own.entry.records.now (count own.entry.records.now) 0) }
    ensures count { result.count ≡ at.count + length (coming start.0 end.0 own.entry.records.now (count own.entry.records.now) 0) }
    ensures bytes { result.bytes ≡ at.bytes + length (all_records (coming start.0 end.0 own.entry.records.now (count own.entry.records.now) 0)) }
{
    let mut load = at;
    for i in 0..own.layout.count {
        let update = own.update(i).record;
        if comes(update, end) {
            load = join(area, load, start.at(update.offset()), records_of(own, i));
        }
    }
    load
}
