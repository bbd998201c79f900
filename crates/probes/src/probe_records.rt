// A record, update or place that is not there is answered by zeros.
ghost use Rattle.std.specs.Prelude.{◌≡◌, cond, ◌&&◌, ◌+◌, ◌*◌, leb, ltb, IfSome};
ghost use Rattle.std.specs.Option.{is_some};
ghost use Rattle.fields.specs.Update.{header_of};
ghost use Rattle.fields.specs.Block.{blocks};
ghost use Rattle.fields.specs.ObjectInfos.{stored_info};
ghost use Rattle.records.specs.Falls.{offset_in, no_sample};
ghost use Rattle.records.specs.Laid.{update_at, count, element_end, object_at};
ghost use Rattle.records.specs.ValuesInRange.{refusal};
ghost use Rattle.records.specs.UpdateWalk.{next_offset, FirstAt};
ghost use Rattle.probes.specs.Taken.{has_record, zero_header, times_of, zero_times, zero_info};

use clock::{FrameOffset, START};
use fields::block::Block;
use fields::object::Info;
use fields::record::Record;
use fields::update::Header;
use records::layout::{element_after, layout_of, object_place};
use records::metadata::{Fault, Metadata};
use records::sent::NO_SAMPLE;

#[unsafe(no_mangle)]
pub extern "C" fn probe_refusal(meta: &[u8]) -> u32
    ensures { result ≡ refusal meta.now }
{
    match Metadata::of(meta, NO_SAMPLE) {
        Ok(_) => 0,
        Err(Fault::NotLaidOut) => 5,
        Err(Fault::OutOfRange) => 6,
    }
}

#[unsafe(no_mangle)]
pub extern "C" fn probe_updates(meta: &[u8]) -> usize
    ensures { result ≡ count meta.now }
{
    match layout_of(meta, NO_SAMPLE) {
        Some(l) => l.count,
        None => 0,
    }
}

// The record of update i.
#[unsafe(no_mangle)]
pub extern "C" fn probe_update_place(meta: &[u8], i: usize) -> usize
    ensures { result ≡ cond (ltb i (count meta.now)) (update_at meta.now i) 0 }
{
    match layout_of(meta, NO_SAMPLE) {
        Some(l) if i < l.count => l.sent[i].place,
        _ => 0,
    }
}

// The record at a place, where the list has it whole.
fn record(meta: &[u8], place: usize) -> Option<Record<'_>>
    ensures there { is_some result ≡ has_record meta.now place }
    ensures same { IfSome result (λ r. (r.meta.now ≡ meta.now) × (r.place ≡ place)) }
{
    if place < meta.len() / 40 {
        Some(Record { meta, place })
    } else {
        None
    }
}

#[unsafe(no_mangle)]
pub extern "C" fn probe_header(meta: &[u8], u: usize) -> Header
    ensures { result ≡ cond (has_record meta.now u) (header_of meta.now u) zero_header }
{
    let Some(update) = record(meta, u) else {
        return Header {
            offset: START,
            objects: 0,
            bed_or_isf: 0,
            beds: 0,
            elements: 0,
        };
    };
    update.header()
}

#[unsafe(no_mangle)]
pub extern "C" fn probe_blocks(meta: &[u8], e: usize) -> usize
    ensures { result ≡ cond (has_record meta.now e) (blocks meta.now e) 0 }
{
    let Some(element) = record(meta, e) else {
        return 0;
    };
    element.blocks()
}

// The record after the element at e.
#[unsafe(no_mangle)]
pub extern "C" fn probe_element_after(meta: &[u8], objects: usize, e: usize) -> usize
    ensures { result ≡ cond (has_record meta.now e && leb objects 32 && leb (blocks meta.now e) 8) (element_end meta.now objects e) 0 }
{
    let Some(element) = record(meta, e) else {
        return 0;
    };
    if objects <= 32 && element.blocks() <= 8 {
        element_after(element, objects)
    } else {
        0
    }
}

#[unsafe(no_mangle)]
pub extern "C" fn probe_object_place(meta: &[u8], e: usize, o: usize, b: usize) -> usize
    ensures { result ≡ cond (has_record meta.now e && ltb o 32 && ltb b 8 && leb (blocks meta.now e) 8)
        (object_at meta.now e (o * blocks meta.now e + b)) 0 }
{
    let Some(element) = record(meta, e) else {
        return 0;
    };
    if o < 32 && b < 8 && element.blocks() <= 8 {
        object_place(element, o, b)
    } else {
        0
    }
}

// A block's numbers, as C sees them: no generic struct stands in the signature of an exported function.
#[repr(C)]
#[derive(Clone, Copy)]
pub struct BlockTimes {
    pub offset: i64,
    pub ramp: i64,
}

#[unsafe(no_mangle)]
pub extern "C" fn probe_block(meta: &[u8], r: usize) -> BlockTimes
    ensures { result ≡ cond (has_record meta.now r) (times_of meta.now r) zero_times }
{
    let Some(block) = record(meta, r) else {
        return BlockTimes { offset: 0, ramp: 0 };
    };
    let Block { offset, ramp } = block.block();
    BlockTimes { offset, ramp }
}

#[unsafe(no_mangle)]
pub extern "C" fn probe_info(meta: &[u8], r: usize) -> Info
    ensures { result ≡ cond (has_record meta.now r) (stored_info meta.now r) zero_info }
{
    let Some(object) = record(meta, r) else {
        return Info {
            head: 0,
            gain: 0,
            size: 0,
            distance: 0,
            screen: 0,
            x: 0,
            y: 0,
            z: 0,
            send: 0,
        };
    };
    object.info()
}

#[unsafe(no_mangle)]
pub extern "C" fn probe_next_offset(meta: &[u8], t: FrameOffset, end: FrameOffset) -> FrameOffset
    ensures { result.0 ≡ next_offset (λ i. offset_in end.0 meta.now (update_at meta.now i)) (count meta.now) t.0 end.0 }
{
    match layout_of(meta, end) {
        Some(l) => l.next_offset(t, end),
        None => end,
    }
}

#[unsafe(no_mangle)]
pub extern "C" fn probe_sent_at(meta: &[u8], t: FrameOffset, from: usize) -> usize
    ensures { cond (leb from (count meta.now))
        (FirstAt (λ i. offset_in no_sample meta.now (update_at meta.now i)) (count meta.now) t.0 from result) (result ≡ 0) }
{
    match layout_of(meta, NO_SAMPLE) {
        Some(l) if from <= l.count => l.sent_at(t, from),
        _ => 0,
    }
}
