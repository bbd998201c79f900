// Where updates and elements stand, and whether all records are as laid out: refusal 5.
ghost use Rattle.std.specs.Prelude.{◌≡◌, ◌+◌, ◌*◌, ◌/◌, ◌%◌, ◌<◌, ◌≤◌, length};
ghost use Rattle.fields.specs.Update.{objects};
ghost use Rattle.fields.specs.Block.{blocks};
ghost use Rattle.records.specs.Laid.{block_at, object_at, is_whole_element, is_whole_update, element_end, element_at, update_end};
ghost use Rattle.records.specs.LayoutAnswers.{end_if, HasLayout};
ghost use Rattle.records.specs.Falls.{offset_in};

use crate::run::all_pass;
use crate::sent::{Layout, NO_SAMPLE, NOT_SENT, Sent};
use clock::FrameOffset;
use fields::record::Record;
use fields::update::Header;

// How many records hold the objects in all blocks. A product of two variables: its bound is proved here once, for three callers.
// (d) That there are at most 32 stands in four contracts of this file and in no type: the count is the update's and goes with an element's record, and a type of it would be made
// at each call and opened at each product.
fn cells(objects: usize, blocks: usize) -> usize
    requires { (objects ≤ 32) × (blocks ≤ 8) }
    ensures { (result ≡ objects * blocks) × (result ≤ 256) }
{
    objects * blocks
}

// Where the element at e ends, of an update of so many objects.
#[tactic(auto, using(crate::proofs::Ends::ends, crate::proofs::Within::parts, crate::proofs::RecordKinds::few_blocks))]
fn element_end(meta: &[u8], objects: usize, e: usize) -> Option<usize>
    requires { (length meta.now % 40 ≡ 0) × (objects ≤ 32) × (e ≤ length meta.now / 40) }
    ensures { result ≡ end_if (is_whole_element meta.now objects e) (element_end meta.now objects e) }
{
    let records = meta.len() / 40;
    if e >= records {
        return None;
    }
    let element = Record { meta, place: e };
    if !element.is_element() {
        return None;
    }
    let blocks = element.blocks();
    let first = e + 1 + blocks;
    let n = cells(objects, blocks);
    let end = first + n;
    if end > records {
        return None;
    }
    if !all_pass(meta, e + 1, blocks, Record::is_block) {
        return None;
    }
    if !all_pass(meta, first, n, Record::is_object) {
        return None;
    }
    Some(end)
}

// Where the update at u ends.
#[tactic(auto, using(crate::proofs::Ends::ends, crate::proofs::Within::parts, crate::proofs::Reached::update_counts), unfolding(crate::specs::Laid::element_at))]
fn update_end(meta: &[u8], u: usize) -> Option<usize>
    requires { (length meta.now % 40 ≡ 0) × (u < length meta.now / 40) }
    ensures { result ≡ end_if (is_whole_update meta.now u) (update_end meta.now u) }
{
    let update = Record { meta, place: u };
    if !update.is_update() {
        return None;
    }
    let Header {
        objects,
        elements,
        ..
    } = update.header();
    let mut next = u + 1;
    for _e in 0..elements {
        next = element_end(meta, objects, next)?;
    }
    Some(next)
}

// The layout of a list of records in a frame that ends at `end`; none where they are not laid out, which is refusal 5. No range counts the records: `place` rises by what an update takes.
#[tactic(auto, using(crate::proofs::Ends::ends, crate::proofs::Updates::refused))]
pub fn layout_of(meta: &[u8], end: FrameOffset) -> Option<Layout>
    ensures { HasLayout end.0 meta.now result }
{
    if meta.len() % 40 != 0 {
        return None;
    }
    let records = meta.len() / 40;
    let mut sent = [NOT_SENT; 16];
    let mut count = 0usize;
    let mut place = 0usize;
    while place < records {
        if count == 16 {
            return None;
        }
        let next = update_end(meta, place)?;
        let offset = offset_in(Record { meta, place }, end);
        sent[count] = Sent { place, offset };
        place = next;
        count += 1;
    }
    Some(Layout { count, sent })
}

// Where an update falls in a frame that ends at `end`: one that may lie far ahead, and does, at no sample.
#[tactic(auto, unfolding(crate::specs::Falls::offset_in))]
fn offset_in(update: Record<'_>, end: FrameOffset) -> FrameOffset
    ensures { result.0 ≡ offset_in end.0 update.entry.meta.now update.entry.place }
{
    let offset = update.offset();
    if update.is_far() && end <= offset {
        NO_SAMPLE
    } else {
        offset
    }
}

// ---- where a record stands, of a list that is laid out

// The record after an element, of an update of so many objects.
#[tactic(auto, unfolding(crate::specs::Laid::element_end))]
pub fn element_after(element: Record<'_>, objects: usize) -> usize
    requires { (objects ≤ 32) × (blocks element.meta.now element.place ≤ 8) }
    ensures { result ≡ element_end element.entry.meta.now objects element.entry.place }
{
    let n = element.blocks();
    element.place + 1 + n + cells(objects, n)
}

// The record of block b of the element at e.
pub fn block_place(e: usize, b: usize) -> usize
    requires { (e < 1152921504606846976) × (b ≤ 8) }
    ensures { result ≡ block_at e b }
{
    e + 1 + b
}

// The record of object o in block b of an element.
#[tactic(auto, unfolding(crate::specs::Laid::object_at))]
pub fn object_place(element: Record<'_>, o: usize, b: usize) -> usize
    requires { (o ≤ 32) × (blocks element.meta.now element.place ≤ 8) × (b < 8) }
    ensures { result ≡ object_at element.entry.meta.now element.entry.place (o * blocks element.entry.meta.now element.entry.place + b) }
{
    let n = element.blocks();
    element.place + 1 + n + (cells(o, n) + b)
}
