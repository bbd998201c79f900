// What stands in the tables of the small part, each as its format says: codes, gains, sources, blocks, tracks, elements.
ghost use Rattle.std.specs.Prelude.{◌≡◌, ◌+◌, ◌*◌, ◌≤◌, eqb, length, get_or, refl};
ghost use Rattle.formats.specs.Format as format;
ghost use Rattle.formats.specs.Format.{u8_to};
ghost use Rattle.formats.specs.NumberWords.{in_words};
ghost use Rattle.store.specs.Fields.{vec_format, source_format, block_format, track_format, element_format};
ghost use Rattle.store.specs.Entries.{lawful_code, lawful_float, lawful_source, lawful_block, lawful_track, lawful_element};

use crate::entry::{Entry, put_table, table};
use crate::places;
use formats::{float, long, word_of};
use timed::state::{BlockState, DynamicSourceState, ElementRendererState, Track};
use vectors::Vec3;

// The count at a word, and the flag.
pub(crate) fn count(s: &[u8], at: usize) -> usize
    requires { 4 * at + 4 ≤ length s.now }
    ensures { result ≡ get_or (in_words s.now) at 0 }
{
    word_of(s, at) as usize
}

pub(crate) fn flag(s: &[u8], at: usize) -> bool
    requires { 4 * at + 4 ≤ length s.now }
    ensures { result ≡ eqb (get_or (in_words s.now) at 0) 1 }
{
    word_of(s, at) == 1
}

#[tactic(auto, unfolding(formats::specs::Format::gets))]
fn vec(s: &[u8], at: usize) -> Vec3
    requires { 4 * (at + vec_format.width) ≤ length s.now }
    ensures { result ≡ vec_format.get (in_words s.now) at }
{
    let [x, y, z]: [f32; 3] = table(s, at);
    Vec3 { x, y, z }
}

// Each type says its words, in an impl of the same shape: the laws are of its own format, and a trait's constant that clauses name has no value for all. What is alike, a
// table of them, is written once (`entry`).

// The code of a bed channel.
impl Entry for u8 {
    const WORDS: usize = 1;

    ghost WORDS = { 1 };

    ghost format = { u8_to 17 };

    ghost width = { refl };

    ghost lawful = { lawful_code };

    fn read(s: &[u8], at: usize) -> u8 {
        (word_of(s, at) % 256) as u8
    }

    fn put(&self, s: &mut [u8], at: usize) {
        words::put_u32(s, at, u32::from(*self));
    }
}

impl Entry for f32 {
    const WORDS: usize = 1;

    ghost WORDS = { 1 };

    ghost format = { format.float };

    ghost width = { refl };

    ghost lawful = { lawful_float };

    fn read(s: &[u8], at: usize) -> f32 {
        float(s, at)
    }

    fn put(&self, s: &mut [u8], at: usize) {
        words::put_u32(s, at, words::bits_of(*self));
    }
}

impl Entry for DynamicSourceState {
    const WORDS: usize = places::SOURCE;

    ghost WORDS = { source_format.width };

    ghost format = { source_format };

    ghost width = { refl };

    ghost lawful = { lawful_source };

    fn read(s: &[u8], at: usize) -> DynamicSourceState {
        let size = at + 1;
        let place = size + 1;
        let marks = place + places::VEC;
        let send = marks + 1;
        let m = word_of(s, marks);
        DynamicSourceState {
            gain: float(s, at),
            size: float(s, size),
            place: vec(s, place),
            placed: m % 2 == 1,
            wanted: m / 2 % 2 == 1,
            held: m / 4 % 2 == 1,
            send: float(s, send),
        }
    }

    fn put(&self, s: &mut [u8], at: usize) {
        let w = [
            words::bits_of(self.gain),
            words::bits_of(self.size),
            words::bits_of(self.place.x),
            words::bits_of(self.place.y),
            words::bits_of(self.place.z),
            formats::bit(self.placed)
                + (2 * formats::bit(self.wanted) + 4 * formats::bit(self.held)),
            words::bits_of(self.send),
        ];
        words::put_words(s, at, &w);
    }
}

impl Entry for BlockState {
    const WORDS: usize = places::BLOCK;

    ghost WORDS = { block_format.width };

    ghost format = { block_format };

    ghost width = { refl };

    ghost lawful = { lawful_block };

    fn read(s: &[u8], at: usize) -> BlockState {
        let ramp = at + 1;
        let used = ramp + 1;
        BlockState {
            offset: word_of(s, at),
            ramp: word_of(s, ramp),
            used: flag(s, used),
        }
    }

    fn put(&self, s: &mut [u8], at: usize) {
        let w = [self.offset, self.ramp, formats::bit(self.used)];
        words::put_words(s, at, &w);
    }
}

impl Entry for Track {
    const WORDS: usize = places::TRACK;

    ghost WORDS = { track_format.width };

    ghost format = { track_format };

    ghost width = { refl };

    ghost lawful = { lawful_track };

    fn read(s: &[u8], at: usize) -> Track {
        Track {
            now: flag(s, at),
            future: vec(s, at + 1),
        }
    }

    fn put(&self, s: &mut [u8], at: usize) {
        let w = [
            formats::bit(self.now),
            words::bits_of(self.future.x),
            words::bits_of(self.future.y),
            words::bits_of(self.future.z),
        ];
        words::put_words(s, at, &w);
    }
}

impl Entry for ElementRendererState {
    const WORDS: usize = places::ELEMENT;

    ghost WORDS = { element_format.width };

    ghost format = { element_format };

    ghost width = { refl };

    ghost lawful = { lawful_element };

    fn read(s: &[u8], at: usize) -> ElementRendererState {
        let flags = at + 1;
        let remaining = flags + 1;
        let blocks = at + places::HEAD;
        let rows = blocks + places::SCHEDULE;
        ElementRendererState {
            blocks: count(s, at),
            flags: count(s, flags),
            remaining: long(s, remaining),
            schedule: table(s, blocks),
            tracks: table(s, rows),
        }
    }

    #[tactic(auto, using(crate::proofs::Stores::element_stored))]
    fn put(&self, s: &mut [u8], at: usize) {
        let head = [
            formats::count(self.blocks),
            formats::count(self.flags),
            formats::low(self.remaining),
            formats::high(self.remaining),
        ];
        words::put_words(s, at, &head);
        let blocks = at + 4 * places::HEAD;
        put_table(s, blocks, &self.schedule);
        put_table(s, blocks + 4 * places::SCHEDULE, &self.tracks);
    }
}
