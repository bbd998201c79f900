// Kind 4, object in a block.
ghost use Rattle.std.specs.Prelude.{◌≡◌, ◌==◌, ◌&&◌, length, slice_index, nat_le, ◌+◌, ◌*◌, ◌<◌, ◌≤◌, nat_lt, from_bits};
ghost use Rattle.std.specs.Float.{binary32};
ghost use Rattle.std.specs.Option.{is_some, unwrap_or};
ghost use Rattle.vectors.specs.Head.{head_word};
ghost use Rattle.fields.specs.RecordBytes.{byte, has};
ghost use Rattle.fields.specs.Object.{value_fits, values_fit, is_object, depth_code, object_of, from_zero_to, depth_fits, object_in_range};
ghost use Rattle.fields.specs.ObjectInfos.{stored_info};

use crate::record::{OBJECT, Record};

// The kind, as the low byte of a word. By `as`: a constant cannot call `u32::from`.
const KIND: u32 = OBJECT as u32;

// The flags that a value is present.
const GAIN: u8 = 4;

const POSITION: u8 = 8;

const DISTANCE: u8 = 16;

const SIZE: u8 = 32;

// The bits of 1.0 and of 8.0.
const ONE: u32 = 0x3f80_0000;

const EIGHT: u32 = 0x4100_0000;

// Whether the four bytes from `at` on are an object's kind, anchor and flags and a zero, by their word.
#[tactic(auto, using(crate::proofs::HeadWord::head_word_is))]
fn is_object_head(meta: &[u8], at: usize) -> bool
    requires { at + 4 ≤ length meta.now }
    ensures { result ≡ (slice_index meta.now at == 4 && nat_le (slice_index meta.now (at + 1)) 2 && nat_le (slice_index meta.now (at + 2)) 63 && slice_index meta.now (at + 3) == 0) }
{
    let head = words::u32_at(meta, at);
    (head % 256 == KIND) & (head / 256 % 256 <= 2) & (head / 65536 <= 63)
}

// Whether the float of the bits w is from 0 to the one of the bits `most`: from 0 on floats are in the order of their bits, and -0.0 is no less than 0.
#[tactic(auto, using(ieee::proofs::Theorems::bits_up_to))]
fn up_to(most: u32, w: u32) -> bool
    requires { most < 2139095040 }
    ensures { result ≡ from_zero_to (from_bits binary32 most) (from_bits binary32 w) }
{
    (w <= most) | (w == 0x8000_0000)
}

// The code of the depth factor of the bits w, if it is listed.
#[tactic(auto, using(crate::proofs::RangesByBits::depth_listed))]
fn depth_of(w: u32) -> Option<u8>
    ensures code { unwrap_or result 4 ≡ depth_code (from_bits binary32 w) }
    ensures listed { is_some result ≡ nat_lt (depth_code (from_bits binary32 w)) 4 }
{
    match w {
        0x3e80_0000 => Some(0),
        0x3f00_0000 => Some(1),
        0x3f80_0000 => Some(2),
        0x4000_0000 => Some(3),
        _ => None,
    }
}

// The word of a head.
fn head_of(flags: u8, anchor: u8, depth: u8) -> u32
    ensures { result ≡ head_word (record { flags = flags; anchor = anchor; depth = depth }) }
{
    u32::from_le_bytes([flags, anchor, depth, 0])
}

// What the record says as the state block keeps it: head (flags + 256 anchor + 65,536 depth) and bits.
#[repr(C)]
#[derive(Clone, Copy)]
pub struct Info {
    pub head: u32,
    pub gain: u32,
    pub size: u32,
    pub distance: u32,
    pub screen: u32,
    pub x: u32,
    pub y: u32,
    pub z: u32,
    pub send: u32,
}

impl Record<'_> {
    // Whether the flag that stands for `bit` is set. That it is not 0 is asked here, of a value, and of heads in timed, and is no type: each caller names a constant.
    fn has(self, bit: u8) -> bool
        requires { 0 < bit }
        ensures { result ≡ has (byte self.entry.meta.now self.entry.place 2) bit }
    {
        self.byte(2) / bit % 2 == 1
    }

    // Whether the value of four bytes at byte k is present or zero.
    #[tactic(auto, using(crate::proofs::Zeros::number_zero))]
    fn value_fits(self, bit: u8, k: usize) -> bool
        requires { (0 < bit) × (k + 4 ≤ 40) }
        ensures { result ≡ value_fits self.entry.meta.now (byte self.entry.meta.now self.entry.place 2) bit (40 * self.entry.place + k) 4 }
    {
        self.has(bit) | (self.word(k) == 0)
    }

    // Whether the position, three values, is present or zero.
    #[tactic(auto, using(crate::proofs::Zeros::zero_position))]
    fn position_fits(self) -> bool
        ensures { result ≡ value_fits self.entry.meta.now (byte self.entry.meta.now self.entry.place 2) 8 (40 * self.entry.place + 8) 12 }
    {
        self.has(POSITION) | ((self.word(8) == 0) & (self.word(12) == 0) & (self.word(16) == 0))
    }

    // Whether each value is present or zero.
    #[tactic(auto, unfolding(crate::specs::Object::values_fit))]
    fn values_fit(self) -> bool
        ensures { result ≡ values_fit self.entry.meta.now (40 * self.entry.place) (byte self.entry.meta.now self.entry.place 2) }
    {
        self.value_fits(GAIN, 4)
            & self.position_fits()
            & self.value_fits(DISTANCE, 20)
            & self.value_fits(SIZE, 24)
    }

    // Whether it is an object in a block as laid out, with no branch: which values are present differs from record to record.
    #[tactic(auto, unfolding(crate::specs::Object::is_object))]
    pub fn is_object(self) -> bool
        ensures { result ≡ is_object self.entry.meta.now self.entry.place }
    {
        is_object_head(self.meta, 40 * self.place) & self.values_fit()
    }

    // Whether the object's depth factor is one of the four.
    #[tactic(auto, using(crate::proofs::RangesByBits::float_bits))]
    pub fn depth_fits(self) -> bool
        ensures { result ≡ depth_fits self.entry.meta.now self.entry.place }
    {
        depth_of(self.word(32)).is_some()
    }

    // Whether gain, size, depth factor and send of the object are within their ranges, with no branch.
    #[tactic(auto, using(crate::proofs::RangesByBits::object_by_bits))]
    pub fn object_in_range(self) -> bool
        ensures { result ≡ object_in_range (object_of self.entry.meta.now self.entry.place) }
    {
        let gain = up_to(EIGHT, self.word(4));
        let size = up_to(ONE, self.word(24));
        let depth = depth_of(self.word(32));
        let send = up_to(ONE, self.word(36));
        (!self.has(GAIN) | gain) & (!self.has(SIZE) | size) & depth.is_some() & send
    }

    // What the object says.
    #[tactic(auto, using(crate::proofs::RangesByBits::float_bits))]
    pub fn info(self) -> Info
        ensures { result ≡ stored_info self.entry.meta.now self.entry.place }
    {
        let depth = depth_of(self.word(32)).unwrap_or(4);
        Info {
            head: head_of(self.byte(2), self.byte(1), depth),
            gain: self.word(4),
            size: self.word(24),
            distance: self.word(20),
            screen: self.word(28),
            x: self.word(8),
            y: self.word(12),
            z: self.word(16),
            send: self.word(36),
        }
    }
}
