// Numbers in byte slices, little-endian: u16, u32, u64, i64 and f32 at any place, and runs of u32.
// A slice and a place (`s`, `at`) are two arguments, each contract asking that the place is there: the places are those of the block and of C's records, counted by who calls, and
// a public function keeps its arguments.
#![tactic(auto)]

ghost use Rattle.std.specs.Prelude.{◌≡◌, ◌+◌, ◌*◌, ◌≤◌, length};
ghost use Rattle.std.specs.Float.{binary32};
ghost use Rattle.std.specs.Float.Ieee.{of_bits, to_bits};
ghost use Rattle.words.specs.Words.{half, with_half, word, with_word, long, with_long};
ghost use Rattle.words.specs.Words.{signed_at, float_at, with_float};
ghost use Rattle.words.specs.Words.{with_words};

use std::num;

// Reads and stores by a width each: a trait over them would have one impl a width, of these same lines.
#[tactic(auto, using(crate::proofs::Numbers::half_read))]
pub fn u16_at(s: &[u8], at: usize) -> u16
    requires { at + 2 ≤ length s.now }
    ensures { result ≡ half s.now at }
{
    u16::from_le_bytes([s[at], s[at + 1]])
}

// By its bytes, which compiles to one load also where a loop over it is vectorised: a copy of them into an array keeps a test and a stack slot a read
// (`at_most` of formats over 16 places: 43 instructions, and 176 with the copy).
#[tactic(auto, using(crate::proofs::Numbers::word_read))]
pub fn u32_at(s: &[u8], at: usize) -> u32
    requires { at + 4 ≤ length s.now }
    ensures { result ≡ word s.now at }
{
    u32::from_le_bytes([s[at], s[at + 1], s[at + 2], s[at + 3]])
}

#[tactic(auto, using(crate::proofs::Numbers::long_read))]
pub fn u64_at(s: &[u8], at: usize) -> u64
    requires { at + 8 ≤ length s.now }
    ensures { result ≡ long s.now at }
{
    u64::from_le_bytes([
        s[at],
        s[at + 1],
        s[at + 2],
        s[at + 3],
        s[at + 4],
        s[at + 5],
        s[at + 6],
        s[at + 7],
    ])
}

#[tactic(auto, using(crate::proofs::Written::number_put))]
pub fn put_u16(s: &mut [u8], at: usize, n: u16)
    requires { at + 2 ≤ length s.old }
    ensures { s.new ≡ with_half s.old at n }
{
    s[at..at + 2].copy_from_slice(&n.to_le_bytes());
}

#[tactic(auto, using(crate::proofs::Written::number_put))]
pub fn put_u32(s: &mut [u8], at: usize, n: u32)
    requires { at + 4 ≤ length s.old }
    ensures { s.new ≡ with_word s.old at n }
{
    s[at..at + 4].copy_from_slice(&n.to_le_bytes());
}

#[tactic(auto, using(crate::proofs::Written::number_put))]
pub fn put_u64(s: &mut [u8], at: usize, n: u64)
    requires { at + 8 ≤ length s.old }
    ensures { s.new ≡ with_long s.old at n }
{
    s[at..at + 8].copy_from_slice(&n.to_le_bytes());
}

pub fn i64_at(s: &[u8], at: usize) -> i64
    requires { at + 8 ≤ length s.now }
    ensures { result ≡ signed_at s.now at }
{
    u64_at(s, at).cast_signed()
}

// The float of a bit pattern; every NaN pattern gives a NaN. The library's function by a name of our own, as C probes it, and so `bits_of`: the contract is the definition's word.
pub fn f32_of(n: u32) -> f32
    ensures { result ≡ of_bits binary32 n }
{
    num::f32_from_bits_with_nan(n)
}

// The bit pattern of a float, 0x7fc00000 for every NaN.
pub fn bits_of(x: f32) -> u32
    ensures { result ≡ to_bits binary32 x }
{
    num::f32_to_bits_with_nan(x)
}

#[tactic(auto, unfolding(crate::specs::Words::float_at))]
pub fn f32_at(s: &[u8], at: usize) -> f32
    requires { at + 4 ≤ length s.now }
    ensures { result ≡ float_at s.now at }
{
    f32_of(u32_at(s, at))
}

#[tactic(auto, unfolding(crate::specs::Words::with_float))]
pub fn put_f32(s: &mut [u8], at: usize, x: f32)
    requires { at + 4 ≤ length s.old }
    ensures { s.new ≡ with_float s.old at x }
{
    put_u32(s, at, bits_of(x));
}

// The words of `ws` from `at` on.
pub fn put_words(s: &mut [u8], at: usize, ws: &[u32])
    requires { at + 4 * length ws.now ≤ length s.old }
    ensures { s.new ≡ with_words s.old at ws.now }
{
    for (i, w) in ws.iter().enumerate() {
        put_u32(s, at + 4 * i, *w);
    }
}
