// The loops over the bytes of so many samples, four channels at a time: the compiler takes four codes together.
ghost use Rattle.std.specs.Prelude.{◌≡◌, ℕ, ◌+◌, ◌*◌, ◌≤◌, ◌<◌, length, true};
ghost use Rattle.words.specs.Words.{with_number};
ghost use Rattle.pcm24.specs.Interleaved as interleaved;
ghost use Rattle.pcm24.specs.Refused.{rows_writable};

use crate::codes::{code_of_bits, sample_bits};
use words::{put_u32, u32_at};

// A code, least byte first.
#[tactic(auto, using(crate::proofs::Three::three_put))]
fn put_code(dest: &mut [u8], at: usize, code: u32)
    requires { at + 3 ≤ length dest.old }
    ensures { dest.new ≡ with_number dest.old at 3 code }
{
    dest[at] = (code % 256) as u8;
    dest[at + 1] = ((code >> 8) % 256) as u8;
    dest[at + 2] = ((code >> 16) % 256) as u8;
}

// The first `count` samples of each channel, sample after sample.
pub fn interleave(out: &[u8], stride: usize, count: usize, dest: &mut [u8])
    requires rows { 48 * stride ≤ length out.now }
    requires count { count ≤ stride }
    requires stride { stride ≤ 1536 }
    requires writable { rows_writable out.now stride count 12 0 ≡ true }
    requires dest { 36 * count ≤ length dest.old }
    ensures { dest.new ≡ interleaved.interleaved out.now stride count dest.old }
{
    for four in 0..3 {
        for i in 0..count {
            let at = 4 * (4 * four * stride + i);
            let a = code_of_bits(u32_at(out, at));
            let b = code_of_bits(u32_at(out, at + 4 * stride));
            let c = code_of_bits(u32_at(out, at + 8 * stride));
            let d = code_of_bits(u32_at(out, at + 12 * stride));
            let to = 36 * i + 12 * four;
            put_code(dest, to, a);
            put_code(dest, to + 3, b);
            put_code(dest, to + 6, c);
            put_code(dest, to + 9, d);
        }
    }
}

// Such samples, channel after channel.
pub fn separate(source: &[u8], count: usize, dest: &mut [u8])
    requires source { length source.now ≡ 36 * count }
    requires dest { 48 * count ≤ length dest.old }
    ensures { dest.new ≡ interleaved.in_channels source.now count dest.old }
{
    for four in 0..3 {
        for i in 0..count {
            let at = 36 * i + 12 * four;
            // four codes are three words
            let u = u32_at(source, at);
            let v = u32_at(source, at + 4);
            let w = u32_at(source, at + 8);
            let a = sample_bits(u % 0x100_0000);
            let b = sample_bits((u >> 24) + (v % 0x1_0000 << 8));
            let c = sample_bits((v >> 16) + (w % 0x100 << 16));
            let d = sample_bits(w >> 8);
            let to = 4 * (4 * four * count + i);
            put_u32(dest, to, a);
            put_u32(dest, to + 4 * count, b);
            put_u32(dest, to + 8 * count, c);
            put_u32(dest, to + 12 * count, d);
        }
    }
}
