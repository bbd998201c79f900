// A channel's terms summed over 32 samples at a time, then over 4, then one by one: the sums of a strip stay in registers over all its terms.
ghost use Rattle.std.specs.Prelude.{◌≡◌, ◌+◌, ◌*◌, ◌<◌, ◌≤◌, length};
ghost use Rattle.mixing.specs.FrameSamples.{samples};
ghost use Rattle.mixing.specs.SampleBits.{Plain};
ghost use Rattle.render.specs.Listed.{FedBy, sum_at, sums_at};

use crate::Input;
use crate::lists::Fed;
use std::simd::prelude::*;

// Sixteen samples, and four, from `at` on. Of the slice alone, since a slice says that it holds bytes, and not so one in a struct.
#[inline(always)]
fn sixteen_at(pcm: &[u8], at: usize) -> f32x16
    requires room { at + 64 ≤ length pcm.now }
    requires plain { Plain pcm.now at 16 }
    ensures { result ≡ samples pcm.now at 16 }
{
    f32x16::from_bits(u32x16::from_le_bytes(u8x64::from_slice(&pcm[at..])))
}

#[inline(always)]
fn four_at(pcm: &[u8], at: usize) -> f32x4
    requires room { at + 16 ≤ length pcm.now }
    requires plain { Plain pcm.now at 4 }
    ensures { result ≡ samples pcm.now at 4 }
{
    f32x4::from_bits(u32x4::from_le_bytes(u8x16::from_slice(&pcm[at..])))
}

impl Input<'_> {
    // Where the samples of a term begin, at the run's sample i.
    fn start(self, input: u32, i: usize) -> usize
        requires { (input < length self.codes.list.now + self.objects) × (i < self.span.count) }
        ensures { result ≡ 4 * (input * self.entry.span.frame + (self.entry.span.first + i)) }
    {
        4 * (input as usize * self.span.frame + (self.span.first + i))
    }

    // Sixteen samples of an input from the run's sample i on.
    fn sixteen(self, input: u32, i: usize) -> f32x16
        requires { (input < length self.codes.list.now + self.objects) × (i + 16 ≤ self.span.count) }
        ensures { result ≡ samples self.entry.pcm.now (4 * (input * self.entry.span.frame + (self.entry.span.first + i))) 16 }
    {
        sixteen_at(self.pcm, self.start(input, i))
    }

    fn four(self, input: u32, i: usize) -> f32x4
        requires { (input < length self.codes.list.now + self.objects) × (i + 4 ≤ self.span.count) }
        ensures { result ≡ samples self.entry.pcm.now (4 * (input * self.entry.span.frame + (self.entry.span.first + i))) 4 }
    {
        four_at(self.pcm, self.start(input, i))
    }

    // The sums of the 32 samples from sample i on: two vectors, since one addition waits for the one before it.
    fn sum_32(self, terms: &[Fed], i: usize, row: &mut [f32])
        requires { FedBy (length self.codes.list.now + self.objects) terms.now × (i + 32 ≤ self.span.count) × (length row.old ≡ 32) }
        ensures { row.new ≡ sums_at self.entry.pcm.now self.entry.span.frame terms.now (self.entry.span.first + i) 32 }
    {
        let mut a = f32x16::splat(0.0);
        let mut b = f32x16::splat(0.0);
        for t in terms {
            let gain = f32x16::splat(t.gain);
            a += self.sixteen(t.input, i) * gain;
            b += self.sixteen(t.input, i + 16) * gain;
        }
        a.copy_to_slice(&mut row[..16]);
        b.copy_to_slice(&mut row[16..]);
    }

    fn sum_4(self, terms: &[Fed], i: usize, row: &mut [f32])
        requires { FedBy (length self.codes.list.now + self.objects) terms.now × (i + 4 ≤ self.span.count) × (length row.old ≡ 4) }
        ensures { row.new ≡ sums_at self.entry.pcm.now self.entry.span.frame terms.now (self.entry.span.first + i) 4 }
    {
        let mut sums = f32x4::splat(0.0);
        for t in terms {
            sums += self.four(t.input, i) * f32x4::splat(t.gain);
        }
        sums.copy_to_slice(row);
    }

    fn sum_1(self, terms: &[Fed], i: usize) -> f32
        requires { FedBy (length self.codes.list.now + self.objects) terms.now × (i < self.span.count) }
        ensures { result ≡ sum_at self.entry.pcm.now self.entry.span.frame terms.now (self.entry.span.first + i) }
    {
        let mut sum = 0.0f32;
        for t in terms {
            sum += f32::from_bits(words::u32_at(self.pcm, self.start(t.input, i))) * t.gain;
        }
        sum
    }

    // The sums of the run's samples.
    pub(crate) fn sum_row(self, terms: &[Fed], row: &mut [f32])
        requires { FedBy (length self.codes.list.now + self.objects) terms.now × (length row.old ≡ self.span.count) }
        ensures { row.new ≡ sums_at self.entry.pcm.now self.entry.span.frame terms.now self.entry.span.first self.entry.span.count }
    {
        let count = row.len();
        let strips = count / 32;
        for s in 0..strips {
            let i = 32 * s;
            self.sum_32(terms, i, &mut row[i..i + 32]);
        }
        let fours = count / 4;
        for s in 8 * strips..fours {
            let i = 4 * s;
            self.sum_4(terms, i, &mut row[i..i + 4]);
        }
        for i in 4 * fours..count {
            row[i] = self.sum_1(terms, i);
        }
    }
}
