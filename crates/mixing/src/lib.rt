// SPDX-License-Identifier: Apache-2.0
// Translated from libstarmine_ad render.rs; changed.

// Mixing: samples times a gain added to a channel, over whole channels and over segments, and samples out of the bytes of a frame's PCM.
#![tactic(auto)]

ghost use Rattle.std.specs.Prelude.{◌≡◌, ℕ, ◌+◌, ◌*◌, ◌%◌, ◌<◌, ◌≤◌, length};
ghost use Rattle.words.specs.Words.{word, float_at};
ghost use Rattle.mixing.specs.Mixing.{mixed, mixed_full};
ghost use Rattle.mixing.specs.Part.{on_part};
ghost use Rattle.mixing.specs.FrameSamples.{samples, all_pass};
ghost use Rattle.mixing.specs.SampleBits.{Plain};

// Each sample of `input` times the gain is added to the output's.
pub fn mix_add_scaled(input: &[f32], output: &mut [f32], gain: f32)
    requires { length input.now ≤ length output.old }
    ensures { output.new ≡ mixed input.now gain output.old }
{
    for k in 0..input.len() {
        output[k] += input[k] * gain;
    }
}

// The same; a gain of either zero adds nothing.
pub fn mix_full_channel(input: &[f32], output: &mut [f32], gain: f32)
    requires { length input.now ≤ length output.old }
    ensures { output.new ≡ mixed_full input.now gain output.old }
{
    if gain == 0.0 {
        return;
    }
    mix_add_scaled(input, output, gain);
}

// The same from `offset` on: the segment is lent as a part of the output.
pub fn mix_segment(input: &[f32], output: &mut [f32], offset: usize, gain: f32)
    requires { offset + length input.now ≤ length output.old }
    ensures { output.new ≡ on_part (mixed_full input.now gain) offset (length input.now) output.old }
{
    let end = offset + input.len();
    mix_full_channel(input, &mut output[offset..end], gain);
}

// Refusal 8: whether each of `count` samples from `at` on is finite and within ±16. All are looked at, where `all` stops at the first that is not: so the loop is vectorised.
pub fn samples_pass(pcm: &[u8], at: usize, count: usize) -> bool
    requires { at + 4 * count ≤ length pcm.now }
    ensures { result ≡ all_pass pcm.now at count }
{
    let mut pass = true;
    for i in 0..count {
        pass &= words::u32_at(pcm, at + 4 * i) % 0x8000_0000 <= 0x4180_0000;
    }
    pass
}

// The sample whose word stands at `at`: no NaN's pattern, so that there is no branch.
#[tactic(auto, using(words::proofs::Nan::not_above), unfolding(words::specs::Words::float_at))]
fn sample_at(pcm: &[u8], at: usize) -> f32
    requires { (at + 4 ≤ length pcm.now) × (word pcm.now at % 0x8000_0000 ≤ 0x7f80_0000) }
    ensures { result ≡ float_at pcm.now at }
{
    f32::from_bits(words::u32_at(pcm, at))
}

// The samples whose words stand from `at` on, as many as `row` has. One alone is read by itself: of the loop the compiler makes a call that copies bytes.
pub fn read_row(pcm: &[u8], at: usize, row: &mut [f32])
    requires row_in_bounds { at + 4 * length row.old ≤ length pcm.now }
    requires plain { Plain pcm.now at (length row.old) }
    ensures { row.new ≡ samples pcm.now at (length row.old) }
{
    if row.len() == 1 {
        row[0] = sample_at(pcm, at);
        return;
    }
    for i in 0..row.len() {
        row[i] = sample_at(pcm, at + 4 * i);
    }
}
