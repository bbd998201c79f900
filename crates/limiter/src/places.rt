// SPDX-License-Identifier: Apache-2.0
// Translated from libstarmine_ad render.rs; changed.

// The limiter over bytes: from the places of a state block to the output.
ghost use Rattle.std.specs.Prelude.{◌≡◌, ◌+◌, ◌*◌, ◌≤◌, length};
ghost use Rattle.formats.specs.Areas.{row_count, row_places};
ghost use Rattle.limiter.specs.Limiter.{scaled, scaled_block};
ghost use Rattle.limiter.specs.ChannelPlaces.{floats_at, with_floats, channels, overlaid, channels_at, with_channels};

use formats::areas;
use std::simd::prelude::*;

// How many of the 64 places of each channel are taken, and which channels there are.
#[derive(Clone, Copy)]
pub struct Taken<'a> {
    pub samples: usize,
    pub present: &'a [bool; areas::ROW_COUNT],
    ghost most: { samples ≤ row_places },
    ghost rows: { length present.now ≡ row_count },
}

// The floats from `at` on, as many as `samples` has. `mixing::read_row` reads without a test for NaNs, which it asks of the bytes, and is quicker.
pub fn load_samples(places: &[u8], at: usize, samples: &mut [f32])
    requires { at + 4 * length samples.old ≤ length places.now }
    ensures { samples.new ≡ floats_at places.now at (length samples.old) }
{
    for i in 0..samples.len() {
        samples[i] = words::f32_at(places, at + 4 * i);
    }
}

// Four samples from `at` on; a NaN as every NaN is written. `std::simd` compares four at once: of `words::put_f32`, which tests one float for a NaN by comparing it, LLVM makes no
// vectors.
fn put_lanes(out: &mut [u8], at: usize, samples: f32x4)
    requires { at + 16 ≤ length out.old }
    ensures { out.new ≡ with_floats out.old at samples }
{
    let plain = samples.simd_eq(samples);
    // `to_bits` asks that no lane is a NaN
    let bits = plain.select(samples, f32x4::splat(0.0)).to_bits();
    let bits = plain.select(bits, u32x4::splat(0x7fc0_0000));
    bits.to_le_bytes().copy_to_slice(&mut out[at..at + 16]);
}

// The samples times the gain, into a part of the output: by fours, and then the rest. The Rust passes over a gain of 1.0, which changes no float.
#[tactic(auto, using(crate::proofs::Scaled::write_four, crate::proofs::Scaled::write_more, crate::proofs::Scaled::write_end))]
pub fn scale_slice_into(samples: &[f32], gain: f32, out: &mut [u8])
    requires { length out.old ≡ 4 * length samples.now }
    ensures { out.new ≡ with_floats out.old 0 (scaled gain samples.now) }
{
    let fours = samples.len() / 4;
    for j in 0..fours {
        put_lanes(
            out,
            16 * j,
            f32x4::from_slice(&samples[4 * j..]) * f32x4::splat(gain),
        );
    }
    for i in 4 * fours..samples.len() {
        words::put_f32(out, 4 * i, samples[i] * gain);
    }
}

// The places of a state block that are taken, in a block of floats. The row of a channel that is not there stays.
#[tactic(auto, using(crate::proofs::Blocks::load_end))]
pub fn load_block(
    places: &[u8; areas::PLACES_BYTES],
    taken: Taken,
    block: &mut [f32; areas::PLACE_COUNT],
)
    ensures { block.new ≡ overlaid (channels_at taken.entry.present.now taken.entry.samples places.now 0) block.old }
{
    for row in 0..areas::ROW_COUNT {
        if !taken.present[row] {
            continue;
        }
        let at = areas::ROW_PLACES * row;
        load_samples(places, 4 * at, &mut block[at..at + taken.samples]);
    }
}

// The block times the gain, channel c at `to` + c x `step`. Nothing is written of a channel that is not there.
#[tactic(auto, using(crate::proofs::Blocks::room_at))]
pub fn store_block(
    block: &[f32; areas::PLACE_COUNT],
    taken: Taken,
    gain: f32,
    out: &mut [u8],
    step: usize,
    to: usize,
)
    requires { (to + 4 * taken.samples ≤ step) × (row_count * step ≤ length out.old) }
    ensures { out.new ≡ with_channels (scaled_block gain (channels taken.entry.present.now taken.entry.samples block.now)) step to out.old }
{
    for c in 0..areas::ROW_COUNT {
        if !taken.present[c] {
            continue;
        }
        let at = areas::ROW_PLACES * c;
        let from = step * c + to;
        let until = from + 4 * taken.samples;
        scale_slice_into(&block[at..at + taken.samples], gain, &mut out[from..until]);
    }
}
