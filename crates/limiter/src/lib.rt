// SPDX-License-Identifier: Apache-2.0
// Translated from libstarmine_ad render.rs; changed.

// The output limiter: the peak of a block, the gain that it leaves, scaling, and the gain's growth.
#![tactic(auto)]

pub mod meters;
pub mod places;

ghost use Rattle.std.specs.Prelude.{◌≡◌, ◌≤◌, map};
ghost use Rattle.std.specs.Simd.Lanes.{zip2};
ghost use Rattle.ieee.specs.Bounds.{All};
ghost use Rattle.ieee.specs.Small.{absolute, larger};
ghost use Rattle.limiter.specs.Level.{Level};
ghost use Rattle.limiter.specs.Limiter.{0·0, 1·0, peak_from, peak, lowered, grown};
ghost use Rattle.limiter.specs.Limiter.{block_peak};
ghost use Rattle.limiter.specs.ChannelPlaces.{channels, Room, Given};

use formats::areas;
use meters::Meters;
use places::Taken;
use std::simd::prelude::*;

#[derive(Clone, Copy)]
pub struct Limiter {
    pub gain: f32,
}

// The limiter after a block, and what it met there.
#[derive(Clone, Copy)]
pub struct Limited {
    pub limiter: Limiter,
    pub meters: Meters,
}

// The maximum of a level and the size of a sample: one plain comparison, since a level is no NaN. `ieee::max` tests for one.
// That `max` is one stands in the contract: a type of levels would be wrapped and unwrapped at each comparison, and cannot be a lane.
#[tactic(auto, using(crate::proofs::Levels::raise_left))]
fn raise(max: f32, sample: f32) -> f32
    requires { Level max }
    ensures { (result ≡ larger max (absolute sample)) × Level result }
{
    let size = ieee::abs(sample);
    if max < size { size } else { max }
}

fn max_abs_from(max: f32, samples: &[f32]) -> f32
    requires { Level max }
    ensures { (result ≡ peak_from max samples.now) × Level result }
{
    let mut m = max;
    for x in samples {
        m = raise(m, *x);
    }
    m
}

// Sixteen levels and sixteen samples, lane by lane as in `raise`. Vectors are written out, since the compiler fences each operand of a comparison of two f32 and makes none of a loop.
fn raise_lanes(max: f32x16, samples: f32x16) -> f32x16
    requires { All Level max }
    ensures { (result ≡ zip2 larger max (map absolute samples)) × All Level result }
{
    let negated = f32x16::splat(0.0) - samples;
    let size = samples.simd_gt(negated).select(samples, negated);
    max.simd_lt(size).select(size, max)
}

// Sixteen running maxima, so that no comparison waits for the one before it, and then the rest.
pub fn max_abs_slice(samples: &[f32]) -> f32
    ensures { (result ≡ peak samples.now) × Level result }
{
    let mut lanes = f32x16::splat(0.0);
    let (sixteens, rest) = samples.as_chunks::<16>();
    for x in sixteens {
        lanes = raise_lanes(lanes, f32x16::from_array(*x));
    }
    let all: [f32; 16] = lanes.to_array();
    max_abs_from(max_abs_from(0.0, &all), rest)
}

// The peak of a block: twelve channels of 64 places, over those that are there.
#[tactic(auto, using(crate::proofs::Blocks::peak_next))]
fn block_peak(block: &[f32; areas::PLACE_COUNT], taken: Taken) -> f32
    ensures { result ≡ block_peak 0·0 (channels taken.entry.present.now taken.entry.samples block.now) }
{
    let mut max: f32 = 0.0;
    for c in 0..areas::ROW_COUNT {
        if !taken.present[c] {
            continue;
        }
        let at = areas::ROW_PLACES * c;
        max = raise(max, max_abs_slice(&block[at..at + taken.samples]));
    }
    max
}

impl Limiter {
    pub fn new() -> Self
        ensures { result.gain ≡ 1·0 }
    {
        Limiter { gain: 1.0 }
    }

    // The limiter that scales a block of this peak.
    #[tactic(auto, using(crate::proofs::Lowering::lowered_above, crate::proofs::Lowering::lowered_below))]
    pub fn lower(self, peak: f32) -> Self
        ensures { result.gain ≡ lowered peak self.gain }
    {
        if peak * self.gain > 1.0 {
            return Limiter { gain: 0.9 / peak };
        }
        self
    }

    // What is shown of a block of this peak that this limiter scales.
    pub fn meters(self, peak: f32) -> Meters
        ensures { (result.peak ≡ peak) × (result.gain ≡ self.gain) }
    {
        Meters {
            peak,
            gain: self.gain,
        }
    }

    // The limiter after a block of this length. The rate is asked as a fact of a number, as in `angles`: it is C's and the block's, and a type of its own would ask more.
    #[tactic(auto, using(ieee::proofs::Constants::in_float_is), unfolding(crate::specs::Limiter::grown))]
    pub fn grow(self, samples: u32, rate: u32) -> Self
        requires { (samples ≤ 16777216) × (rate ≤ 16777216) }
        ensures { result.gain ≡ grown samples rate self.gain }
    {
        let gain = self.gain + samples as f32 / rate as f32;
        if gain > 1.0 {
            return Limiter { gain: 1.0 };
        }
        Limiter { gain }
    }

    // One block from the places of a state block to the output, channel c at `to` + c x `step`.
    // `out`, `step` and `to` go together here and in `store_block` alone: a type of them would be made and taken apart in one line.
    pub fn apply_output_limiter_block(
        self,
        places: &[u8],
        taken: Taken,
        rate: u32,
        out: &mut [u8],
        step: usize,
        to: usize,
    ) -> Limited
        requires { Room places.now taken.samples rate out.old step to }
        ensures { Given self.gain taken.entry.present.now taken.entry.samples rate places.now step to out.old result out.new }
    {
        let mut block = [0.0f32; areas::PLACE_COUNT];
        places::load_block(places.as_array().unwrap(), taken, &mut block);
        let peak = block_peak(&block, taken);
        let scaling = self.lower(peak);
        places::store_block(&block, taken, scaling.gain, out, step, to);
        let next = scaling.grow(taken.samples as u32, rate);
        Limited {
            limiter: next,
            meters: scaling.meters(peak),
        }
    }
}
