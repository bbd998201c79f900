// SPDX-License-Identifier: Apache-2.0
// Translated from libstarmine_ad render.rs; changed.

// What a block and a ramp do to beds and dynamic objects.
ghost use Rattle.std.specs.Prelude.{◌≡◌, ℕ, ◌+◌, ◌*◌, ◌<◌, ◌≤◌, length};
ghost use Rattle.timed.specs.InfoSizes.{most_blocks, all_infos, info_bytes, all_bytes, info_at};
ghost use Rattle.timed.specs.Objects.{with_levels, object_moved, moved_all, bed_gains, ramped, ramped_all, freed, freed_all};
ghost use Rattle.timed.specs.TimedResults.{IsMoved, IsMovedAll};

use crate::infos;
use crate::infos::{BLOCKS, GAIN, INFO_BYTES, LAST, POSITION, SIZE};
use crate::slot::Reach;
use crate::state::{DynamicSourceState, Track};

// The object with gain and size where info k has them, and with its send.
fn with_levels(infos: &[u8], k: usize, source: DynamicSourceState) -> DynamicSourceState
    requires { (info_at k + info_bytes ≤ length infos.now) × (k < all_infos) }
    ensures { result ≡ with_levels infos.now k source }
{
    let gain = infos::maybe_at(infos, k, 4, GAIN).unwrap_or(source.gain);
    let size = infos::maybe_at(infos, k, 32, SIZE).unwrap_or(source.size);
    source.heard_with(gain, size, infos::send_at(infos, k))
}

// A dynamic object and its track.
#[derive(Clone, Copy)]
pub struct Moved {
    pub source: DynamicSourceState,
    pub track: Track,
}

// `update_source_state` of info k; where no ramp remains (`arrived`, a fact of the block and no choice of a step), the object is put at its target.
#[tactic(auto, unfolding(crate::specs::Objects::object_moved))]
fn update_source_state(
    infos: &mut [u8],
    k: usize,
    source: DynamicSourceState,
    arrived: bool,
) -> Moved
    requires { (info_at k + info_bytes ≤ length infos.old) × (k < all_infos) }
    ensures { IsMoved (object_moved arrived k source infos.old) result infos.new }
{
    let heard = with_levels(infos, k, source);
    let block = infos::block_position(infos, k);
    let to = block.placed(source.place);
    infos::put_vec(infos, INFO_BYTES * k + POSITION, to.position);
    infos::put_vec(infos, INFO_BYTES * k + LAST, to.last);
    let track = Track {
        now: block.valid,
        future: to.target,
    };
    if block.valid && arrived {
        let place = if heard.wanted { heard.place } else { to.target };
        return Moved {
            source: heard.put_at(place, true),
            track,
        };
    }
    Moved {
        source: heard,
        track,
    }
}

// The dynamic objects, each with where it is going: two tables, since the state has one of the objects, and each element one of where it moves them.
#[derive(Clone, Copy)]
pub struct Moving {
    pub sources: [DynamicSourceState; 16],
    pub tracks: [Track; 16],
}

impl Moving {
    // A block applied to `count` objects; the info of object d is `first` + 8 d.
    #[tactic(auto, using(crate::proofs::LoopTurns::turns), unfolding(crate::specs::Objects::moved_all))]
    pub fn apply_block(&mut self, infos: &mut [u8], first: usize, count: usize, arrived: bool)
        requires { (length infos.old ≡ all_bytes) × (count ≤ 16) × ((d : ℕ) → d < count → first + most_blocks * d < all_infos) }
        ensures { IsMovedAll (moved_all arrived first count self.old infos.old) self.new infos.new }
    {
        for d in 0..count {
            let moved = update_source_state(infos, first + BLOCKS * d, self.sources[d], arrived);
            self.sources[d] = moved.source;
            self.tracks[d] = moved.track;
        }
    }

    // The ramp's share t for `count` objects; `before` has their flags at the element's previous slot.
    #[tactic(auto, using(crate::proofs::LoopTurns::turns), unfolding(crate::specs::Objects::ramped_all))]
    pub fn ramp(&mut self, before: &[Track; 16], count: usize, t: f32)
        requires { count ≤ 16 }
        ensures { self.new ≡ ramped_all t before.now count self.old }
    {
        for d in 0..count {
            self.sources[d] = ramp_one(self.sources[d], self.tracks[d], before[d].now, t);
        }
    }

    // No ramp remains: the released ones of the objects that the element reaches are put at their targets.
    #[tactic(auto, using(crate::proofs::LoopTurns::turns), unfolding(crate::specs::Objects::freed_all))]
    pub(crate) fn free(&mut self, reach: Reach)
        ensures { self.new ≡ freed_all reach.count self.old }
    {
        for d in 0..reach.count {
            self.sources[d] = free_one(self.sources[d], self.tracks[d]);
        }
    }
}

// One object of a ramp: `last` is its flag at the element's previous slot.
#[tactic(auto, unfolding(crate::specs::Objects::ramped))]
fn ramp_one(source: DynamicSourceState, track: Track, last: bool, t: f32) -> DynamicSourceState
    ensures { result ≡ ramped t last track source }
{
    if !track.now {
        return source;
    }
    let place = if source.wanted {
        source.place
    } else if last && source.placed {
        source.place.lerp(track.future, t)
    } else {
        track.future
    };
    source.put_at(place, true)
}

// One object where no ramp remains: a released one is put at its target.
#[tactic(auto, unfolding(crate::specs::Objects::freed))]
fn free_one(source: DynamicSourceState, track: Track) -> DynamicSourceState
    ensures { result ≡ freed track source }
{
    if track.now && source.held && !source.wanted {
        source.put_at(track.future, source.placed)
    } else {
        source
    }
}

// The gains after a block of `count` beds; the info of bed i is `first` + 8 i.
#[tactic(auto, using(crate::proofs::LoopTurns::turns), unfolding(crate::specs::Objects::bed_gains))]
pub fn bed_gains(gains: &mut [f32; 18], infos: &[u8], first: usize, count: usize)
    requires { (length infos.now ≡ all_bytes) × (count ≤ 18) × ((d : ℕ) → d < count → first + most_blocks * d < all_infos) }
    ensures { gains.new ≡ bed_gains infos.now first count gains.old }
{
    for i in 0..count {
        gains[i] = infos::maybe_at(infos, first + BLOCKS * i, 4, GAIN).unwrap_or(gains[i]);
    }
}
