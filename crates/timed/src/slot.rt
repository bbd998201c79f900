// SPDX-License-Identifier: Apache-2.0
// Translated from libstarmine_ad render.rs; changed.

// A slot: what an element does to beds and objects at the start of 64 samples.
ghost use Rattle.std.specs.Prelude.{◌≡◌, ◌<◌, ◌≤◌};
ghost use Rattle.timed.specs.InfoSizes.{most_blocks};
ghost use Rattle.timed.specs.Rules.{remaining_of, kept_as, due, left_after, share, active, begins};
ghost use Rattle.timed.specs.Slot.{block_applied, blocks_applied, ramp_applied, updated_sources};
ghost use Rattle.timed.specs.Resting.{resting};
ghost use Rattle.timed.specs.Preconditions.{InRange};
ghost use Rattle.timed.specs.TimedResults.{IsSlotWork, IsUpdated};

use crate::infos::Bytes;
use crate::objects;
use crate::objects::Moving;
use crate::state::{BlockState, DynamicSourceState, ElementRendererState, Track};
use clock::StreamSample;
use std::marker::Model;

// The stream positions of a slot's start and of the last applied update: the timecode is their difference.
#[derive(Clone, Copy)]
pub struct Timing {
    pub start: StreamSample,
    pub payload: StreamSample,
}

impl Model for Timing {
    ghost use Rattle.timed.specs.Times.{Times, InTime};

    ghost Value = { Times };

    ghost view = { λ w. record { start = w.start; payload = w.payload } };

    ghost inverse = { λ w. record { start = w.start; payload = w.payload } };

    ghost invariant = { λ w. InTime (record { start = w.start; payload = w.payload }) };
}

// Where an element finds its infos: those of bed i from `beds` + 8 i on, those of dynamic object d from `first` + 8 d on, and how many there are of each.
#[derive(Clone, Copy)]
pub struct Reach {
    pub beds: usize,
    pub channels: usize,
    pub first: usize,
    pub count: usize,
}

impl Model for Reach {
    ghost use Rattle.timed.specs.Times.{InfoPlaces, Reaches};

    ghost Value = { InfoPlaces };

    ghost view = { λ r. record { beds = r.beds; channels = r.channels; first = r.first; count = r.count } };

    ghost inverse = { λ r. record { beds = r.beds; channels = r.channels; first = r.first; count = r.count } };

    ghost invariant = { λ r. Reaches (record { beds = r.beds; channels = r.channels; first = r.first; count = r.count }) };
}

// An offset or ramp 0, as it is kept: 2^20.
const RAISED: u32 = 1048576;

impl BlockState {
    // Whether the block is applied in this slot.
    #[tactic(auto, using(crate::proofs::Shifted::due_shifted_is))]
    fn due(self, when: Timing) -> bool
        ensures { result ≡ due when self }
    {
        !self.used && when.payload.plus(self.offset) < when.start.plus(RAISED)
    }

    // The ramp that remains after the block, plus 2^47.
    #[tactic(auto, using(crate::proofs::Shifted::left_shifted_is))]
    fn left(self, when: Timing) -> u64
        ensures { result ≡ kept_as (left_after when self) }
    {
        let end = when.payload.plus(self.offset).plus(self.ramp);
        end.past(when.start.plus(2 * RAISED))
    }
}

// The remaining ramp 0, as it is kept: 2^47.
pub const RAMP_OVER: u64 = 140737488355328;

// The share of a ramp that one slot takes.
#[tactic(auto, using(crate::proofs::Shifted::remaining_shifted), unfolding(crate::specs::Rules::share))]
fn share(remaining: u64) -> f32
    requires { (140737488355328 ≤ remaining) × (remaining ≤ 140737489403904) }
    ensures { result ≡ share (remaining_of remaining) }
{
    ieee::min(64.0 / ((remaining - RAMP_OVER) as f32), 1.0)
}

// An element's blocks and remaining ramp, and the beds and objects that it moves.
#[derive(Clone, Copy)]
pub struct Slot {
    pub schedule: [BlockState; 8],
    pub remaining: u64,
    pub gains: [f32; 18],
    pub moving: Moving,
}

impl Slot {
    // Block b, applied. That it is one of the element's is asked here and is no type: b is the counter of the one loop below.
    #[tactic(auto, using(crate::proofs::Shifted::left_over, crate::proofs::Shifted::left_shifted_is), unfolding(crate::specs::Slot::block_applied))]
    fn apply_block(&mut self, infos: &mut Bytes, b: usize, when: Timing, reach: Reach)
        requires { b < most_blocks }
        ensures { IsSlotWork (block_applied when reach b (record { slot = self.old; infos = infos.old })) self.new infos.new }
    {
        let block = self.schedule[b];
        let left = block.left(when);
        self.schedule[b] = BlockState {
            used: true,
            ..block
        };
        self.remaining = left;
        objects::bed_gains(&mut self.gains, infos, reach.beds + b, reach.channels);
        self.moving
            .apply_block(infos, reach.first + b, reach.count, left <= RAMP_OVER);
    }

    // The first n blocks in order, each applied where it is due.
    #[tactic(auto, using(crate::proofs::LoopTurns::turns), unfolding(crate::specs::Slot::blocks_applied))]
    fn apply_blocks(&mut self, infos: &mut Bytes, n: usize, when: Timing, reach: Reach)
        requires { n ≤ most_blocks }
        ensures { IsSlotWork (blocks_applied when reach n (record { slot = self.old; infos = infos.old })) self.new infos.new }
    {
        for b in 0..n {
            if self.schedule[b].due(when) {
                self.apply_block(infos, b, when, reach);
            }
        }
    }

    // The ramp, where one remains, else what releases leave to do; `before` has the flags of the element's previous slot.
    #[tactic(auto, using(crate::proofs::Shifted::over_shifted, crate::proofs::Shifted::less_shifted), unfolding(crate::specs::Slot::ramp_applied))]
    fn ramp(&mut self, before: &[Track; 16], reach: Reach)
        requires { self.old.remaining ≤ 140737489403904 }
        ensures { self.new ≡ ramp_applied before.now reach.count self.old }
    {
        if self.remaining > RAMP_OVER {
            self.moving.ramp(before, reach.count, share(self.remaining));
            self.remaining -= 64;
        } else {
            self.moving.free(reach);
        }
    }
}

// An element after a slot, and the beds and objects that it moved.
#[derive(Clone, Copy)]
pub struct Updated {
    pub element: ElementRendererState,
    pub gains: [f32; 18],
    pub sources: [DynamicSourceState; 16],
}

impl ElementRendererState {
    // Whether the first block's offset is from 0 up to the timecode.
    #[tactic(auto, using(crate::proofs::Shifted::active_shifted_is, crate::proofs::Shifted::begins_shifted_is))]
    pub fn begins(self, when: Timing) -> bool
        ensures { result ≡ begins when self }
    {
        self.active() && when.payload.plus(self.schedule[0].offset) <= when.start.plus(RAISED)
    }

    // Whether the element has blocks and a first offset of 0 or more: else it does nothing.
    #[tactic(auto, using(crate::proofs::Shifted::active_shifted_is))]
    pub fn active(self) -> bool
        ensures { result ≡ active self }
    {
        self.blocks != 0 && RAISED <= self.schedule[0].offset
    }

    // Whether a slot of this element changes nothing: no ramp remains, and no block is due.
    #[tactic(auto, using(crate::proofs::Resting::ramp_left))]
    pub fn rests(self, when: Timing) -> bool
        requires { self.blocks ≤ most_blocks }
        ensures { result ≡ resting when self }
    {
        self.remaining <= RAMP_OVER
            && self.schedule[..self.blocks]
                .iter()
                .all(|block| !block.due(when))
    }

    // A slot of this element.
    #[tactic(auto, unfolding(crate::specs::Slot::updated_sources))]
    pub fn update_sources(
        self,
        infos: &mut Bytes,
        when: Timing,
        reach: Reach,
        gains: [f32; 18],
        sources: [DynamicSourceState; 16],
    ) -> Updated
        requires { InRange 1099511627776 self }
        ensures { IsUpdated (updated_sources when reach self gains sources infos.old) result infos.new }
    {
        let schedule = self.schedule;
        let before = self.tracks;
        let moving = Moving {
            sources,
            tracks: before,
        };
        let mut slot = Slot {
            schedule,
            remaining: self.remaining,
            gains,
            moving,
        };
        slot.apply_blocks(infos, self.blocks, when, reach);
        slot.ramp(&before, reach);
        let Slot {
            schedule,
            remaining,
            gains,
            moving: Moving { sources, tracks },
        } = slot;
        Updated {
            element: ElementRendererState {
                remaining,
                schedule,
                tracks,
                ..self
            },
            gains,
            sources,
        }
    }
}
