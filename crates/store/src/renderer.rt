// SPDX-License-Identifier: Apache-2.0
// Translated from libstarmine_ad render.rs; changed.

// The renderer by value. Infos and the samples that wait stay in the state block. No type here bounds its numbers (positions, phase, counts of beds and objects), and clauses do:
// `load` reads a renderer out of any block of the right length, and `is_valid` alone finds that they are in range.
ghost use Rattle.std.specs.Prelude.{◌≡◌, ◌+◌, ◌≤◌};
ghost use Rattle.angles.specs.Angle.{Listed};
ghost use Rattle.rules.specs.Samples.{ticked};
ghost use Rattle.store.specs.Fields.{clock_of};
ghost use Rattle.store.specs.Steps.{at_slot, with_state, in_new_slot, opened_by, settled_by, emptied_by};

use clock::StreamSample;
use limiter::Limiter;
use lowpass::BiquadLowpassState;
use timed::state::MetadataRendererState;

// The stream's sample that comes next, the first sample of the present slot, and how many of the slot's 64 have gone.
#[derive(Clone, Copy)]
pub struct Clock {
    pub position: StreamSample,
    pub start: StreamSample,
    pub phase: u32,
}

#[derive(Clone, Copy)]
pub struct Renderer714 {
    // 0: no frame was accepted yet. No Option: the block's word and the rules' renderer have this number, and clauses speak of it
    pub rate: u32,
    pub clock: Clock,
    pub limiter: Limiter,
    pub filter: BiquadLowpassState,
    // samples of each channel that wait for a whole block
    pub pending: u32,
    pub state: MetadataRendererState,
}

impl Clock {
    // A new slot at the present sample.
    pub fn at_slot(self) -> Clock
        ensures { result ≡ at_slot self }
    {
        Clock {
            start: self.position,
            phase: 0,
            ..self
        }
    }

    // k samples later. The slots go on where an update was applied; else the first one rests: a flag, as the rules' `ticked` has it.
    pub fn tick(self, started: bool, k: u32) -> Clock
        requires { (self.phase + k ≤ 128) × (self.start.0 ≤ 1099511627776) × (self.position.0 ≤ 1099511627776) × (k ≤ 64) }
        ensures { clock_of result ≡ ticked started k (clock_of self) }
    {
        let position = self.position.plus(k);
        if !started {
            return Clock { position, ..self };
        }
        let phase = self.phase + k;
        if phase < 64 {
            return Clock {
                position,
                phase,
                ..self
            };
        }
        Clock {
            position,
            start: self.start.plus(64),
            phase: 0,
        }
    }
}

impl Renderer714 {
    // With another timed state.
    pub fn with_state(self, state: MetadataRendererState) -> Renderer714
        ensures { result ≡ with_state self state }
    {
        Renderer714 { state, ..self }
    }

    // A new slot at the present sample.
    pub fn begin_slot(mut self) -> Renderer714
        ensures { result ≡ in_new_slot self }
    {
        self.clock = self.clock.at_slot();
        self
    }

    // The first accepted frame sets the rate and the low-pass.
    pub fn open(mut self, rate: u32) -> Renderer714
        requires { Listed rate }
        ensures { result ≡ opened_by self rate }
    {
        if self.rate == 0 {
            self.rate = rate;
            self.filter = BiquadLowpassState::new(rate);
        }
        self
    }

    // k samples more wait, and the low-pass after them is `filter`.
    pub fn settle(mut self, filter: BiquadLowpassState, k: u32) -> Renderer714
        requires { (self.clock.phase + k ≤ 128) × (self.clock.start.0 ≤ 1099511627776) × (self.clock.position.0 ≤ 1099511627776) × (self.pending + k ≤ 64) }
        ensures { result ≡ settled_by self filter k }
    {
        self.clock = self.clock.tick(self.state.initialized, k);
        self.filter = filter;
        self.pending += k;
        self
    }

    // None waits any more, and the limiter after them is `limiter`.
    pub fn empty(mut self, limiter: Limiter) -> Renderer714
        ensures { result ≡ emptied_by self limiter }
    {
        self.limiter = limiter;
        self.pending = 0;
        self
    }
}
