// SPDX-License-Identifier: Apache-2.0
// Translated from libstarmine_ad render.rs; changed.

// A slot of the whole state: the element that it takes, and what that element moves.
ghost use Rattle.std.specs.Prelude.{◌≡◌, ◌+◌, ◌<◌, ◌≤◌, length};
ghost use Rattle.timed.specs.InfoSizes.{most_elements, all_bytes};
ghost use Rattle.timed.specs.State.{element_taken, reach_of, slot_of, slot_moved, slot_at};
ghost use Rattle.timed.specs.Resting.{rests_at};
ghost use Rattle.timed.specs.Preconditions.{Within};
ghost use Rattle.timed.specs.TimedResults.{IsTimed};

use crate::infos::{BLOCKS, Bytes, ELEMENT_INFOS};
use crate::slot::{Reach, Timing, Updated};
use crate::state::MetadataRendererState;
use clock::StreamSample;

// `Within` is asked where a slot is worked out, and is no invariant: C may hold any state, also where it is only kept.
impl MetadataRendererState {
    // The last element whose first block offset is from 0 up to the timecode, else element 0. (01: a downward search whose loop yields the index by `break`.)
    #[tactic(auto, using(crate::proofs::Slots::taken_more), unfolding(crate::specs::State::element_taken))]
    fn element_at(self, when: Timing) -> usize
        requires { self.elements ≤ most_elements }
        ensures taken { result ≡ element_taken when self.states self.elements }
        ensures low { result < most_elements }
    {
        let mut i = self.elements;
        let index = loop {
            if i == 0 {
                break 0;
            }
            i -= 1;
            if self.states[i].begins(when) {
                break i;
            }
        };
        index
    }

    // Where element `index` finds its infos.
    fn reach(self, index: usize) -> Reach
        requires { (index < most_elements) × Within 1099511627776 self }
        ensures { result ≡ reach_of self index }
    {
        Reach {
            beds: index * ELEMENT_INFOS,
            channels: self.beds,
            first: index * ELEMENT_INFOS + BLOCKS * self.isf,
            count: self.objects.saturating_sub(self.isf),
        }
    }

    // A slot of element `index`.
    #[tactic(auto, unfolding(crate::specs::State::slot_of))]
    fn slot_of(self, infos: &mut Bytes, index: usize, when: Timing) -> MetadataRendererState
        requires { (index < most_elements) × Within 1099511627776 self }
        ensures { IsTimed (slot_of when index (record { state = self; infos = infos.old })) result infos.new }
    {
        let mut states = self.states;
        let Updated {
            element,
            gains,
            sources,
        } = states[index].update_sources(infos, when, self.reach(index), self.gains, self.sources);
        states[index] = element;
        MetadataRendererState {
            gains,
            states,
            sources,
            ..self
        }
    }

    // Whether the slot that starts at a sample of the stream changes nothing.
    #[tactic(auto, unfolding(crate::specs::Resting::rests_at))]
    pub fn rests(self, start: StreamSample) -> bool
        requires { (start.0 ≤ 1099511627776) × Within 1099511627776 self }
        ensures { result ≡ rests_at start.0 self }
    {
        if !self.holds_stand() {
            return false;
        }
        if self.elements == 0 {
            return true;
        }
        let when = Timing {
            start,
            payload: self.payload,
        };
        let element = self.states[self.element_at(when)];
        !element.active() || element.rests(when)
    }

    // The slot that starts at a sample of the stream, up to the holds that take effect. The infos come as the range of a block that C lends: an array would ask more of who has a slice.
    #[tactic(auto, using(crate::proofs::Slots::slot_empty, crate::proofs::Slots::slot_idle))]
    fn move_sources(self, infos: &mut [u8], start: StreamSample) -> MetadataRendererState
        requires { (length infos.old ≡ all_bytes) × (start.0 ≤ 1099511627776) × Within 1099511627776 self }
        ensures { IsTimed (slot_moved start.0 (record { state = self; infos = infos.old })) result infos.new }
    {
        if self.elements == 0 {
            return self;
        }
        let when = Timing {
            start,
            payload: self.payload,
        };
        let index = self.element_at(when);
        if self.states[index].active() {
            return self.slot_of(infos.as_mut_array().unwrap(), index, when);
        }
        self
    }

    // The slot that starts at a sample of the stream.
    #[tactic(auto, unfolding(crate::specs::State::slot_at))]
    pub fn update_timeslot(self, infos: &mut [u8], start: StreamSample) -> MetadataRendererState
        requires { (length infos.old ≡ all_bytes) × (start.0 ≤ 1099511627776) × Within 1099511627776 self }
        ensures { IsTimed (slot_at start.0 (record { state = self; infos = infos.old })) result infos.new }
    {
        self.move_sources(infos, start).settle_holds()
    }
}
