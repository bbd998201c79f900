// SPDX-License-Identifier: Apache-2.0
// Translated from libstarmine_ad render.rs; changed.

// An update: `apply_update`.
ghost use Rattle.std.specs.Prelude.{◌≡◌, cond, length, replicate};
ghost use Rattle.timed.specs.InfoSizes.{all_bytes};
ghost use Rattle.timed.specs.TimedResults.{IsTimed};
ghost use Rattle.updates.specs.Said.{update_of};
ghost use Rattle.updates.specs.Applied.{codes_given, elements_applied, applied};
ghost use Rattle.updates.specs.UpdateResults.{IsWork};

use crate::element::{Counts, Element};
use clock::StreamSample;
use fields::record::Record;
use records::layout::element_after;
use records::metadata::Update;
use timed::infos::{Bytes, ELEMENT_INFOS};
use timed::state::{DynamicSourceState, ElementRendererState, MetadataRendererState};

// An object that starts.
const NEW_SOURCE: DynamicSourceState = DynamicSourceState {
    gain: 0.707,
    size: 0.0,
    place: vectors::ORIGIN,
    placed: false,
    wanted: false,
    held: false,
    send: 0.0,
};

// A table as it is where there are as many of its entries as before (`kept`, a fact of the counts), else with each entry new.
fn kept_or<T: Copy, const N: usize>(table: [T; N], kept: bool, new: T) -> [T; N]
    ensures { result ≡ cond kept table (replicate N new) }
{
    if kept { table } else { [new; N] }
}

// The bed codes of an update's record, written over one by one, as the definition has it.
#[tactic(auto, using(timed::proofs::Theorems::turns), unfolding(crate::specs::Applied::codes_given))]
pub fn next_codes(codes: [u8; 18], said: Record<'_>) -> [u8; 18]
    ensures { result ≡ codes_given (update_of said.entry.meta.now said.entry.place) codes }
{
    let mut next = codes;
    for k in 0..18 {
        next[k] = said.byte(8 + k);
    }
    next
}

// Each element of the update.
#[tactic(auto, using(timed::proofs::Theorems::turns), unfolding(crate::specs::Applied::elements_applied, crate::specs::Applied::element_given, records::specs::Laid::element_at))]
fn apply_elements(
    states: [ElementRendererState; 2],
    infos: &mut Bytes,
    said: Update<'_>,
    same: bool,
) -> [ElementRendererState; 2]
    ensures { IsWork (elements_applied same (update_of said.entry.record.meta.now said.entry.record.place) states infos.old) result infos.new }
{
    let header = said.record.header();
    let counts = Counts::of(header);
    let mut next = states;
    let mut place = said.record.place + 1;
    for e in 0..header.elements {
        let record = Record {
            meta: said.record.meta,
            place,
        };
        let element = Element {
            record,
            counts,
            first: e * ELEMENT_INFOS,
        };
        next[e] = element.apply(next[e], infos, same);
        place = element_after(record, counts.objects);
    }
    next
}

// The timed state, as an update finds it and leaves it.
#[derive(Clone, Copy)]
pub struct TimedState(pub MetadataRendererState);

impl TimedState {
    // The update, applied at a sample of the stream. The infos come as the range of a block that C lends: an array would ask more of who has a slice.
    pub fn apply_update(self, infos: &mut [u8], said: Update<'_>, at: StreamSample) -> TimedState
        requires { length infos.old ≡ all_bytes }
        ensures { IsTimed (applied at.0 (update_of said.entry.record.meta.now said.entry.record.place) (record { state = self.0; infos = infos.old })) result.0 infos.new }
    {
        let s = self.0;
        let header = said.record.header();
        let counts = Counts::of(header);
        let last = Counts {
            objects: s.objects,
            isf: s.isf,
        };
        let as_many = last.dynamic() == counts.dynamic();
        // With `&`: plain comparisons, and no branch between them.
        let same = (s.elements == header.elements) & (last.objects == counts.objects) & as_many;
        TimedState(MetadataRendererState {
            initialized: true,
            payload: at,
            objects: header.objects,
            isf: header.bed_or_isf,
            beds: header.beds,
            elements: header.elements,
            codes: next_codes(s.codes, said.record),
            gains: kept_or(s.gains, s.beds == header.beds, 0.707),
            states: apply_elements(s.states, infos.as_mut_array().unwrap(), said, same),
            sources: kept_or(s.sources, as_many, NEW_SOURCE),
        })
    }
}
