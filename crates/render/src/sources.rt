// SPDX-License-Identifier: Apache-2.0
// Translated from libstarmine_ad render.rs; changed.

// The beds and the objects of a run, each read once out of the frame's PCM and mixed into twelve rows of 64 places.
ghost use Rattle.std.specs.Prelude.{◌≡◌, ◌++◌, ◌+◌, ◌<◌, ◌≤◌, length, drop, map};
ghost use Rattle.beds.specs.Matching.{matching};
ghost use Rattle.panning.specs.Hall.{setup_of};
ghost use Rattle.rules.specs.Mix.{added_terms};
ghost use Rattle.render.specs.Run.{bed_with, zipped, plain_source};
ghost use Rattle.render.specs.MixedRows.{mixed_terms};
ghost use Rattle.render.specs.MixedSources.{bed_terms, channel_row, mixed_found, mixed_beds, mixed_objects};

use crate::terms::Samples;
use crate::{Input, Rows, Run, Span, terms};
use beds::Route;
use formats::areas;
use panning::Hall;
use timed::state::DynamicSourceState;

// A bed's terms, by its route.
#[tactic(auto, using(crate::proofs::BedTerms::by_route, beds::proofs::Channels::direct_in), unfolding(crate::specs::MixedSources::route_terms))]
fn mix_routed(rows: &mut Rows, samples: Samples, hall: &Hall, code: u8, gain: f32)
    ensures { rows.new ≡ mixed_terms samples.entry.list.now (bed_terms (setup_of hall.now) (bed_with code gain)) rows.old }
{
    match beds::route_in(code, &hall.present) {
        Route::Bass => samples.mix_term(rows, terms::BASS, beds::bass_gain(gain)),
        Route::Folded => samples.mix_object(
            rows,
            hall,
            beds::bed_channel_position(code),
            gain,
            0.0,
        ),
        Route::Direct(channel) => samples.mix_term(rows, channel, gain),
        Route::Unsupported => {}
    }
}

// All that an object adds: what it is panned to, then its send on channel 3.
#[tactic(auto, using(crate::proofs::MixedTerms::mixed_append), unfolding(rules::specs::Mix::object_terms))]
fn mix_added(rows: &mut Rows, samples: Samples, hall: &Hall, source: DynamicSourceState)
    ensures { rows.new ≡ mixed_terms samples.entry.list.now (added_terms (setup_of hall.now) (plain_source source)) rows.old }
{
    samples.mix_object(rows, hall, source.place, source.gain, source.size);
    samples.mix_term(rows, terms::BASS, source.gain * source.send);
}

impl Input<'_> {
    // The run's samples of channel i, into the start of a row.
    fn read_channel(self, row: &mut [f32; areas::ROW_PLACES], i: usize)
        requires { i < length self.codes.list.now + self.objects }
        ensures { row.new ≡ channel_row self.entry.pcm.now self.entry.span i ++ drop self.entry.span.count row.old }
    {
        let Span {
            frame,
            first,
            count,
        } = self.span;
        mixing::read_row(self.pcm, 4 * (i * frame + first), &mut row[..count]);
    }

    // A bed, fed by the input that matches it.
    #[tactic(auto, using(crate::proofs::BedTerms::found_inside))]
    fn mix_bed(self, rows: &mut Rows, hall: &Hall, code: u8, gain: f32)
        ensures { rows.new ≡ mixed_found self.entry.pcm.now self.entry.span (bed_terms (setup_of hall.now) (bed_with code gain))
            (matching code self.entry.codes.list.now) rows.old }
    {
        let Some(i) = beds::find_matching_input_bed_channel(code, self.codes.list) else {
            return;
        };
        let mut row = [0.0f32; areas::ROW_PLACES];
        self.read_channel(&mut row, i);
        let list = &row[..self.span.count];
        mix_routed(rows, Samples { list }, hall, code, gain);
    }

    // An object, fed by channel i.
    fn mix_source(self, rows: &mut Rows, hall: &Hall, i: usize, source: DynamicSourceState)
        requires { i < length self.codes.list.now + self.objects }
        ensures { rows.new ≡ mixed_terms (channel_row self.entry.pcm.now self.entry.span i) (added_terms (setup_of hall.now) (plain_source source)) rows.old }
    {
        let mut row = [0.0f32; areas::ROW_PLACES];
        self.read_channel(&mut row, i);
        let list = &row[..self.span.count];
        mix_added(rows, Samples { list }, hall, source);
    }
}

impl Run<'_, '_> {
    // The beds in order.
    #[tactic(auto, using(crate::proofs::MixedInOrder::beds_done))]
    pub(crate) fn mix_beds(self, rows: &mut Rows)
        ensures { rows.new ≡ mixed_beds (setup_of self.entry.scene.hall.now) self.entry.input.pcm.now self.entry.input.span self.entry.input.codes.list.now
            (zipped self.entry.scene.codes.now self.entry.scene.gains.now) rows.old }
    {
        for j in 0..self.scene.codes.len() {
            self.input.mix_bed(
                rows,
                self.scene.hall,
                self.scene.codes[j],
                self.scene.gains[j],
            );
        }
    }

    // The objects in order, fed by the channels behind those of the beds.
    #[tactic(auto, using(crate::proofs::MixedInOrder::object_step, crate::proofs::MixedInOrder::objects_done))]
    pub(crate) fn mix_sources(self, rows: &mut Rows)
        ensures { rows.new ≡ mixed_objects (setup_of self.entry.scene.hall.now) self.entry.input.pcm.now self.entry.input.span (length self.entry.input.codes.list.now)
            (map plain_source self.entry.scene.sources.now) rows.old }
    {
        let first = self.input.codes.list.len();
        for j in 0..self.scene.sources.len() {
            self.input
                .mix_source(rows, self.scene.hall, first + j, self.scene.sources[j]);
        }
    }
}
