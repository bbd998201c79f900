// The terms of a run by channel, in the order in which they are added. A channel is then summed over all its terms at once (`strips`), where `sources` goes through the rows
// once for each term.
ghost use Rattle.std.specs.Prelude.{◌≡◌, ◌<◌, [], ◌∷◌, true, length, map};
ghost use Rattle.panning.specs.Terms.{term, on_channel, spread, paired};
ghost use Rattle.panning.specs.Setup.{terms_in};
ghost use Rattle.panning.specs.Hall.{setup_of};
ghost use Rattle.rules.specs.Mix.{added_terms};
ghost use Rattle.render.specs.MixedRows.{AmongTwelve, speakers_marked};
ghost use Rattle.render.specs.MixedSources.{bed_terms};
ghost use Rattle.render.specs.Run.{bed_with, zipped, plain_source};
ghost use Rattle.render.specs.Listed.{Sized, ListsFitRun, Grown, list_of, fed_of, beds_listed, objects_listed};

use crate::{Run, terms};
use beds::Route;
use formats::areas;
use panning::{Hall, Panned};
use timed::state::DynamicSourceState;
use vectors::Vec3;

// How many terms each list has room for. A bed adds one to a channel, an object its corner and its size or its send: 18 + 2 x 16. No proof asks that: lists that lack room are
// `full`, and the run is mixed source by source.
const ROOM: usize = 50;

const TERMS: usize = ROOM * areas::ROW_COUNT;

// What its input's samples are multiplied by: the inputs are the frame's channels, beds then objects.
#[derive(Clone, Copy)]
pub struct Fed {
    pub input: u32,
    pub gain: f32,
}

const NOTHING: Fed = Fed {
    input: 0,
    gain: 0.0,
};

// The list of channel c is the first `counts[c]` terms from place ROOM c on.
#[derive(Clone, Copy)]
pub struct Lists {
    pub counts: [usize; areas::ROW_COUNT],
    pub terms: [Fed; TERMS],
    // a list had no room for a term; or nothing is listed, or what is listed sounds no more
    pub full: bool,
}

// None yet: a run lists its terms first. A constant, which is copied once: a function's answer would be cleared, filled and copied.
pub const NO_LISTS: Lists = Lists {
    counts: [0; areas::ROW_COUNT],
    terms: [NOTHING; TERMS],
    full: true,
};

// 1 where a gain is heard: the place past a list's end is written in either case, and no branch depends on the gain.
fn heard(gain: f32) -> usize
    ensures { result ≡ length (fed_of 0 (gain ∷ [])) }
{
    if gain == 0.0 { 0 } else { 1 }
}

impl Lists {
    // What is listed sounds no more: a bed or an object may be another.
    pub fn forget(&mut self)
        requires { Sized self.old }
        ensures { Sized self.new × (self.new.full ≡ true) }
    {
        self.full = true;
    }

    // The list of channel c.
    pub(crate) fn of(&self, c: usize) -> &[Fed]
        requires { (c < 12) × Sized self.now }
        ensures { result.now ≡ list_of self.now c }
    {
        let from = ROOM * c;
        &self.terms[from..from + self.counts[c]]
    }

    fn put(&mut self, c: usize, input: u32, gain: f32)
        requires { (c < 12) × Sized self.old }
        ensures { Grown (λ k. fed_of input (on_channel k (term c gain ∷ []))) self.old self.new }
    {
        let n = self.counts[c];
        if n == ROOM {
            self.full = true;
            return;
        }
        self.terms[ROOM * c + n] = Fed { input, gain };
        self.counts[c] = n + heard(gain);
    }

    // What the size adds: the same gain on every channel but 3 that the hall has.
    fn put_spread(&mut self, present: &[bool; 12], input: u32, gain: f32)
        requires { Sized self.old }
        ensures { Grown (λ k. fed_of input (on_channel k (spread (speakers_marked present.now) gain))) self.old self.new }
    {
        if gain == 0.0 {
            return;
        }
        for c in 0..areas::ROW_COUNT {
            if c != terms::BASS && present[c] {
                self.put(c, input, gain);
            }
        }
    }

    // The eight corners in order.
    fn put_corners(&mut self, p: &Panned, input: u32)
        requires { AmongTwelve p.now.corners × Sized self.old }
        ensures { Grown (λ k. fed_of input (on_channel k (paired p.now.corners p.now.coefficients))) self.old self.new }
    {
        for j in 0..8 {
            self.put(p.corners[j], input, p.coefficients[j]);
        }
    }

    // A source at a place.
    fn put_object(&mut self, hall: &Hall, input: u32, place: Vec3, gain: f32, size: f32)
        requires { Sized self.old }
        ensures { Grown (λ k. fed_of input (on_channel k (terms_in (setup_of hall.now) place gain size))) self.old self.new }
    {
        let p = panning::pan(hall, place, gain, size);
        self.put_spread(&hall.present, input, p.extra);
        self.put_corners(&p, input);
    }

    // A bed's terms, by its route.
    fn put_bed(&mut self, hall: &Hall, input: u32, code: u8, gain: f32)
        requires { Sized self.old }
        ensures { Grown (λ k. fed_of input (on_channel k (bed_terms (setup_of hall.now) (bed_with code gain)))) self.old self.new }
    {
        match beds::route_in(code, &hall.present) {
            Route::Bass => self.put(terms::BASS, input, beds::bass_gain(gain)),
            Route::Folded => {
                self.put_object(hall, input, beds::bed_channel_position(code), gain, 0.0)
            }
            Route::Direct(channel) => self.put(channel, input, gain),
            Route::Unsupported => {}
        }
    }

    // All that an object adds: what it is panned to, then its send on channel 3.
    fn put_source(&mut self, hall: &Hall, input: u32, source: DynamicSourceState)
        requires { Sized self.old }
        ensures { Grown (λ k. fed_of input (on_channel k (added_terms (setup_of hall.now) (plain_source source)))) self.old self.new }
    {
        self.put_object(hall, input, source.place, source.gain, source.size);
        self.put(terms::BASS, input, source.gain * source.send);
    }
}

impl Run<'_, '_> {
    // The beds in order, each fed by the input that matches it.
    fn list_beds(self, lists: &mut Lists)
        requires { Sized lists.old }
        ensures { Grown (beds_listed (setup_of self.entry.scene.hall.now) self.entry.input.codes.list.now
            (zipped self.entry.scene.codes.now self.entry.scene.gains.now)) lists.old lists.new }
    {
        for j in 0..self.scene.codes.len() {
            let code = self.scene.codes[j];
            let found = beds::find_matching_input_bed_channel(code, self.input.codes.list);
            if let Some(i) = found {
                lists.put_bed(self.scene.hall, i as u32, code, self.scene.gains[j]);
            }
        }
    }

    // The objects in order, fed by the channels behind those of the beds.
    fn list_sources(self, lists: &mut Lists)
        requires { Sized lists.old }
        ensures { Grown (objects_listed (setup_of self.entry.scene.hall.now) (length self.entry.input.codes.list.now)
            (map plain_source self.entry.scene.sources.now)) lists.old lists.new }
    {
        let first = self.input.codes.list.len();
        for j in 0..self.scene.sources.len() {
            lists.put_source(self.scene.hall, (first + j) as u32, self.scene.sources[j]);
        }
    }

    // All of the run's terms by channel, as far as there is room.
    pub(crate) fn list(self, lists: &mut Lists)
        requires { Sized lists.old }
        ensures { ListsFitRun self.entry lists.new }
    {
        lists.counts = [0; areas::ROW_COUNT];
        lists.full = false;
        self.list_beds(lists);
        self.list_sources(lists);
    }
}
