// SPDX-License-Identifier: Apache-2.0
// Translated from libstarmine_ad render.rs; changed.

// The terms of one source, mixed one after another into twelve rows of 64 places.
ghost use Rattle.std.specs.Prelude.{◌≡◌, ◌<◌, ◌≤◌, length};
ghost use Rattle.formats.specs.Areas.{row_places};
ghost use Rattle.panning.specs.Terms.{term, paired, spread};
ghost use Rattle.panning.specs.Setup.{terms_in};
ghost use Rattle.panning.specs.Hall.{setup_of};
ghost use Rattle.render.specs.MixedRows.{AmongTwelve, speakers_marked, mixed_term, mixed_terms};

use crate::Rows;
use formats::areas;
use panning::{Hall, Panned};
use vectors::Vec3;

// The bass channel.
pub const BASS: usize = 3;

// A source's samples in a run: at most a row of them.
#[derive(Clone, Copy)]
pub struct Samples<'a> {
    pub list: &'a [f32],
    ghost short: { length list.now ≤ row_places },
}

impl Samples<'_> {
    // One term: the row's part from its start is lent.
    #[tactic(auto, unfolding(crate::specs::MixedRows::mixed_term))]
    pub fn mix_term(self, rows: &mut Rows, channel: usize, gain: f32)
        requires { channel < 12 }
        ensures { rows.new ≡ mixed_term self.entry.list.now (term channel gain) rows.old }
    {
        mixing::mix_segment(self.list, rows, areas::ROW_PLACES * channel, gain);
    }

    // What the size adds: the same gain on every channel but 3 that the hall has.
    fn mix_spread(self, rows: &mut Rows, present: &[bool; 12], gain: f32)
        ensures { rows.new ≡ mixed_terms self.entry.list.now (spread (speakers_marked present.now) gain) rows.old }
    {
        if gain == 0.0 {
            return;
        }
        for c in 0..areas::ROW_COUNT {
            if c != BASS && present[c] {
                self.mix_term(rows, c, gain);
            }
        }
    }

    // The eight corners in order.
    fn mix_corners(self, rows: &mut Rows, p: &Panned)
        requires { AmongTwelve p.now.corners }
        ensures { rows.new ≡ mixed_terms self.entry.list.now (paired p.now.corners p.now.coefficients) rows.old }
    {
        for j in 0..8 {
            self.mix_term(rows, p.corners[j], p.coefficients[j]);
        }
    }

    // A source at a place: panned once, then the size's part and the corners.
    pub fn mix_object(self, rows: &mut Rows, hall: &Hall, place: Vec3, gain: f32, size: f32)
        ensures { rows.new ≡ mixed_terms self.entry.list.now (terms_in (setup_of hall.now) place gain size) rows.old }
    {
        let p = panning::pan(hall, place, gain, size);
        self.mix_spread(rows, &hall.present, p.extra);
        self.mix_corners(rows, &p);
    }
}
