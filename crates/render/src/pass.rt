// SPDX-License-Identifier: Apache-2.0
// Translated from libstarmine_ad render.rs; changed.

// A run of at most 64 samples, within which no update falls and no slot starts.
ghost use Rattle.std.specs.Prelude.{◌≡◌, ◌≤◌, true, false, take, drop};
ghost use Rattle.formats.specs.Areas.{row_places};
ghost use Rattle.mixing.specs.Part.{on_part};
ghost use Rattle.lowpass.specs.Lowpass.{filtered, after_all};
ghost use Rattle.render.specs.Run.{silent_rows, moments_in, Heard, Passed};
ghost use Rattle.render.specs.Listed.{ListsFitRun};

use crate::lists::Lists;
use crate::{Rows, Run, terms};
use formats::areas;
use lowpass::BiquadLowpassState;

// Where the bass row starts.
const BASS: usize = areas::ROW_PLACES * terms::BASS;

// From how many samples on a run's terms are listed by channel: for fewer the lists cost more than they gain.
const LISTED: usize = 16;

// The bass row through the low-pass: the part of its samples is lent.
fn filter_bass(rows: &mut Rows, filter: &mut BiquadLowpassState, k: usize)
    requires { k ≤ row_places }
    ensures { (filter.new ≡ after_all filter.old (take k (drop 192 rows.old))) × (rows.new ≡ on_part (filtered filter.old) 192 k rows.old) }
{
    let end = BASS + k;
    *filter = filter.process_in_place(&mut rows[BASS..end]);
}

// Rows go in silent, from `Rendering::pass` down: who makes an array fills it, and filled here it would be filled twice.
impl Run<'_, '_> {
    // What sounds in the span, by the lists of the scene, which are made where there are none and then kept; where they lack room the rows stay. Not inlined, so that a run of
    // a few samples does not set up its stack.
    #[inline(never)]
    fn mix_listed(self, rows: &mut Rows, lists: &mut Lists) -> bool
        requires { (rows.old ≡ silent_rows) × ListsFitRun self lists.old }
        ensures heard { result ≡ true → Heard (moments_in self.entry) self.entry.input.span.first self.entry.input.span.count rows.new }
        ensures left { result ≡ false → rows.new ≡ silent_rows }
        ensures fits { ListsFitRun self.entry lists.new }
    {
        if lists.full {
            self.list(lists);
        }
        if lists.full {
            return false;
        }
        let count = self.input.span.count;
        for c in 0..areas::ROW_COUNT {
            let from = areas::ROW_PLACES * c;
            self.input
                .sum_row(lists.of(c), &mut rows[from..from + count]);
        }
        true
    }

    // What sounds in the span, into row c from place 64 c on: source by source where the samples are few. `lists` are those of the scene, or full.
    #[tactic(auto, using(crate::proofs::HeardRows::run_heard))]
    fn mix(self, rows: &mut Rows, lists: &mut Lists)
        requires { (rows.old ≡ silent_rows) × ListsFitRun self lists.old }
        ensures heard { Heard (moments_in self.entry) self.entry.input.span.first self.entry.input.span.count rows.new }
        ensures fits { ListsFitRun self.entry lists.new }
    {
        if self.input.span.count >= LISTED && self.mix_listed(rows, lists) {
            return;
        }
        self.mix_beds(rows);
        self.mix_sources(rows);
    }

    // The same, and then the low-pass.
    pub fn pass(self, rows: &mut Rows, filter: &mut BiquadLowpassState, lists: &mut Lists)
        requires { (rows.old ≡ silent_rows) × ListsFitRun self lists.old }
        ensures fits { ListsFitRun self.entry lists.new }
        ensures passed { Passed (moments_in self.entry) filter.old self.entry.input.span.first self.entry.input.span.count rows.new filter.new }
    {
        self.mix(rows, lists);
        filter_bass(rows, filter, self.input.span.count);
    }
}
