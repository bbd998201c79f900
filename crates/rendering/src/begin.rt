// SPDX-License-Identifier: Apache-2.0
// Translated from libstarmine_ad render.rs; changed.

// What happens before a chunk: the updates at its first sample, in the order sent; the slot that starts there.
ghost use Rattle.std.specs.Prelude.{◌≡◌, not, ◌||◌, eqb};
ghost use Rattle.updates.specs.Said.{update_of};
ghost use Rattle.rules.specs.Samples.{applied_at, updated, slotted};
ghost use Rattle.theorem.specs.Instance.{hall, sent_from};
ghost use Rattle.rendering.specs.Held.{held, Leads};
ghost use Rattle.rendering.specs.Begin.{restated, CanStart, Starts};

use crate::Rendering;
use clock::{FrameOffset, START};
use records::metadata::{Metadata, Update};
use store::Block;
use store::renderer::Renderer714;
use timed::state::MetadataRendererState;
use updates::update::TimedState;

// Whether an update at offset t starts a new slot.
fn starts_slot(started: bool, t: FrameOffset) -> bool
    ensures { result ≡ (not started || eqb t.0 0) }
{
    !started || t == START
}

// The renderer with another timed state, and in a new slot where `new`. By a flag: an `if` in `apply_one` in its place made the library's code 2 kB larger.
fn restated(renderer: Renderer714, state: MetadataRendererState, new: bool) -> Renderer714
    ensures { result ≡ restated new renderer state }
{
    let next = renderer.with_state(state);
    if new { next.begin_slot() } else { next }
}

impl Rendering {
    // An update at the present sample, which is sample t of the frame.
    fn apply_one(self, state: &mut Block, said: Update<'_>, t: FrameOffset) -> Rendering
        ensures { Leads (applied_at hall t.0 (record { offset = t.0; said = update_of said.entry.record.meta.now said.entry.record.place })
            (held self.renderer state.old)) self state.old result state.new }
    {
        let before = self.renderer.state;
        let infos = &mut state[store::INFOS..store::PLACES];
        let after = TimedState(before).apply_update(infos, said, self.renderer.clock.position);
        let new = starts_slot(before.initialized, t);
        Rendering {
            renderer: restated(self.renderer, after.0, new),
            ..self
        }
    }

    // The updates of one list at the present sample, which is sample t of the frame, in the order sent. Inlined, though a frame calls it for two lists: a call copies the
    // rendering in and out.
    #[inline(always)]
    pub fn apply_sent(
        mut self,
        state: &mut Block,
        metadata: &Metadata<'_>,
        t: FrameOffset,
    ) -> Rendering
        ensures { Leads (updated hall t.0 (sent_from metadata.now) (held self.renderer state.old)) self state.old result state.new }
    {
        for i in 0..metadata.layout.count {
            let sent = metadata.layout.sent[i];
            if sent.offset == t {
                self = self.apply_one(state, metadata.update(i), t);
            }
        }
        self
    }

    // The slot that starts.
    pub fn start_slot(mut self, state: &mut Block) -> Rendering
        requires { CanStart (held self.renderer state.old) × Starts self.renderer }
        ensures { Leads (slotted hall (held self.renderer state.old)) self state.old result state.new }
    {
        let start = self.renderer.clock.start;
        let infos = &mut state[store::INFOS..store::PLACES];
        let after = self.renderer.state.update_timeslot(infos, start);
        self.renderer = self.renderer.with_state(after);
        self
    }
}
