// SPDX-License-Identifier: Apache-2.0
// Translated from libstarmine_ad render.rs; changed.

// The samples that wait, through the limiter into the output: a whole block of a frame, or the remainder.
ghost use Rattle.std.specs.Prelude.{◌≡◌, true};
ghost use Rattle.theorem.specs.Instance.{hall};
ghost use Rattle.panning.specs.Setup.{marks_of};
ghost use Rattle.store.specs.Layout.{layout_of};
ghost use Rattle.store.specs.ValidBlocks.{hall_valid};
ghost use Rattle.limiter.specs.Meters.{unmet};
ghost use Rattle.rules.specs.Samples.{flushed};
ghost use Rattle.rendering.specs.Held.{held};
ghost use Rattle.rendering.specs.Give.{CanGive, Gave, IsDrained, CanGiveRows, AbsentSilent, GaveRows};

use crate::Rendering;
use limiter::places::{Taken, store_block};
use render::Rows;
use store::Block;
use store::renderer::Renderer714;

impl Rendering {
    // The pending samples of the channels that are there as one block, behind those that are ready.
    pub fn give(
        mut self,
        present: &[bool; 12],
        state: &Block,
        out: &mut [u8],
        stride: usize,
    ) -> Rendering
        requires { CanGive self out.old stride × (present.now ≡ marks_of (layout_of state.now)) }
        ensures { Gave self state.now stride out.old result out.new }
    {
        let limiter = self.renderer.limiter;
        let pending = Taken {
            samples: self.renderer.pending as usize,
            present,
        };
        let after = limiter.apply_output_limiter_block(
            &state[store::PLACES..store::HALL],
            pending,
            self.renderer.rate,
            out,
            4 * stride,
            4 * self.ready,
        );
        self.renderer = self.renderer.empty(after.limiter);
        self.ready += pending.samples;
        self.meters = self.meters.meet(after.meters);
        self
    }

    // A whole block that is still in rows: the one peak is that of all rows, of which an absent channel's is +0.0. The limiter's function over places takes these steps too:
    // one for both would have eight parameters, the block and its peak among them. `out` and `stride` are no struct: it would be taken apart in the line that hands both to
    // the limiter.
    pub fn give_rows(
        mut self,
        present: &[bool; 12],
        rows: &Rows,
        out: &mut [u8],
        stride: usize,
    ) -> Rendering
        requires { CanGiveRows self out.old stride × AbsentSilent present.now rows.now }
        ensures { GaveRows present.now self rows.now stride out.old result out.new }
    {
        let samples = rows.as_slice();
        let peak = limiter::max_abs_slice(samples);
        let lowered = self.renderer.limiter.lower(peak);
        let met = lowered.meters(peak);
        let all = Taken {
            samples: 64,
            present,
        };
        store_block(rows, all, lowered.gain, out, 4 * stride, 4 * self.ready);
        let grown = lowered.grow(64, self.renderer.rate);
        self.renderer = self.renderer.empty(grown);
        self.ready += 64;
        self.meters = self.meters.meet(met);
        self
    }

    // Flush: the remainder as one shorter block.
    pub fn drain(s: Renderer714, state: &Block, out: &mut [u8], stride: usize) -> Rendering
        requires { CanGive (record { renderer = s; ready = 0; meters = unmet }) out.old stride × (hall_valid state.now ≡ true) }
        ensures { IsDrained (flushed hall (held s state.now)) s.pending stride state.now out.old result out.new }
    {
        let present = store::present(state);
        Rendering::of(s).give(&present, state, out, stride)
    }
}
