// SPDX-License-Identifier: Apache-2.0
// Translated from libstarmine_ad render.rs; changed.

// A chunk of a frame: samples within which no update falls and no slot starts.
ghost use Rattle.std.specs.Prelude.{◌≡◌, List, ℕ};
ghost use Rattle.panning.specs.Hall.{setup_of};
ghost use Rattle.store.specs.Layout.{setup_in};
ghost use Rattle.theorem.specs.Instance.{Sent};
ghost use Rattle.render.specs.Run.{silent_rows};
ghost use Rattle.chunk.specs.ChunkRows.{Listing};
ghost use Rattle.rendering.specs.Pass.{CanPass, frame_here, moment_here, Waits};

use crate::Rendering;
use chunk::mix;
use panning::Hall;
use render::lists::Lists;
use render::{Input, Rows};

impl Rendering {
    // The input's span of a frame, mixed into the rows in the hall; its samples wait then.
    pub fn pass(self, hall: &Hall, rows: &mut Rows, lists: &mut Lists, input: Input) -> Rendering
        requires { CanPass self.renderer input.objects input.span.count × (rows.old ≡ silent_rows)
            × Listing (setup_of hall.now) self.renderer.state input.objects input.codes.list.now lists.old }
        ensures lists { Listing (setup_of hall.now) result.renderer.state input.entry.objects input.entry.codes.list.now lists.new }
        ensures waits { (rate : ℕ) (us : List Sent) (b : List ℕ) → setup_of hall.now ≡ setup_in b
            → Waits (moment_here (frame_here rate us input.entry.codes.list.now input.entry.objects input.entry.pcm.now input.entry.span.frame)
            input.entry.span.first input.entry.span.count self.renderer b) self input.entry.span.first input.entry.span.count rows.new result }
    {
        let mut filter = self.renderer.filter;
        mix(hall, &self.renderer.state, &mut filter, rows, lists, input);
        Rendering {
            renderer: self.renderer.settle(filter, input.span.count as u32),
            ..self
        }
    }
}
