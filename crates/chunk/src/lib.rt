// SPDX-License-Identifier: Apache-2.0
// Translated from libstarmine_ad render.rs; changed.

// The rows of a chunk, samples of a frame within which no update falls and no slot starts: mixed, and laid behind the samples that wait.
#![tactic(auto)]

ghost use Rattle.std.specs.Prelude.{◌≡◌, cond, ◌+◌, ◌≤◌};
ghost use Rattle.formats.specs.Areas.{row_places};
ghost use Rattle.render.specs.Run.{silent_rows, Passed};
ghost use Rattle.panning.specs.Hall.{setup_of};
ghost use Rattle.chunk.specs.ChunkRows.{chunk_moment, Listing, Laid};

use formats::areas;
use lowpass::BiquadLowpassState;
use panning::Hall;
use render::lists::Lists;
use render::{Input, Rows, Run, Scene};
use store::Block;
use timed::state::MetadataRendererState;

// A count, or none before the first update: the flag chooses a number and no step.
fn audible(started: bool, count: usize) -> usize
    ensures { result ≡ cond started count 0 }
{
    if started { count } else { 0 }
}

// The rows of the chunk, in which nothing sounds yet, and the filter after it. Before the first update nothing is heard. That the state has at most 18 beds is asked, since its
// type doesn't say so (`store::renderer`).
pub fn mix(
    hall: &Hall,
    m: &MetadataRendererState,
    filter: &mut BiquadLowpassState,
    rows: &mut Rows,
    lists: &mut Lists,
    input: Input,
)
    requires { (rows.old ≡ silent_rows) × (m.now.beds ≤ 18) × Listing (setup_of hall.now) m.now input.objects input.codes.list.now lists.old }
    ensures lists { Listing (setup_of hall.now) m.now input.entry.objects input.entry.codes.list.now lists.new }
    ensures passed { Passed (chunk_moment (setup_of hall.now) m.now input.entry.objects input.entry.codes.list.now input.entry.pcm.now input.entry.span.frame) filter.old
        input.entry.span.first input.entry.span.count rows.new filter.new }
{
    let beds = audible(m.initialized, m.beds);
    let objects = audible(m.initialized, input.objects);
    let scene = Scene {
        hall,
        codes: &m.codes[..beds],
        gains: &m.gains[..beds],
        sources: &m.sources[..objects],
    };
    Run { input, scene }.pass(rows, filter, lists);
}

// The rows' first k places behind the pending samples of the block, of the channels that are there. Both counts go on to `append_rows` alone: a type that says there is room
// would be made and taken apart for one call, and `settle` counts the same samples up in the renderer itself.
pub fn lay(
    state: &mut Block,
    rows: &Rows,
    present: &[bool; areas::ROW_COUNT],
    pending: usize,
    k: usize,
)
    requires { pending + k ≤ row_places }
    ensures { Laid present.now rows.now pending k state.old state.new }
{
    let places = &mut state[store::PLACES..store::HALL];
    render::places::append_rows(rows, present, places, pending, k);
}
