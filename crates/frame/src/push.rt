// SPDX-License-Identifier: Apache-2.0
// Translated from libstarmine_ad render.rs; changed.

// A frame that no refusal turned away, in chunks: each turn takes the updates at its first sample and the slot that starts there, then the samples up to the next
// update, the end of the slot, of the limiter's block or of the frame.
ghost use Rattle.std.specs.Prelude.{◌≡◌, ◌++◌, cond, ◌&&◌, ◌||◌, eqb, ltb, ◌-◌, ◌<◌, ◌≤◌};
ghost use Rattle.rules.specs.Samples.{pushed};
ghost use Rattle.rules.specs.Calls.{frame_with};
ghost use Rattle.render.specs.Run.{silent_rows};
ghost use Rattle.store.specs.Layout.{decode, setup_in};
ghost use Rattle.panning.specs.Hall.{setup_of};
ghost use Rattle.theorem.specs.Instance.{hall, sent_from};
ghost use Rattle.rendering.specs.Begin.{NoneSent};
ghost use Rattle.refusals.specs.FirstFound.{args_in};
ghost use Rattle.frame.specs.Loop.{run_length, Accepted, IsRendered};

use chunk::lay;
use clock::{FrameOffset, START};
use formats::areas;
use panning::Hall;
use records::metadata::Metadata;
use records::sent::Layout;
use refusals::Frame;
use render::lists::NO_LISTS;
use render::{Input, Span};
use rendering::Rendering;
use store::Block;
use store::renderer::Renderer714;

// How many samples a turn takes, of those from t up to `end`, the next update or the frame's end. Here and in `slot_starts` of the renderer's parts: with the renderer
// lent in their place, the library's code is a third larger.
fn run_length(started: bool, phase: u32, pending: u32, t: FrameOffset, end: FrameOffset) -> usize
    requires { (phase < 64) × (pending < 64) × (t.0 ≤ end.0) }
    ensures { result ≡ run_length started phase pending (end.0 - t.0) }
{
    let room = (64 - pending as usize).min(t.up_to(end));
    if started {
        room.min(64 - phase as usize)
    } else {
        room
    }
}

// Whether an update is sent for sample offset t.
fn is_sent(l: &Layout, t: FrameOffset) -> bool
    ensures { cond result (NoneSent l.now t.0 → ⊥) (NoneSent l.now t.0) }
{
    l.sent_at(t, 0) < l.count
}

// Whether a slot starts: the clock runs from the first update on.
fn slot_starts(started: bool, phase: u32) -> bool
    ensures { result ≡ (started && eqb phase 0) }
{
    started && phase == 0
}

// Whether a chunk of k samples is laid into the block, with `left` samples of the frame from its first on: unless it is a whole limiter block, and as much follows, which
// takes all of its places.
fn is_kept(k: usize, left: usize) -> bool
    ensures { result ≡ (ltb k 64 || ltb left 128) }
{
    k < 64 || left < 128
}

// Clears the rows, where another turn takes them: a push of one sample clears them once, as they are made.
fn clear_rows(rows: &mut [f32; areas::PLACE_COUNT], more: bool)
    ensures { rows.new ≡ cond more silent_rows rows.old }
{
    if more {
        *rows = [0.0; areas::PLACE_COUNT];
    }
}

// In a hall, infos and places being left in `state`; the rest is answered: its bytes in `state` stay.
fn render_in(
    setup: &Hall,
    s: Renderer714,
    state: &mut Block,
    kept: &Metadata<'_>,
    frame: Frame<'_>,
    out: &mut [u8],
) -> Rendering
    requires { Accepted s state.old (sent_from kept.now ++ sent_from frame.metadata) (args_in frame out.old) × (setup_of setup.now ≡ setup_in state.old) }
    ensures { IsRendered (pushed hall (frame_with hall (sent_from kept.now ++ sent_from frame.entry.metadata) (args_in frame.entry out.old)) (decode state.old)) frame.entry.n.stride state.old out.old result state.new out.new }
{
    let Frame {
        pcm,
        metadata,
        codes,
        n,
    } = frame;
    let samples = n.samples as usize;
    let objects = n.objects as usize;
    let stride = n.stride as usize;
    let end = FrameOffset(n.samples);
    let mut work = Rendering::of(s.open(n.rate));
    let mut rows = [0.0f32; areas::PLACE_COUNT];
    let mut lists = NO_LISTS;
    let mut t = START;
    // By `while`: how many samples a turn takes is found as it goes.
    while t < end {
        if is_sent(&kept.layout, t) {
            work = work.apply_sent(state, kept, t);
            lists.forget();
        }
        if is_sent(&metadata.layout, t) {
            work = work.apply_sent(state, &metadata, t);
            lists.forget();
        }
        if slot_starts(work.renderer.state.initialized, work.renderer.clock.phase)
            && !work.renderer.state.rests(work.renderer.clock.start)
        {
            work = work.start_slot(state);
            lists.forget();
        }
        let next = metadata
            .layout
            .next_offset(t, kept.layout.next_offset(t, end));
        let k = run_length(
            work.renderer.state.initialized,
            work.renderer.clock.phase,
            work.renderer.pending,
            t,
            next,
        );
        let span = Span {
            frame: samples,
            first: t.index(),
            count: k,
        };
        let input = Input {
            pcm,
            codes,
            objects,
            span,
        };
        let pending = work.renderer.pending as usize;
        work = work.pass(setup, &mut rows, &mut lists, input);
        if is_kept(k, t.up_to(end)) {
            lay(state, &rows, &setup.present, pending, k);
        }
        if k == 64 {
            work = work.give_rows(&setup.present, &rows, out, stride);
        } else if work.renderer.pending == 64 {
            work = work.give(&setup.present, state, out, stride);
        }
        t = t.plus(k as u32);
        clear_rows(&mut rows, t < end);
    }
    work
}

// In a hall whose speakers are sorted. Not inlined, so that a push in the 7.1.4 hall with the built-in table does not set up this function's stack.
#[inline(never)]
fn render_sorted(
    s: Renderer714,
    state: &mut Block,
    kept: &Metadata<'_>,
    frame: Frame<'_>,
    out: &mut [u8],
) -> Rendering
    requires { Accepted s state.old (sent_from kept.now ++ sent_from frame.metadata) (args_in frame out.old) }
    ensures { IsRendered (pushed hall (frame_with hall (sent_from kept.now ++ sent_from frame.entry.metadata) (args_in frame.entry out.old)) (decode state.old)) frame.entry.n.stride state.old out.old result state.new out.new }
{
    render_in(&store::hall(state), s, state, kept, frame, out)
}

// In the block's hall; `kept` are the updates that wait, as they fall in the frame.
pub fn render(
    s: Renderer714,
    state: &mut Block,
    kept: &Metadata<'_>,
    frame: Frame<'_>,
    out: &mut [u8],
) -> Rendering
    requires { Accepted s state.old (sent_from kept.now ++ sent_from frame.metadata) (args_in frame out.old) }
    ensures { IsRendered (pushed hall (frame_with hall (sent_from kept.now ++ sent_from frame.entry.metadata) (args_in frame.entry out.old)) (decode state.old)) frame.entry.n.stride state.old out.old result state.new out.new }
{
    if store::is_714(state) {
        render_in(&panning::HALL_714, s, state, kept, frame, out)
    } else {
        render_sorted(s, state, kept, frame, out)
    }
}
