// An accepted push and a flush with samples waiting, on the state block in place.
ghost use Rattle.std.specs.Prelude.{◌≡◌, ◌++◌, true};
ghost use Rattle.rules.specs.Samples.{pushed, flushed};
ghost use Rattle.rules.specs.Calls.{frame_with};
ghost use Rattle.finding.specs.Search.{search};
ghost use Rattle.store.specs.Layout.{setup_in, decode};
ghost use Rattle.store.specs.ValidBlocks.{valid};
ghost use Rattle.theorem.specs.Instance.{hall, sent_from};
ghost use Rattle.hall.specs.Answers.{Waiting, Worked, given_as};
ghost use Rattle.frame.specs.Loop.{Accepted};
ghost use Rattle.refusals.specs.FirstFound.{args_in};

use crate::answer::Given;
use records::metadata::Metadata;
use refusals::Frame;
use rendering::Rendering;
use store::Block;
use store::renderer::Renderer714;
use vectors::Vec3;

// A push that no refusal turned away; `kept` are the updates that wait, as they fall in it.
pub fn render(
    s: Renderer714,
    state: &mut Block,
    kept: &Metadata<'_>,
    frame: Frame<'_>,
    out: &mut [u8],
) -> Given
    requires { Accepted s state.old (sent_from kept.now ++ sent_from frame.metadata) (args_in frame out.old) }
    ensures { Worked (pushed hall (frame_with hall (sent_from kept.now ++ sent_from frame.entry.metadata) (args_in frame.entry out.old)) (decode state.old))
        frame.entry.n.stride (given_as result) state.new out.old out.new }
{
    let done = frame::push::render(s, state, kept, frame, out);
    store::write::save(state, done.renderer);
    Given {
        samples: done.ready,
        meters: done.meters.shown(),
    }
}

// A flush with samples waiting. It ends as `render` does: a function of these lines would have a contract longer than they are.
pub fn drain(s: Renderer714, state: &mut Block, out: &mut [u8], stride: u32) -> Given
    requires { Waiting s state.old out.old stride }
    ensures { Worked (flushed hall (decode state.old)) stride (given_as result) state.new out.old out.new }
{
    let last = Rendering::drain(s, state, out, stride as usize);
    store::write::save(state, last.renderer);
    Given {
        samples: last.ready,
        meters: last.meters.shown(),
    }
}

// A search in the hall of a valid block.
pub fn find(state: &Block, mask: u32) -> Option<Vec3>
    requires { valid state.now ≡ true }
    ensures { result ≡ search (setup_in state.now) mask }
{
    if store::is_714(state) {
        return finding::find(&panning::HALL_714, mask);
    }
    finding::find(&store::hall(state), mask)
}
