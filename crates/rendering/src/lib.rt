// A renderer at work: updates and slots at a sample, a chunk, a block given out; and flush.
#![tactic(auto)]

ghost use Rattle.std.specs.Prelude.{◌≡◌};
ghost use Rattle.limiter.specs.Meters.{unmet};

use limiter::meters::Meters;
use store::renderer::Renderer714;

mod begin;
mod flush;
mod pass;

// A renderer at work: its value, how many samples of each channel are in the output, and what the limiter met in them. Infos and the samples that wait stay in the
// lent block. That the renderer's numbers are in range is asked where it is needed (`CanStart`, `CanPass`, `CanGive`), and is no invariant: `store::load` makes a
// renderer of any block's words.
#[derive(Clone, Copy)]
pub struct Rendering {
    pub renderer: Renderer714,
    pub ready: usize,
    pub meters: Meters,
}

impl Rendering {
    // Nothing is in the output yet.
    pub fn of(renderer: Renderer714) -> Rendering
        ensures { result ≡ record { renderer = renderer; ready = 0; meters = unmet } }
    {
        Rendering {
            renderer,
            ready: 0,
            meters: Meters::unmet(),
        }
    }
}
