// One run of at most 64 samples, within which no update falls and no slot starts: the beds and the objects mixed into twelve rows of 64 places.
#![tactic(auto)]

ghost use Rattle.std.specs.Prelude.{◌≡◌, ◌+◌, ◌≤◌, length};
ghost use Rattle.formats.specs.Areas.{row_places};
ghost use Rattle.render.specs.Framed.{Framed};

pub mod lists;
mod pass;
pub mod places;
mod sources;
mod strips;
mod terms;

use beds::Codes;
use formats::areas;
use panning::Hall;
use timed::state::DynamicSourceState;

// Twelve rows of 64 places, row c from place 64 c on.
pub type Rows = [f32; areas::PLACE_COUNT];

// The samples of a run: of a frame with `frame` samples a channel the `count` from `first` on.
#[derive(Clone, Copy)]
pub struct Span {
    pub frame: usize,
    pub first: usize,
    pub count: usize,
    ghost within: { first + count ≤ frame },
    ghost short: { count ≤ row_places },
}

// What a run is fed with: the samples of a frame's PCM, beds then objects, and the codes of its beds.
#[derive(Clone, Copy)]
pub struct Input<'a> {
    pub pcm: &'a [u8],
    pub codes: Codes<'a>,
    pub objects: usize,
    pub span: Span,
    ghost few: { objects ≤ 16 },
    ghost framed: { Framed pcm.now (length codes.list.now + objects) span.frame },
}

// What sounds in a run, and in which hall: the beds' codes and gains, two slices, since they are two tables of the block; and the objects.
#[derive(Clone, Copy)]
pub struct Scene<'a> {
    pub hall: &'a Hall,
    pub codes: &'a [u8],
    pub gains: &'a [f32],
    pub sources: &'a [DynamicSourceState],
    ghost paired: { length codes.now ≡ length gains.now },
}

// What a run is fed with, and what sounds in it: no more objects than it is fed with.
#[derive(Clone, Copy)]
pub struct Run<'a, 'b> {
    pub input: Input<'a>,
    pub scene: Scene<'b>,
    ghost fed: { length scene.sources.now ≤ input.objects },
}
