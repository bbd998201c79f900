// SPDX-License-Identifier: Apache-2.0

// A hall. A file of its own, since the definitions that the facts below cite may not stand beside those that name the hall.
ghost use Rattle.std.specs.Prelude.{◌≡◌, ◌≤◌};
ghost use Rattle.std.proofs.Props.{props};
ghost use Rattle.corners.specs.Table.{Table};
ghost use Rattle.corners.specs.Axes.{place_among};
ghost use Rattle.panning.specs.Speakers.{full_range};
ghost use Rattle.panning.specs.Setup.{table_places, marks_of, divisor_in};
ghost use Rattle.panning.specs.Corners714.{FoundBy};

use corners::SortedSpeakers;
use vectors::Vec3;

// Which of the twelve channels have a speaker, by the layout's code, and where the speakers stand; and what `pan` takes from them: by what a size is divided, and the full-range
// speakers in the order in which they are walked. The 7.1.4 hall with the built-in places has none: its corners are found by comparisons (`corners_714`).
#[derive(Clone, Copy)]
pub struct Hall {
    pub layout: u32,
    pub places: [Vec3; 12],
    pub present: [bool; 12],
    pub divisor: f32,
    pub speakers: Option<SortedSpeakers>,
    ghost known: { layout ≤ 3 },
    ghost marked: { present ≡ marks_of layout },
    ghost divided: { divisor ≡ divisor_in layout },
    ghost placed: { table_places places ≡ place_among places },
    ghost table: { Table (place_among places) full_range },
    ghost found: { FoundBy layout places speakers } by { Prim.hlevel props },
}
