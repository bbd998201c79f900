// SPDX-License-Identifier: Apache-2.0

// The corners about a place in any hall: its speakers are sorted once (`sort`), and then walked by runs of equal coordinates (`walk`).
#![tactic(auto)]

ghost use Rattle.std.specs.Prelude.{◌≡◌, map};
ghost use Rattle.corners.specs.Choice.{corners};
ghost use Rattle.corners.specs.Found.{chosen};
ghost use Rattle.corners.specs.Axes.{coordinate};

use vectors::Vec3;

mod sort;
mod walk;

#[derive(Clone, Copy)]
pub enum Axis {
    X,
    Y,
    Z,
}

impl Axis {
    pub fn of(self, place: Vec3) -> f32
        ensures { result ≡ coordinate self place }
    {
        match self {
            Axis::X => place.x,
            Axis::Y => place.y,
            Axis::Z => place.z,
        }
    }
}

#[derive(Clone, Copy)]
pub struct Speaker {
    pub channel: usize,
    pub place: Vec3,
}

// The first `count` speakers stand in the order of (y, z, x), a count beside an array and no `ArrayVec`: what is proved of a hall is of its indexes, and the laws of
// `ArrayVec` are of lists. And `layers` and `rows` have the ends of the runs of equal y, and of equal y and z: arrays of
// their own, since each end is worked out from those after it, and the ends of the layers bound those of the rows.
#[derive(Clone, Copy)]
pub struct SortedSpeakers {
    pub speakers: [Speaker; 12],
    pub layers: [usize; 12],
    pub rows: [usize; 12],
    pub count: usize,
}

// The two sides of a row.
#[derive(Clone, Copy)]
pub struct Ends {
    pub low: usize,
    pub high: usize,
}

#[derive(Clone, Copy)]
pub struct Layer {
    pub front: Ends,
    pub rear: Ends,
}

// The eight corners.
#[derive(Clone, Copy)]
pub struct Cube {
    pub bottom: Layer,
    pub top: Layer,
}

impl Cube {
    // The corners in the order in which they are mixed.
    pub fn channels(self) -> [usize; 8]
        ensures { result ≡ map (chosen self) corners }
    {
        [
            self.bottom.front.low,
            self.bottom.front.high,
            self.bottom.rear.low,
            self.bottom.rear.high,
            self.top.front.low,
            self.top.front.high,
            self.top.rear.low,
            self.top.rear.high,
        ]
    }
}
