// SPDX-License-Identifier: Apache-2.0
// Translated from libstarmine_ad render.rs; changed.

// Halls: the built-in places, what a layout has (0 for 7.1.4, 1 for 5.1.4, 2 for 7.1.0, 3 for 5.1.0), and a hall of any places.
ghost use Rattle.std.specs.Prelude.{◌≡◌, ◌≤◌, true};
ghost use Rattle.corners.specs.Choice.{corner};
ghost use Rattle.corners.specs.Found.{chosen};
ghost use Rattle.corners.specs.Axes.{place_among};
ghost use Rattle.panning.specs.Setup.{table_of, all_inside, all_apart, marks_of, speakers_in, divisor_in, hall_with};
ghost use Rattle.panning.specs.Hall.{setup_of};

use crate::Hall;
use crate::corners_714::cube_714;
use corners::{Cube, SortedSpeakers};
use vectors::Vec3;

pub(crate) const DIAGONAL: f32 = 0.70710677;

pub(crate) const SURROUND: f32 = 0.48368952;

// `RENDER_714_CHANNEL_POSITIONS`, in channel order; a static beside it, since a constant that is indexed is copied first.
const PLACES: [Vec3; 12] = [
    Vec3 {
        x: -DIAGONAL,
        y: 0.0,
        z: 1.0,
    },
    Vec3 {
        x: DIAGONAL,
        y: 0.0,
        z: 1.0,
    },
    Vec3 {
        x: 0.0,
        y: 0.0,
        z: 1.0,
    },
    Vec3 {
        x: 0.0,
        y: 0.0,
        z: 1.0,
    },
    Vec3 {
        x: -DIAGONAL,
        y: 0.0,
        z: -1.0,
    },
    Vec3 {
        x: DIAGONAL,
        y: 0.0,
        z: -1.0,
    },
    Vec3 {
        x: -1.0,
        y: 0.0,
        z: -SURROUND,
    },
    Vec3 {
        x: 1.0,
        y: 0.0,
        z: -SURROUND,
    },
    Vec3 {
        x: -1.0,
        y: 1.0,
        z: SURROUND,
    },
    Vec3 {
        x: 1.0,
        y: 1.0,
        z: SURROUND,
    },
    Vec3 {
        x: -DIAGONAL,
        y: 1.0,
        z: -1.0,
    },
    Vec3 {
        x: DIAGONAL,
        y: 1.0,
        z: -1.0,
    },
];

pub static SPEAKERS: [Vec3; 12] = PLACES;

// The channel that is none of the full-range ones.
pub const BASS: usize = 3;

// The largest code of a layout.
pub const LAST_LAYOUT: u32 = 3;

// Which of the twelve channels a layout has: the odd ones lack channels 4 and 5, those from 2 on the four top channels.
pub fn marks(layout: u32) -> [bool; 12]
    requires { layout ≤ 3 }
    ensures { result ≡ marks_of layout }
{
    let rear = layout % 2 == 0;
    let top = layout < 2;
    [
        true, true, true, true, rear, rear, true, true, top, top, top, top,
    ]
}

// By what a size is divided: how many channels there are, the bass channel too.
fn divisor(layout: u32) -> f32
    requires { layout ≤ 3 }
    ensures { result ≡ divisor_in layout }
{
    [12.0, 10.0, 8.0, 6.0][layout as usize]
}

// The 7.1.4 hall with the built-in places, whose corners are found by comparisons: nothing in it is sorted. A constant, since Rattle has no static of a struct with facts.
pub const HALL_714: Hall = Hall {
    layout: 0,
    places: PLACES,
    present: [true; 12],
    divisor: 12.0,
    speakers: None,
};

impl Hall {
    // The hall of a layout whose channel k stands at `places[k]`, its speakers sorted.
    pub fn of(layout: u32, places: &[Vec3; 12]) -> Hall
        requires { (layout ≤ 3) × (all_inside (place_among places.now) ≡ true) × (all_apart (place_among places.now) ≡ true) }
        ensures { setup_of result ≡ record { layout = layout; table = table_of places.now } }
    {
        let present = marks(layout);
        let mut full_range = present;
        full_range[BASS] = false;
        Hall {
            layout,
            places: *places,
            present,
            divisor: divisor(layout),
            speakers: Some(SortedSpeakers::of(places, &full_range)),
        }
    }

    // The corners about a place. Two call it: without the hint, here and in what it calls, `pan` takes 42 instructions more.
    #[inline(always)]
    pub fn corners(&self, place: Vec3) -> Cube
        ensures { chosen result ≡ corner (place_among self.now.places) (speakers_in self.now.layout) place }
    {
        match &self.speakers {
            None => cube_714(place),
            Some(speakers) => speakers.cube(place),
        }
    }
}
