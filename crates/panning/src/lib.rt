// SPDX-License-Identifier: Apache-2.0
// Translated from libstarmine_ad render.rs; changed.

// Panning in a hall: which speakers a place falls between, and what each gets.
#![tactic(auto)]

ghost use Rattle.std.specs.Prelude.{◌≡◌, map, ◌<◌};
ghost use Rattle.corners.specs.Choice.{corner, corners};
ghost use Rattle.corners.specs.Axes.{place_among};
ghost use Rattle.corners.specs.Found.{chosen, LayerInside, Inside};
ghost use Rattle.panning.specs.Terms.{ratio, weighted, inner_gain, extra, coefficient};
ghost use Rattle.panning.specs.Setup.{speakers_in};
ghost use Rattle.panning.specs.Hall.{setup_of, PannedIs};
ghost use Rattle.panning.specs.Shares.{row_coefficients, layer_coefficients, layer_shares, SharesOf};

use corners::{Cube, Ends, Layer};
use roots::sqrt;
use vectors::Vec3;

mod corners_714;
mod hall;
mod halls;
mod sounds;
mod table;

pub use hall::Hall;
pub use halls::{BASS, HALL_714, LAST_LAYOUT, SPEAKERS, marks};
pub use sounds::sounding;
pub use table::{TableFault, table_fault};

// The share of b where v lies between a and b.
#[tactic(auto, unfolding(crate::specs::Terms::ratio))]
pub fn ratio(a: f32, b: f32, v: f32) -> f32
    ensures { result ≡ ratio a b v }
{
    if a == b { 0.0 } else { (v - a) / (b - a) }
}

// The gain that the size leaves to the corners.
#[tactic(auto, unfolding(crate::specs::Terms::inner_gain))]
fn inner_gain(gain: f32, size: f32) -> f32
    ensures { result ≡ inner_gain gain size }
{
    if size != 0.0 {
        gain * (1.0 - size)
    } else {
        gain
    }
}

// What the size adds to every speaker but the bass.
#[tactic(auto, unfolding(crate::specs::Terms::extra))]
fn extra(gain: f32, size: f32, divisor: f32) -> f32
    ensures { result ≡ extra divisor gain size }
{
    if size != 0.0 {
        gain * sqrt(size / divisor)
    } else {
        0.0
    }
}

// The coefficient of a corner whose share of its row, of weight w, is `part`.
fn side(w: f32, part: f32) -> f32
    ensures { result ≡ weighted w part }
{
    if w != 0.0 { sqrt(w * part) } else { 0.0 }
}

// Those of a row's two sides, `right` being the share of its right side.
fn sides(w: f32, right: f32) -> [f32; 2]
    ensures { result ≡ row_coefficients w right }
{
    [side(w, 1.0 - right), side(w, right)]
}

// The shares in a layer: of its front row, and of the right side of each of its rows.
#[derive(Clone, Copy)]
struct LayerShares {
    ahead: f32,
    front: f32,
    rear: f32,
}

impl LayerShares {
    // The coefficients of the layer's corners, `part` being its share, for the gain g that the corners share.
    fn coefficients(self, part: f32, g: f32) -> [f32; 4]
        ensures { result ≡ layer_coefficients self part g }
    {
        let [front_left, front_right] = sides(self.ahead * part * g, self.front);
        let [rear_left, rear_right] = sides((1.0 - self.ahead) * part * g, self.rear);
        [front_left, front_right, rear_left, rear_right]
    }
}

// The shares of the chosen speakers: of the upper layer, and those in each layer.
#[derive(Clone, Copy)]
struct Shares {
    up: f32,
    bottom: LayerShares,
    top: LayerShares,
}

// The share of a row's right side.
fn across(places: &[Vec3; 12], row: Ends, x: f32) -> f32
    requires { (row.low < 12) × (row.high < 12) }
    ensures { result ≡ ratio (place_among places.now row.low).x (place_among places.now row.high).x x }
{
    ratio(places[row.low].x, places[row.high].x, x)
}

fn layer_shares(places: &[Vec3; 12], layer: Layer, place: Vec3) -> LayerShares
    requires { LayerInside layer }
    ensures { result ≡ layer_shares (place_among places.now) layer place }
{
    LayerShares {
        ahead: ratio(places[layer.rear.low].z, places[layer.front.low].z, place.z),
        front: across(places, layer.front, place.x),
        rear: across(places, layer.rear, place.x),
    }
}

#[inline(always)]
fn shares_at(hall: &Hall, c: Cube, place: Vec3) -> Shares
    requires { Inside c × (chosen c ≡ corner (place_among hall.now.places) (speakers_in hall.now.layout) place) }
    ensures { SharesOf (place_among hall.now.places) c place result }
{
    Shares {
        up: ratio(
            hall.places[c.bottom.front.low].y,
            hall.places[c.top.front.low].y,
            place.y,
        ),
        bottom: layer_shares(&hall.places, c.bottom, place),
        top: layer_shares(&hall.places, c.top, place),
    }
}

// The coefficients at the corners c, for the gain g that they share.
fn coefficients(hall: &Hall, c: Cube, place: Vec3, g: f32) -> [f32; 8]
    requires { Inside c × (chosen c ≡ corner (place_among hall.now.places) (speakers_in hall.now.layout) place) }
    ensures { result ≡ map (coefficient (place_among hall.now.places) (chosen c) place g) corners }
{
    let s = shares_at(hall, c, place);
    let [bfl, bfr, brl, brr] = s.bottom.coefficients(1.0 - s.up, g);
    let [tfl, tfr, trl, trr] = s.top.coefficients(s.up, g);
    [bfl, bfr, brl, brr, tfl, tfr, trl, trr]
}

// What is mixed of an object: `extra` on every speaker but the bass, then the corners in their order. Two arrays, since C code reads it as such (`probe_pan`).
#[repr(C)]
#[derive(Clone, Copy)]
pub struct Panned {
    pub corners: [usize; 8],
    pub coefficients: [f32; 8],
    pub extra: f32,
}

const SILENT: Panned = Panned {
    corners: [0; 8],
    coefficients: [0.0; 8],
    extra: 0.0,
};

// What `render_object_timeslot_to_714` mixes of an object, in a hall.
pub fn pan(hall: &Hall, place: Vec3, gain: f32, size: f32) -> Panned
    ensures { PannedIs (setup_of hall.now) place gain size result }
{
    if gain == 0.0 {
        return SILENT;
    }
    let cube = hall.corners(place);
    Panned {
        corners: cube.channels(),
        coefficients: coefficients(hall, cube, place, inner_gain(gain, size)),
        extra: extra(gain, size, hall.divisor),
    }
}
