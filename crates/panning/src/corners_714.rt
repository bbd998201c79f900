// SPDX-License-Identifier: Apache-2.0
// Translated from libstarmine_ad render.rs; changed.

// The corners about a place in the 7.1.4 hall with the built-in places, by comparisons with its coordinates: no speaker is sorted, and no row is walked.
ghost use Rattle.std.specs.Prelude.{◌≡◌, true, false, cond, ◌<◌};
ghost use Rattle.panning.specs.Speakers.{hall714};
ghost use Rattle.panning.specs.Corners714.{pair_ends, front_ends, floor_ends, ceiling_ends, cube714};

use crate::halls::{DIAGONAL, SPEAKERS, SURROUND};
use corners::{Cube, Ends, Layer};
use vectors::Vec3;

fn speaker(k: usize) -> Vec3
    requires { k < 12 }
    ensures { result ≡ hall714 k }
{
    SPEAKERS[k]
}

// A function and no `if`: a proof loses what an `if` chose where two of them join (tried: where two stand in one literal the proof does not close).
fn choose<T: Copy>(test: bool, yes: T, no: T) -> T
    ensures { result ≡ cond test yes no }
{
    if test { yes } else { no }
}

// The sides about x of a row of two speakers.
fn pair_ends(left: usize, right: usize, x: f32) -> Ends
    requires { (left < 12) × (right < 12) }
    ensures { result ≡ pair_ends left right (hall714 left).x (hall714 right).x x }
{
    Ends {
        low: choose(speaker(right).x <= x, right, left),
        high: choose(speaker(left).x < x, right, left),
    }
}

// Those of the floor's front row, which has a centre.
fn front_ends(x: f32) -> Ends
    ensures { result ≡ front_ends x }
{
    Ends {
        low: choose(DIAGONAL <= x, 1, choose(0.0 <= x, 2, 0)),
        high: choose(0.0 < x, 1, choose(-DIAGONAL < x, 2, 0)),
    }
}

fn floor_ends(z: f32, x: f32) -> Layer
    ensures { result ≡ floor_ends z x }
{
    let front = front_ends(x);
    let middle = pair_ends(6, 7, x);
    let rear = pair_ends(4, 5, x);
    Layer {
        front: choose(-1.0 <= z, choose(-SURROUND <= z, front, middle), rear),
        rear: choose(1.0 <= z, front, choose(-SURROUND <= z, middle, rear)),
    }
}

fn ceiling_ends(z: f32, x: f32) -> Layer
    ensures { result ≡ ceiling_ends z x }
{
    let front = pair_ends(8, 9, x);
    let rear = pair_ends(10, 11, x);
    Layer {
        front: choose(-1.0 <= z, front, rear),
        rear: choose(SURROUND <= z, front, rear),
    }
}

#[inline(always)]
pub fn cube_714(place: Vec3) -> Cube
    ensures { result ≡ cube714 place }
{
    let ceiling = ceiling_ends(place.z, place.x);
    let floor = floor_ends(place.z, place.x);
    Cube {
        bottom: choose(1.0 <= place.y, ceiling, floor),
        top: choose(0.0 <= place.y, ceiling, floor),
    }
}
