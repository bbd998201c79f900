// SPDX-License-Identifier: Apache-2.0

// Whether a table's places may be panned in. One function judges them for making calls and for blocks, so that these cannot differ.
ghost use Rattle.std.specs.Prelude.{◌≡◌, ◌<◌};
ghost use Rattle.corners.specs.Table.{minus_one, between, placed_inside, alike};
ghost use Rattle.corners.specs.Choice.{1·0};
ghost use Rattle.corners.specs.Axes.{place_among};
ghost use Rattle.panning.specs.Setup.{all_inside, all_apart};
ghost use Rattle.panning.specs.Fault.{fault_of, stands_alone};

use crate::halls::BASS;
use vectors::Vec3;

// What is wrong with a table: a coordinate that is not from -1 to 1, or two full-range speakers at one place.
#[derive(Clone, Copy)]
pub enum TableFault {
    Coordinate,
    SamePlaces,
}

// A NaN is not.
fn inside(x: f32) -> bool
    ensures { result ≡ between minus_one 1·0 x }
{
    (-1.0 <= x) & (x <= 1.0)
}

fn placed_inside(v: Vec3) -> bool
    ensures { result ≡ placed_inside v }
{
    inside(v.x) && inside(v.y) && inside(v.z)
}

fn all_inside(places: &[Vec3; 12]) -> bool
    ensures { result ≡ all_inside (place_among places.now) }
{
    for k in 0..12 {
        if !placed_inside(places[k]) {
            return false;
        }
    }
    true
}

// The two zeros are equal, as in every comparison of floats.
fn alike(v: Vec3, w: Vec3) -> bool
    ensures { result ≡ alike v w }
{
    v.x == w.x && v.y == w.y && v.z == w.z
}

// Whether no full-range channel after k stands where k does.
fn stands_alone(places: &[Vec3; 12], k: usize) -> bool
    requires { k < 12 }
    ensures { result ≡ stands_alone (place_among places.now) k }
{
    for j in k + 1..12 {
        if j != BASS && alike(places[k], places[j]) {
            return false;
        }
    }
    true
}

fn all_apart(places: &[Vec3; 12]) -> bool
    ensures { result ≡ all_apart (place_among places.now) }
{
    for k in 0..12 {
        if k != BASS && !stands_alone(places, k) {
            return false;
        }
    }
    true
}

pub fn table_fault(places: &[Vec3; 12]) -> Option<TableFault>
    ensures { result ≡ fault_of (place_among places.now) }
{
    if !all_inside(places) {
        return Some(TableFault::Coordinate);
    }
    if !all_apart(places) {
        return Some(TableFault::SamePlaces);
    }
    None
}
