// SPDX-License-Identifier: Apache-2.0

// R-13: where to put a sound, so that just the wanted speakers sound.
#![tactic(auto)]

ghost use Rattle.std.specs.Prelude.{◌≡◌, ◌<◌};
ghost use Rattle.panning.specs.Hall.{setup_of};
ghost use Rattle.finding.specs.Grid.{across_at, up_at};
ghost use Rattle.finding.specs.Search.{in_row, in_layer, search};

use panning::Hall;
use vectors::Vec3;

// Value i of x or z.
fn across_at(i: usize) -> f32
    requires { i < 65 }
    ensures { result ≡ across_at i }
{
    (i as f32 - 32.0) / 32.0
}

// Value j of y.
fn up_at(j: usize) -> f32
    requires { j < 17 }
    ensures { result ≡ up_at j }
{
    j as f32 / 16.0
}

// The first place of a row of the grid.
fn find_in_row(hall: &Hall, mask: u32, y: f32, z: f32) -> Option<Vec3>
    ensures { result ≡ in_row (setup_of hall.now) mask y z }
{
    for i in 0..65 {
        let place = Vec3 {
            x: across_at(i),
            y,
            z,
        };
        if panning::sounding(hall, place) == mask {
            return Some(place);
        }
    }
    None
}

// That of a height.
fn find_in_layer(hall: &Hall, mask: u32, y: f32) -> Option<Vec3>
    ensures { result ≡ in_layer (setup_of hall.now) mask y }
{
    for k in 0..65 {
        if let Some(place) = find_in_row(hall, mask, y, across_at(k)) {
            return Some(place);
        }
    }
    None
}

// The first place of the grid where exactly the speakers of the mask sound, bit c for channel c.
pub fn find(hall: &Hall, mask: u32) -> Option<Vec3>
    ensures { result ≡ search (setup_of hall.now) mask }
{
    for j in 0..17 {
        if let Some(place) = find_in_layer(hall, mask, up_at(j)) {
            return Some(place);
        }
    }
    None
}
