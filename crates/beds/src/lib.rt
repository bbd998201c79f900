// SPDX-License-Identifier: Apache-2.0
// Translated from libstarmine_ad render.rs; changed.

// Bed channels: how each is put out, where it stands, and which input feeds it. A bed is named by its code, 0 to 17 in the order of `BedChannel`: no enum, since document 01's
// functions answer every byte, and compare unknown codes too.
#![tactic(auto)]

ghost use Rattle.std.specs.Prelude.{◌≡◌, false, get_or};
ghost use Rattle.beds.specs.Routes.{route_of, route_in, bass_gain};
ghost use Rattle.beds.specs.Positions.{bed_position};
ghost use Rattle.beds.specs.Matching.{low_frequency, matches, first_of, matching};

mod codes;

pub use codes::Codes;
use vectors::Vec3;

// How a bed is put out: on the bass channel at its reduced gain, panned at its position, on one channel, or not at all.
#[derive(Clone, Copy)]
pub enum Route {
    Bass,
    Folded,
    Direct(usize),
    Unsupported,
}

// `map_bed_channel_to_714`, with the beds that the source takes apart before it; not at all for a code above 17.
// (01: a match over the codes with ranges.)
pub fn route_of(code: u8) -> Route
    ensures { result ≡ route_of code }
{
    match code {
        3 | 17 => Route::Bass,
        11 | 12 | 15 | 16 => Route::Folded,
        0..=2 => Route::Direct(usize::from(code)),
        4..=5 => Route::Direct(usize::from(code) + 2),
        7..=8 => Route::Direct(usize::from(code) - 3),
        9..=10 => Route::Direct(usize::from(code) - 1),
        13..=14 => Route::Direct(usize::from(code) - 3),
        _ => Route::Unsupported,
    }
}

// The same in a hall that has the channels `present`: a bed whose own channel is absent is panned.
#[tactic(auto, using(crate::proofs::Channels::direct_channel), unfolding(crate::specs::Routes::route_in))]
pub fn route_in(code: u8, present: &[bool; 12]) -> Route
    ensures { result ≡ route_in (λ k. get_or present.now k false) code }
{
    match route_of(code) {
        Route::Direct(channel) if !present[channel] => Route::Folded,
        route => route,
    }
}

// The gain at which a bass bed enters channel 3.
pub fn bass_gain(gain: f32) -> f32
    ensures { result ≡ bass_gain gain }
{
    gain * 0.316_227_76
}

// Where the beds stand, by code: three numbers each, a line a bed; a `Vec3` would be five lines.
static POSITIONS: [[f32; 3]; 18] = [
    [-1.0, 0.0, 1.0],
    [1.0, 0.0, 1.0],
    [0.0, 0.0, 1.0],
    [-1.0, -1.0, 1.0],
    [-1.0, 0.0, 0.0],
    [1.0, 0.0, 0.0],
    [0.0, 0.0, -1.0],
    [-1.0, 0.0, -1.0],
    [1.0, 0.0, -1.0],
    [-1.0, 1.0, 1.0],
    [1.0, 1.0, 1.0],
    [-1.0, 1.0, 0.0],
    [1.0, 1.0, 0.0],
    [-1.0, 1.0, -1.0],
    [1.0, 1.0, -1.0],
    [-1.0, 0.0, 0.677_419],
    [1.0, 0.0, 0.677_419],
    [-1.0, -1.0, 1.0],
];

// Where a bed stands; the origin for a code above 17.
pub fn bed_channel_position(code: u8) -> Vec3
    ensures { result ≡ bed_position code }
{
    let [x, y, z] = POSITIONS
        .get(usize::from(code))
        .copied()
        .unwrap_or([0.0; 3]);
    Vec3 { x, y, z }
}

pub fn is_low_frequency_bed(code: u8) -> bool
    ensures { result ≡ low_frequency code }
{
    matches!(code, 3 | 17)
}

// Whether an input feeds a bed: the same code, or both LFE.
pub fn bed_channel_matches_input(requested: u8, provided: u8) -> bool
    ensures { result ≡ matches requested provided }
{
    requested == provided || (is_low_frequency_bed(requested) && is_low_frequency_bed(provided))
}

// The first of the codes that is `a` or `b`.
#[tactic(auto, unfolding(crate::specs::Matching::first_of))]
fn first_of(codes: &[u8], a: u8, b: u8) -> Option<usize>
    ensures { result ≡ first_of a b codes.now }
{
    codes.iter().position(|c| *c == a || *c == b)
}

// The input that feeds a bed: the first of the same code; where there is none, for an LFE bed the first LFE input.
#[tactic(auto, unfolding(crate::specs::Matching::matching))]
pub fn find_matching_input_bed_channel(requested: u8, inputs: &[u8]) -> Option<usize>
    ensures { result ≡ matching requested inputs.now }
{
    first_of(inputs, requested, requested).or_else(|| {
        if is_low_frequency_bed(requested) {
            first_of(inputs, 3, 17)
        } else {
            None
        }
    })
}
