// SPDX-License-Identifier: Apache-2.0

// Which channels an object of gain 1 and size 0 sounds on: those on which its coefficient is not 0. Shares and products are those of `pan`; no root is
// taken, since only 0 has the root 0.
ghost use Rattle.std.specs.Prelude.{◌≡◌, ◌+◌, ◌<◌, ◌≤◌, [], ◌∷◌};
ghost use Rattle.std.specs.Float.Ieee.{ne};
ghost use Rattle.roots.specs.Root.{root};
ghost use Rattle.corners.specs.Choice.{0·0, 1·0};
ghost use Rattle.corners.specs.Found.{LayerInside};
ghost use Rattle.panning.specs.Terms.{term, weighted, audible, paired};
ghost use Rattle.panning.specs.Setup.{terms_in};
ghost use Rattle.panning.specs.Hall.{setup_of};
ghost use Rattle.panning.specs.Shares.{row_coefficients, layer_coefficients};
ghost use Rattle.panning.specs.Sounding.{terms_bits};

use crate::{Hall, LayerShares, shares_at};
use corners::{Ends, Layer};
use vectors::Vec3;

// Whether the root of x is not 0.
fn has_root(x: f32) -> bool
    ensures { result ≡ ne (root x) 0·0 }
{
    x != 0.0
}

// The bit of channel c, if a side with the share `part` of a row of weight w sounds.
fn side_bit(c: usize, w: f32, part: f32) -> u32
    requires { c < 12 }
    ensures is { result ≡ terms_bits (audible (term c (weighted w part) ∷ [])) }
    ensures most { result ≤ 2048 }
{
    if w != 0.0 && has_root(w * part) {
        1 << c
    } else {
        0
    }
}

// Those of a row's two sides.
fn row_bits(row: Ends, w: f32, right: f32) -> u32
    requires { (row.low < 12) × (row.high < 12) }
    ensures is { result ≡ terms_bits (audible (paired (row.low ∷ row.high ∷ []) (row_coefficients w right))) }
    ensures most { result ≤ 4096 }
{
    side_bit(row.low, w, 1.0 - right) + side_bit(row.high, w, right)
}

// Those of a layer's corners, `part` being its share. The products end with the gain, as in `LayerShares::coefficients`.
fn layer_bits(layer: Layer, s: LayerShares, part: f32) -> u32
    requires { LayerInside layer }
    ensures is { result ≡ terms_bits (audible (paired (layer.front.low ∷ layer.front.high ∷ layer.rear.low ∷ layer.rear.high ∷ []) (layer_coefficients s part 1·0))) }
    ensures most { result ≤ 8192 }
{
    row_bits(layer.front, s.ahead * part * 1.0, s.front)
        + row_bits(layer.rear, (1.0 - s.ahead) * part * 1.0, s.rear)
}

// The channels that an object of gain 1 and size 0 sounds on, bit c for channel c.
pub fn sounding(hall: &Hall, place: Vec3) -> u32
    ensures { result ≡ terms_bits (terms_in (setup_of hall.now) place 1·0 0·0) }
{
    let cube = hall.corners(place);
    let s = shares_at(hall, cube, place);
    layer_bits(cube.bottom, s.bottom, 1.0 - s.up) + layer_bits(cube.top, s.top, s.up)
}
