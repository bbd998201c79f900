// The bits of a fourth root, from those of a positive finite f32.
ghost use Rattle.std.specs.Prelude.{◌≡◌, ◌+◌, ◌*◌, ◌%◌, ◌^◌, ◌<◌, ◌≤◌};
ghost use Rattle.std.specs.Float.{binary32};
ghost use Rattle.std.specs.Float.Ieee.{of_bits};
ghost use Rattle.ieee.specs.FloatBits.{units_of};
ghost use Rattle.roots.specs.Root.{root_units};
ghost use Rattle.roots.specs.Whole.{Spanned};

use crate::nearest::nearest_whole;
use crate::unpack::{Scaled, parts};

// m with 9 to 12 more digits, so that what is left of the exponent e + 424, past 60, is a multiple of 4.
fn fourth_rest(m: u64, e: u64) -> u64
    requires { (2 ^ 23 ≤ m) × (m < 2 ^ 24) × (e ≤ 276) }
    ensures { (result ≡ m * 2 ^ (9 + (e + 3) % 4)) × (2 ^ 32 ≤ result) × (result < 2 ^ 36) × (Spanned result) }
{
    m << (9 + (e + 3) % 4)
}

// `near` has the bits of a number close to the root. Nothing is asked of it: exact tests decide.
pub fn fourth_bits(b: u32, near: u32) -> u32
    requires { (0 < b) × (b < 0x7f80_0000) }
    ensures { (result < 0x7f80_0000) × (root_units 4 (units_of b) ≡ of_bits binary32 result) }
{
    let Scaled { m, e } = parts(b);
    let close = 8388608 + u64::from(near % 8388608);
    let r = nearest_whole(fourth_rest(m, e), close);
    ((e + 355) / 4 * 8388608 + r) as u32
}
