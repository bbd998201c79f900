// A positive finite f32 by its bits: 24 digits and an exponent.
ghost use Rattle.std.specs.Prelude.{◌^◌, ◌<◌};
ghost use Rattle.ieee.specs.FloatBits.{units_of};
ghost use Rattle.roots.specs.Whole.{Normal};

// m * 2 ^ (e - 23) units of 2 ^ -149, m having 24 binary digits.
#[derive(Clone, Copy)]
pub struct Scaled {
    pub m: u64,
    pub e: u64,
}

// Of a subnormal's t units.
fn subnormal(t: u64) -> Scaled
    requires { (0 < t) × (t < 2 ^ 23) }
    ensures { Normal t result.m result.e }
{
    let places = t.leading_zeros() - 40;
    Scaled {
        m: t << places,
        e: u64::from(23 - places),
    }
}

// Of the bits of one.
pub fn parts(b: u32) -> Scaled
    requires { (0 < b) × (b < 0x7f80_0000) }
    ensures { Normal (units_of b) result.m result.e }
{
    let b = u64::from(b);
    if b < 8388608 {
        return subnormal(b);
    }
    Scaled {
        m: 8388608 + b % 8388608,
        e: b / 8388608 + 22,
    }
}
