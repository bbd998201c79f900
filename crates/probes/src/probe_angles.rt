ghost use Rattle.std.specs.Prelude.{◌≡◌, cond};
ghost use Rattle.rates.specs.Rates.{listed};
ghost use Rattle.angles.specs.Angle.{w0, Meant};
ghost use Rattle.angles.specs.Filter.{LowpassAt};
ghost use Rattle.probes.specs.Taken.{zero_coefficients, zero_turn};

use angles::Turn;
use angles::filter::Coefficients;

// At a rate that is not listed, zeros.
#[unsafe(no_mangle)]
pub extern "C" fn probe_coefficients(rate: u32) -> Coefficients
    ensures { cond (listed rate) (LowpassAt rate result) (result ≡ zero_coefficients) }
{
    if angles::listed(rate) {
        angles::coefficients(rate)
    } else {
        Coefficients {
            a1: 0.0,
            a2: 0.0,
            b0: 0.0,
            b1: 0.0,
            b2: 0.0,
        }
    }
}

// At a rate that is not listed, zeros.
#[unsafe(no_mangle)]
pub extern "C" fn probe_angle(rate: u32) -> Turn
    ensures { cond (listed rate) (Meant 0 (w0 rate) result.cos × Meant 1 (w0 rate) result.sin) (result ≡ zero_turn) }
{
    if angles::listed(rate) {
        angles::angle(rate)
    } else {
        Turn { cos: 0.0, sin: 0.0 }
    }
}
