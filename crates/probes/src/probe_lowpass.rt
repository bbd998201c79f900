ghost use Rattle.std.specs.Prelude.{◌≡◌, cond};
ghost use Rattle.rates.specs.Rates.{listed};
ghost use Rattle.lowpass.specs.Lowpass.{unfed, new, filtered, after_all};
ghost use Rattle.probes.specs.Taken.{zero_coefficients};

use lowpass::BiquadLowpassState;

// At a rate that is not listed, zeros.
#[unsafe(no_mangle)]
pub extern "C" fn probe_lowpass_new(rate: u32) -> BiquadLowpassState
    ensures { result ≡ cond (listed rate) (new rate) (unfed zero_coefficients) }
{
    if angles::listed(rate) {
        BiquadLowpassState::new(rate)
    } else {
        BiquadLowpassState {
            a1: 0.0,
            a2: 0.0,
            b0: 0.0,
            b1: 0.0,
            b2: 0.0,
            x1: 0.0,
            x2: 0.0,
            y1: 0.0,
            y2: 0.0,
        }
    }
}

#[unsafe(no_mangle)]
pub extern "C" fn probe_lowpass_process_in_place(
    filter: BiquadLowpassState,
    samples: &mut [f32],
) -> BiquadLowpassState
    ensures { (result ≡ after_all filter samples.old) × (samples.new ≡ filtered filter samples.old) }
{
    filter.process_in_place(samples)
}
