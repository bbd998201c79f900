ghost use Rattle.std.specs.Prelude.{◌≡◌, cond, ◌*◌, eqb, length};
ghost use Rattle.limiter.specs.Limiter.{peak, scaled};
ghost use Rattle.limiter.specs.ChannelPlaces.{with_floats, Given};
ghost use Rattle.probes.specs.Taken.{all_here, has_room, with_gain};

use limiter::Limiter;
use limiter::places::Taken;

#[unsafe(no_mangle)]
pub extern "C" fn probe_max_abs_slice(samples: &[f32]) -> f32
    ensures { result ≡ peak samples.now }
{
    limiter::max_abs_slice(samples)
}

// Where the output is no place for just these samples, nothing is done.
#[unsafe(no_mangle)]
pub extern "C" fn probe_scale_slice_into(samples: &[f32], gain: f32, out: &mut [u8])
    ensures { out.new ≡ cond (eqb (length out.old) (4 * length samples.now))
        (with_floats out.old 0 (scaled gain samples.now)) out.old }
{
    if samples.len() <= out.len() / 4 && out.len() == 4 * samples.len() {
        limiter::places::scale_slice_into(samples, gain, out);
    }
}

// The next gain; where the block or its room does not fit, this gain and nothing done.
#[unsafe(no_mangle)]
pub extern "C" fn probe_apply_output_limiter_block(
    gain: f32,
    places: &[u8],
    samples: usize,
    rate: u32,
    out: &mut [u8],
    step: usize,
    to: usize,
) -> f32
    ensures { cond (has_room places.now samples rate out.old step to)
        (Given gain all_here samples rate places.now step to out.old (with_gain result gain samples places.now) out.new)
        ((result ≡ gain) × (out.new ≡ out.old)) }
{
    let known = places.len() == 3072 && samples <= 64 && rate <= 16777216;
    if !(known && step <= out.len() / 12 && to <= step && 4 * samples <= step - to) {
        return gain;
    }
    let present = [true; 12];
    let taken = Taken {
        samples,
        present: &present,
    };
    let done = Limiter { gain }.apply_output_limiter_block(places, taken, rate, out, step, to);
    done.limiter.gain
}
