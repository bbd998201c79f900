// The entries of `hall`, and the two each of `pcm24` and `planes`, under their C names: rust/voqlisna-sys/include/voqlisna.h. Each hands on what the one of its name answers, in C's form, and
// promises what that promises.
#![tactic(auto)]

ghost use Rattle.std.specs.Prelude.{◌≡◌, ◌*◌, ◌/◌, length};
ghost use Rattle.rules.specs.Calls.{push, flush, reset, make, make_with, hold, release, find};
ghost use Rattle.rules.specs.BlockCalls.{made};
ghost use Rattle.theorem.specs.Instance.{hall, block, block_size};
ghost use Rattle.theorem.specs.Appends.{AppendsIfOpen};
ghost use Rattle.hall.specs.Answers.{Left, MadeNew, version};
ghost use Rattle.hall.specs.Places.{place_of};
ghost use Rattle.hall.specs.Conversions.{converted_as};
ghost use Rattle.hall.specs.Conversions24.{converted_24_as};
ghost use Rattle.pcm24.specs.Interleaved.{interleaved, in_channels};
ghost use Rattle.pcm24.specs.Refused.{judged_to_write, judged_to_read, left_by};
ghost use Rattle.planes.specs.Planes.{planes, samples_of};
ghost use Rattle.planes.specs.Conversion.{judged, written_over};
ghost use Rattle.rules.specs.Refusals.{args_of};

use hall::answer::Answer;
use hall::place::Place;

#[unsafe(no_mangle)]
pub extern "C" fn hall_push(
    state: &mut [u8],
    pcm: &[u8],
    meta: &[u8],
    out: &mut [u8],
    codes: &[u8],
    rate: u32,
    samples: u32,
    objects: u32,
    stride: u32,
) -> Answer
    ensures left { Left
        (made hall block (push (args_of pcm.now meta.now out.old codes.now rate samples objects stride)) state.old) result
        state.new out.new }
    ensures appends { result.kind ≡ 0 → AppendsIfOpen
        (args_of pcm.now meta.now out.old codes.now rate samples objects stride) state.old state.new }
{
    Answer::from(hall::push(state, pcm, meta, out, codes, rate, samples, objects, stride))
}

#[unsafe(no_mangle)]
pub extern "C" fn hall_flush(state: &mut [u8], out: &mut [u8], stride: u32) -> Answer
    ensures { Left (made hall block (flush out.old stride) state.old) result state.new out.new }
{
    Answer::from(hall::flush(state, out, stride))
}

// R-5: a new renderer for a layout.
#[unsafe(no_mangle)]
pub extern "C" fn hall_make(state: &mut [u8], layout: u32) -> Answer
    ensures { MadeNew (made hall block (make layout) state.old) result state.new }
{
    Answer::from(hall::make(state, layout))
}

// R-6: the same with the hall's own table.
#[unsafe(no_mangle)]
pub extern "C" fn hall_make_with_table(state: &mut [u8], layout: u32, table: &[u8]) -> Answer
    ensures { MadeNew (made hall block (make_with layout table.now) state.old) result state.new }
{
    Answer::from(hall::make_with_table(state, layout, table))
}

#[unsafe(no_mangle)]
pub extern "C" fn hall_reset(state: &mut [u8]) -> Answer
    ensures { MadeNew (made hall block reset state.old) result state.new }
{
    Answer::from(hall::reset(state))
}

// R-11: a dynamic object stays where it is from the next slot on, until it is released.
#[unsafe(no_mangle)]
pub extern "C" fn hall_hold(state: &mut [u8], object: u32) -> Answer
    ensures { MadeNew (made hall block (hold object) state.old) result state.new }
{
    Answer::from(hall::hold(state, object))
}

#[unsafe(no_mangle)]
pub extern "C" fn hall_release(state: &mut [u8], object: u32) -> Answer
    ensures { MadeNew (made hall block (release object) state.old) result state.new }
{
    Answer::from(hall::release(state, object))
}

// R-13: where to put a sound.
#[unsafe(no_mangle)]
pub extern "C" fn hall_find(state: &[u8], mask: u32) -> Place
    ensures { result ≡ place_of (made hall block (find mask) state.now).answer }
{
    Place::from(hall::find(state, mask))
}

#[unsafe(no_mangle)]
pub extern "C" fn hall_state_size() -> usize
    ensures { result ≡ block_size }
{
    hall::state_size()
}

#[unsafe(no_mangle)]
pub extern "C" fn hall_version() -> u32
    ensures { result ≡ version }
{
    hall::version()
}

// R-9: the first `count` samples of each channel of an output as 24-bit integers, interleaved.
#[unsafe(no_mangle)]
pub extern "C" fn hall_write_24(out: &[u8], stride: u32, count: u32, dest: &mut [u8]) -> Answer
    ensures answer { result ≡ converted_24_as (judged_to_write out.now stride count (length dest.old)) }
    ensures dest { dest.new ≡
        left_by (judged_to_write out.now stride count (length dest.old)) (interleaved out.now stride count dest.old) dest.old }
{
    Answer::from(pcm24::write_24(out, stride, count, dest))
}

// Such bytes as samples, channel after channel.
#[unsafe(no_mangle)]
pub extern "C" fn hall_read_24(source: &[u8], dest: &mut [u8]) -> Answer
    ensures answer { result ≡ converted_24_as (judged_to_read (length source.now) (length dest.old)) }
    ensures dest { dest.new ≡
        left_by (judged_to_read (length source.now) (length dest.old)) (in_channels source.now (length source.now / 36) dest.old) dest.old }
{
    Answer::from(pcm24::read_24(source, dest))
}

// R-10: samples, channel after channel, into planes.
#[unsafe(no_mangle)]
pub extern "C" fn hall_to_planes(source: &[u8], samples: u32, dest: &mut [u8]) -> Answer
    ensures answer { result ≡ converted_as (judged samples (length source.now) (length dest.old)) }
    ensures dest { dest.new ≡
        written_over (judged samples (length source.now) (length dest.old)) (planes (12 * samples) source.now) dest.old }
{
    Answer::from(planes::to_planes(source, samples, dest))
}

// Planes into samples, channel after channel.
#[unsafe(no_mangle)]
pub extern "C" fn hall_from_planes(source: &[u8], samples: u32, dest: &mut [u8]) -> Answer
    ensures answer { result ≡ converted_as (judged samples (length source.now) (length dest.old)) }
    ensures dest { dest.new ≡
        written_over (judged samples (length source.now) (length dest.old)) (samples_of (12 * samples) source.now) dest.old }
{
    Answer::from(planes::from_planes(source, samples, dest))
}
