// Where the lengths do not fit, nothing is done.
ghost use Rattle.std.specs.Prelude.{◌≡◌, cond, false, ◌&&◌, ◌+◌, ◌*◌, leb, length};
ghost use Rattle.mixing.specs.Mixing.{mixed, mixed_full};
ghost use Rattle.mixing.specs.Part.{on_part};
ghost use Rattle.mixing.specs.FrameSamples.{samples, all_pass};

#[unsafe(no_mangle)]
pub extern "C" fn probe_mix_add_scaled(input: &[f32], output: &mut [f32], gain: f32)
    ensures { output.new ≡ cond (leb (length input.now) (length output.old)) (mixed input.now gain output.old)
        output.old }
{
    if input.len() <= output.len() {
        mixing::mix_add_scaled(input, output, gain);
    }
}

#[unsafe(no_mangle)]
pub extern "C" fn probe_mix_full_channel(input: &[f32], output: &mut [f32], gain: f32)
    ensures { output.new ≡ cond (leb (length input.now) (length output.old)) (mixed_full input.now gain output.old)
        output.old }
{
    if input.len() <= output.len() {
        mixing::mix_full_channel(input, output, gain);
    }
}

#[unsafe(no_mangle)]
pub extern "C" fn probe_mix_segment(input: &[f32], output: &mut [f32], offset: usize, gain: f32)
    ensures { output.new ≡ cond (leb (offset + length input.now) (length output.old))
        (on_part (mixed_full input.now gain) offset (length input.now) output.old) output.old }
{
    if offset <= output.len() && input.len() <= output.len() - offset {
        mixing::mix_segment(input, output, offset, gain);
    }
}

#[unsafe(no_mangle)]
pub extern "C" fn probe_samples_pass(pcm: &[u8], count: usize) -> bool
    ensures { result ≡ (leb (4 * count) (length pcm.now) && all_pass pcm.now 0 count) }
{
    count <= pcm.len() / 4 && mixing::samples_pass(pcm, 0, count)
}

// Samples that refusal 8 stops are not read either.
#[unsafe(no_mangle)]
pub extern "C" fn probe_read_row(pcm: &[u8], row: &mut [f32])
    ensures { row.new ≡ cond (leb (4 * length row.old) (length pcm.now) && all_pass pcm.now 0 (length row.old))
        (samples pcm.now 0 (length row.old)) row.old }
{
    let count = row.len();
    if count <= pcm.len() / 4 && mixing::samples_pass(pcm, 0, count) {
        mixing::read_row(pcm, 0, row);
    }
}
