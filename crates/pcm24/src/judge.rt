// The refusals, lowest first of writing 1, 2, 20 and 21, of reading 19 and 20.
ghost use Rattle.std.specs.Prelude.{◌≡◌, ◌+◌, ◌*◌, ◌≤◌, length};
ghost use Rattle.pcm24.specs.Refused.{row_writable, rows_writable, has_rows};
ghost use Rattle.pcm24.specs.Refused as refused;

use crate::Fault;

// Whether each of `count` samples from `at` on is from -1 to 1. All are looked at, so that the loop is vectorised.
fn row_passes(out: &[u8], at: usize, count: usize) -> bool
    requires { at + 4 * count ≤ length out.now }
    ensures { result ≡ row_writable out.now at count }
{
    let mut pass = true;
    for i in 0..count {
        pass &= words::u32_at(out, at + 4 * i) % 0x8000_0000 <= 0x3f80_0000;
    }
    pass
}

// The same of each channel's first `count`.
fn samples_pass(out: &[u8], stride: usize, count: usize) -> bool
    requires rows { 48 * stride ≤ length out.now }
    requires count { count ≤ stride }
    requires stride { stride ≤ 1536 }
    ensures { result ≡ rows_writable out.now stride count 12 0 }
{
    for c in 0..12 {
        if !row_passes(out, 4 * (c * stride), count) {
            return false;
        }
    }
    true
}

// Whether the stride is one of those allowed and an output of so many bytes has room for it.
fn room(stride: u32, bytes: usize) -> bool
    ensures { result ≡ has_rows stride bytes }
{
    stride % 64 == 0 && 64 <= stride && stride <= 1536 && 48 * stride as usize <= bytes
}

// The samples to write on each channel, or the first fault.
pub fn to_write(out: &[u8], stride: u32, count: u32, dest: usize) -> Result<usize, Fault>
    ensures { result ≡ refused.judged_to_write out.now stride count dest }
{
    if !room(stride, out.len()) {
        return Err(Fault::Output);
    }
    if count > stride {
        return Err(Fault::Count);
    }
    let (stride, count) = (stride as usize, count as usize);
    if dest < 36 * count {
        return Err(Fault::Destination);
    }
    if !samples_pass(out, stride, count) {
        return Err(Fault::Sample);
    }
    Ok(count)
}

// The samples to read on each channel, or the first fault.
pub fn to_read(source: &[u8], dest: usize) -> Result<usize, Fault>
    ensures { result ≡ refused.judged_to_read (length source.now) dest }
{
    if source.len() % 36 != 0 {
        return Err(Fault::Source);
    }
    let count = source.len() / 36;
    if dest < 48 * count {
        return Err(Fault::Destination);
    }
    Ok(count)
}
