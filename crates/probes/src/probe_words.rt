ghost use Rattle.std.specs.Prelude.{◌≡◌, cond, pos};
ghost use Rattle.std.specs.Float.{binary32};
ghost use Rattle.std.specs.Float.Ieee.{of_bits, to_bits};
ghost use Rattle.words.specs.Words.{signed_at, with_long};
ghost use Rattle.probes.specs.Taken.{has_long};

#[unsafe(no_mangle)]
pub extern "C" fn probe_bits_of(x: f32) -> u32
    ensures { result ≡ to_bits binary32 x }
{
    words::bits_of(x)
}

#[unsafe(no_mangle)]
pub extern "C" fn probe_f32_of(n: u32) -> f32
    ensures { result ≡ of_bits binary32 n }
{
    words::f32_of(n)
}

// The signed number at byte `at`; 0 where it is not there.
#[unsafe(no_mangle)]
pub extern "C" fn probe_i64_at(s: &[u8], at: usize) -> i64
    ensures { result ≡ cond (has_long s.now at) (signed_at s.now at) (pos 0) }
{
    if 8 <= s.len() && at <= s.len() - 8 {
        words::i64_at(s, at)
    } else {
        0
    }
}

// Writes a number of 64 bits at byte `at`; nothing where it has no room.
#[unsafe(no_mangle)]
pub extern "C" fn probe_put_u64(s: &mut [u8], at: usize, n: u64)
    ensures { s.new ≡ cond (has_long s.old at) (with_long s.old at n) s.old }
{
    if 8 <= s.len() && at <= s.len() - 8 {
        words::put_u64(s, at, n);
    }
}
