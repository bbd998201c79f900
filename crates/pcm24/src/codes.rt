// A sample as a whole number of 24 bits, and back.
ghost use Rattle.std.specs.Prelude.{◌≡◌, ◌%◌, ◌≤◌, ◌<◌};
ghost use Rattle.std.specs.Float.{binary32};
ghost use Rattle.std.specs.Float.Ieee.{of_bits, to_bits};
ghost use Rattle.pcm24.specs.Codes.{code_24, sample_24};

// The code of a sample, by its bits. Of 8,388,608 + size × 8,388,608 an f32 keeps the nearest whole number, ties to even, in its lowest bits.
pub fn code_of_bits(bits: u32) -> u32
    requires { bits % 0x8000_0000 ≤ 0x3f80_0000 }
    ensures { result ≡ code_24 (of_bits binary32 bits) }
{
    let size = f32::from_bits(bits % 0x8000_0000);
    let nearest = (size * 8388608.0 + 8388608.0).to_bits() - 0x4b00_0000;
    if bits < 0x8000_0000 {
        nearest.min(8388607)
    } else {
        (0x100_0000 - nearest) % 0x100_0000
    }
}

// The bits of a code's sample: its sign is carried up first. Bits and no float, since a float is tested for a NaN where it is stored, and the loop is then not vectorised.
pub fn sample_bits(code: u32) -> u32
    requires { code < 0x100_0000 }
    ensures { result ≡ to_bits binary32 (sample_24 code) }
{
    (((code << 8).cast_signed() >> 8) as f32 / 8388608.0).to_bits()
}
