// Output as 24-bit integers (R-9): the samples of a push's output as packed PCM, three bytes each, twelve channels interleaved; and such bytes as f32 samples, channel after channel.
#![tactic(auto)]

ghost use Rattle.std.specs.Prelude.{◌≡◌, ◌/◌, length};
ghost use Rattle.pcm24.specs.Interleaved.{interleaved, in_channels};
ghost use Rattle.pcm24.specs.Refused.{number_of_fault_24, judged_to_write, judged_to_read, left_by};

mod bytes;
mod codes;
mod judge;

// Why a call is refused.
#[derive(Clone, Copy)]
pub enum Fault {
    // a stride that is not allowed, or an output too short for it
    Output,
    // more samples than the stride
    Count,
    // a source of no whole number of samples
    Source,
    // a destination that is too short
    Destination,
    // a sample that is NaN or outside -1 to 1
    Sample,
}

impl Fault {
    // Its number in document 02.
    pub fn number(self) -> u32
        ensures { result ≡ number_of_fault_24 self }
    {
        match self {
            Fault::Output => 1,
            Fault::Count => 2,
            Fault::Source => 19,
            Fault::Destination => 20,
            Fault::Sample => 21,
        }
    }
}

// The first `count` samples of each channel, as bytes; answers how many.
pub fn write_24(out: &[u8], stride: u32, count: u32, dest: &mut [u8]) -> Result<usize, Fault>
    ensures answer { result ≡ judged_to_write out.now stride count (length dest.old) }
    ensures dest { dest.new ≡ left_by result (interleaved out.now stride count dest.old) dest.old }
{
    let count = judge::to_write(out, stride, count, dest.len())?;
    bytes::interleave(out, stride as usize, count, dest);
    Ok(count)
}

// Such bytes as samples, channel after channel; answers how many on each.
pub fn read_24(source: &[u8], dest: &mut [u8]) -> Result<usize, Fault>
    ensures answer { result ≡ judged_to_read (length source.now) (length dest.old) }
    ensures dest { dest.new ≡ left_by result (in_channels source.now (length source.now / 36) dest.old) dest.old }
{
    let count = judge::to_read(source, dest.len())?;
    bytes::separate(source, count, dest);
    Ok(count)
}
