// Planes for the show archive (R-10): the bytes of f32 samples, those of one significance together, and back. Bytes only, so that every NaN keeps its pattern.
#![tactic(auto)]

ghost use Rattle.std.specs.Prelude.{◌≡◌, ◌*◌, length};
ghost use Rattle.planes.specs.Planes.{planes, samples_of};
ghost use Rattle.planes.specs.Conversion.{number_of_fault, judged, written_over};

mod bytes;

const MOST_SAMPLES: u32 = 1536;

const CHANNELS: usize = 12;

// Why a call is refused.
#[derive(Clone, Copy)]
pub enum Fault {
    // more than 1,536 samples on each channel
    TooMany,
    // a source of another length than the samples', or a destination shorter than that
    Lengths,
}

impl Fault {
    // Its number in document 02.
    pub fn number(self) -> u32
        ensures { result ≡ number_of_fault self }
    {
        match self {
            Fault::TooMany => 22,
            Fault::Lengths => 23,
        }
    }
}

// The samples on each channel, or the first fault.
fn judge(samples: u32, source: usize, dest: usize) -> Result<usize, Fault>
    ensures { result ≡ judged samples source dest }
{
    if samples > MOST_SAMPLES {
        return Err(Fault::TooMany);
    }
    let samples = samples as usize;
    let bytes = 4 * CHANNELS * samples;
    if source != bytes || dest < bytes {
        return Err(Fault::Lengths);
    }
    Ok(samples)
}

// Samples, channel after channel, into planes.
pub fn to_planes(source: &[u8], samples: u32, dest: &mut [u8]) -> Result<usize, Fault>
    ensures answer { result ≡ judged samples (length source.now) (length dest.old) }
    ensures dest { dest.new ≡ written_over result (planes (12 * samples) source.now) dest.old }
{
    let samples = judge(samples, source.len(), dest.len())?;
    let count = CHANNELS * samples;
    bytes::spread(source, count, &mut dest[..4 * count]);
    Ok(samples)
}

// Planes into samples, channel after channel.
pub fn from_planes(source: &[u8], samples: u32, dest: &mut [u8]) -> Result<usize, Fault>
    ensures answer { result ≡ judged samples (length source.now) (length dest.old) }
    ensures dest { dest.new ≡ written_over result (samples_of (12 * samples) source.now) dest.old }
{
    let samples = judge(samples, source.len(), dest.len())?;
    let count = CHANNELS * samples;
    bytes::gather(source, count, &mut dest[..4 * count]);
    Ok(samples)
}
