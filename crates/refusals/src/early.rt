// Refusals 1 to 8 of a push: "Lowest number first among 1 to 8". Each is decided before the next is worked out.
ghost use Rattle.std.specs.Prelude.{◌≡◌, [], ◌*◌, ◌≤◌, leb, IfOk};
ghost use Rattle.rules.specs.Refusals as rules;
ghost use Rattle.refusals.specs.FirstFound.{args_with, IsFrame, IsEarly};

use crate::{Frame, Push, Refusal};
use beds::Codes;
use clock::{FrameOffset, StreamSample};
use records::metadata::Metadata;

// Whether the stride is one of those allowed and an output of so many bytes has room for it: refusal 1.
pub fn room(stride: u32, bytes: usize) -> bool
    ensures { result ≡ rules.room stride bytes }
{
    stride % 64 == 0 && 64 <= stride && stride <= 1536 && 48 * stride as usize <= bytes
}

// Whether each bed code is listed.
fn codes_listed(codes: &[u8]) -> bool
    ensures { result ≡ rules.every (λ c. leb c 17) codes.now }
{
    codes.iter().all(|c| *c <= 17)
}

// The bytes of so many samples in each channel.
fn pcm_bytes(channels: usize, samples: u32) -> usize
    requires { channels ≤ 34 }
    ensures { result ≡ 4 * (channels * samples) }
{
    4 * (channels * samples as usize)
}

// Whether samples, beds, objects, codes and the PCM's length are as allowed: refusal 2.
fn sized(push: Push<'_>) -> bool
    ensures { result ≡ rules.sized (args_with push.entry []) }
{
    let Push { pcm, codes, n, .. } = push;
    if n.samples > n.stride || codes.len() > 18 || n.objects > 16 || !codes_listed(codes) {
        return false;
    }
    let channels = codes.len() + n.objects as usize;
    pcm.len() == pcm_bytes(channels, n.samples) && (n.samples == 0 || channels != 0)
}

// The frame of a push at a stream position, or the first of its refusals 1 to 8; the output has so many bytes.
pub fn check<'a>(position: StreamSample, push: Push<'a>, bytes: usize) -> Result<Frame<'a>, Refusal>
    ensures found { IsEarly position.0 bytes (args_with push.entry) result }
    ensures frame { IfOk result (λ f. IsFrame (args_with push.entry) f) }
{
    let Push {
        pcm,
        meta,
        codes,
        n,
    } = push;
    if !room(n.stride, bytes) {
        return Err(Refusal::Lent);
    }
    if !sized(push) {
        return Err(Refusal::Sizes);
    }
    if !angles::listed(n.rate) {
        return Err(Refusal::Rate);
    }
    if !position.has_room(n.samples) {
        return Err(Refusal::StreamEnd);
    }
    let metadata = Metadata::of(meta, FrameOffset(n.samples))?;
    if !mixing::samples_pass(pcm, 0, pcm.len() / 4) {
        return Err(Refusal::Samples);
    }
    let codes = Codes { list: codes };
    Ok(Frame {
        pcm,
        metadata,
        codes,
        n,
    })
}
