// The call that a record of `hallrender` asks for, and the text of its answer. Document 01, "`hallrender` reads 40-byte records".
#![tactic(auto)]

ghost use Rattle.std.specs.Prelude.{◌≡◌};
ghost use Rattle.rules.specs.Calls.{push};
ghost use Rattle.hall.specs.Answers.{coded};
ghost use Rattle.calls.specs.Asked.{asked_alone, frame_args};
ghost use Rattle.calls.specs.CallResults.{text_of_code, Called};

use framing::header::Header;
use framing::request::Plain;
use hall::answer::Outcome;
use listing::text::Text;
use refusals::{Refusal, Stop};

// Samples of a channel in the output, and from one channel to the next.
const STRIDE: u32 = 256;

// The text of an answer.
#[tactic(auto, unfolding(crate::specs::CallResults::text_of_code))]
fn tell(text: &mut Text, answer: Result<Outcome, Refusal>, out: &[u8; 12288])
    ensures { text.new ≡ text_of_code (coded answer) out.now }
{
    match answer {
        Ok(Outcome::Ready(given)) => listing::ready(text, given.samples, out),
        Ok(Outcome::Nothing) => listing::none(text),
        // no record holds an object
        Ok(Outcome::Fresh | Outcome::Marked) => listing::reset(text),
        Err(refusal) => {
            let Stop {
                number,
                first,
                second,
            } = refusal.stop();
            listing::refused(text, number, first, second)
        }
    }
}

// The push of a frame, and its answer's text.
#[tactic(auto, using(crate::proofs::Calling::code_text))]
pub fn push(
    state: &mut [u8],
    meta: &[u8],
    pcm: &[u8],
    out: &mut [u8; 12288],
    text: &mut Text,
    header: &Header,
)
    ensures { Called (push (frame_args header.now.rec meta.now pcm.now out.old))
        state.old out.old state.new out.new text.new }
{
    let rec = &header.rec;
    let codes = &rec[14..14 + header.beds()];
    let rate = words::u32_at(rec, 4);
    let samples = u32::from(words::u16_at(rec, 8));
    let objects = u32::from(rec[11]);
    let answer = hall::push(state, pcm, meta, out, codes, rate, samples, objects, STRIDE);
    tell(text, answer, out);
}

// A flush or a reset, and its answer's text.
#[tactic(auto, using(crate::proofs::Calling::code_text))]
pub fn plain(state: &mut [u8], out: &mut [u8; 12288], text: &mut Text, call: Plain)
    ensures { Called (asked_alone call out.old) state.old out.old state.new out.new text.new }
{
    let answer = match call {
        Plain::Flush => hall::flush(state, out, STRIDE),
        Plain::Reset => hall::reset(state),
    };
    tell(text, answer, out);
}
