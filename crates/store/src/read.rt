// The small part's fields from the words of a block.
ghost use Rattle.std.specs.Prelude.{◌≡◌, ◌+◌, ◌*◌, ◌≤◌, length};
ghost use Rattle.formats.specs.NumberWords.{in_words};
ghost use Rattle.store.specs.Fields.{filter_format, state_format, small_of};
ghost use Rattle.store.specs.FieldPlaces.{state_at};

use crate::entry::table;
use crate::parts::{count, flag};
use crate::renderer::{Clock, Renderer714};
use crate::{Block, places};
use clock::StreamSample;
use formats::{float, long, word_of};
use limiter::Limiter;
use lowpass::BiquadLowpassState;
use timed::state::MetadataRendererState;

#[tactic(auto, unfolding(formats::specs::Format::gets))]
fn filter(s: &[u8], at: usize) -> BiquadLowpassState
    requires { 4 * (at + filter_format.width) ≤ length s.now }
    ensures { result ≡ filter_format.get (in_words s.now) at }
{
    let [a1, a2, b0, b1, b2, x1, x2, y1, y2]: [f32; 9] = table(s, at);
    BiquadLowpassState {
        a1,
        a2,
        b0,
        b1,
        b2,
        x1,
        x2,
        y1,
        y2,
    }
}

fn state(s: &Block) -> MetadataRendererState
    ensures { result ≡ state_format.get (in_words s.now) state_at }
{
    MetadataRendererState {
        initialized: flag(s, places::INITIALIZED),
        payload: StreamSample(long(s, places::PAYLOAD)),
        objects: count(s, places::OBJECTS),
        isf: count(s, places::ISF),
        beds: count(s, places::BEDS),
        elements: count(s, places::IN_USE),
        codes: table(s, places::CODES),
        gains: table(s, places::GAINS),
        states: table(s, places::FIRST),
        sources: table(s, places::SOURCES),
    }
}

// The small part.
#[tactic(auto, unfolding(crate::specs::Fields::small_of))]
pub fn small(s: &Block) -> Renderer714
    ensures { result ≡ small_of (in_words s.now) }
{
    Renderer714 {
        rate: word_of(s, places::RATE),
        clock: Clock {
            position: StreamSample(long(s, places::POSITION)),
            start: StreamSample(long(s, places::START)),
            phase: word_of(s, places::PHASE),
        },
        limiter: Limiter {
            gain: float(s, places::LIMITER_GAIN),
        },
        filter: filter(s, places::LOWPASS),
        pending: word_of(s, places::PENDING),
        state: state(s),
    }
}
