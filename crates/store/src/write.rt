// The small part's fields as words in a block.
ghost use Rattle.std.specs.Prelude.{◌≡◌, ◌*◌};
ghost use Rattle.words.specs.Words.{with_words};
ghost use Rattle.store.specs.FieldPlaces.{state_at};
ghost use Rattle.store.specs.Fields.{state_format, basics_format, basics_of, small_words};
ghost use Rattle.store.specs.Layout.{assembled, infos_of, places_of, setup_in, encode};

use crate::entry::put_table;
use crate::renderer::Renderer714;
use crate::{Block, places};
use timed::state::MetadataRendererState;

// Where the parts of the timed state start, in bytes.
const STATE: usize = 4 * places::BASICS;

const CODES: usize = 4 * places::CODES;

const GAINS: usize = 4 * places::GAINS;

const SOURCES: usize = 4 * places::SOURCES;

const FIRST: usize = 4 * places::FIRST;

fn put_basics(s: &mut Block, x: &Renderer714)
    ensures { s.new ≡ with_words s.old 0 (basics_format.put (basics_of x.now)) }
{
    let position = x.clock.position.0;
    let start = x.clock.start.0;
    let f = &x.filter;
    let w = [
        x.rate,
        x.clock.phase,
        formats::low(position),
        formats::high(position),
        formats::low(start),
        formats::high(start),
        words::bits_of(x.limiter.gain),
        words::bits_of(f.a1),
        words::bits_of(f.a2),
        words::bits_of(f.b0),
        words::bits_of(f.b1),
        words::bits_of(f.b2),
        words::bits_of(f.x1),
        words::bits_of(f.x2),
        words::bits_of(f.y1),
        words::bits_of(f.y2),
        x.pending,
    ];
    words::put_words(s, 0, &w);
}

#[tactic(auto, using(crate::proofs::Stores::state_stored))]
fn put_state(s: &mut Block, x: &MetadataRendererState)
    ensures { s.new ≡ with_words s.old (4 * state_at) (state_format.put x.now) }
{
    let payload = x.payload.0;
    let w = [
        formats::bit(x.initialized),
        formats::low(payload),
        formats::high(payload),
        formats::count(x.objects),
        formats::count(x.isf),
        formats::count(x.beds),
        formats::count(x.elements),
    ];
    words::put_words(s, STATE, &w);
    put_table(s, CODES, &x.codes);
    put_table(s, GAINS, &x.gains);
    put_table(s, SOURCES, &x.sources);
    put_table(s, FIRST, &x.states);
}

// The small part of a block, whole; the rest of the block is kept, and so it is the block of a renderer with x for its small part.
#[tactic(auto, using(crate::proofs::Stores::small_stored, crate::proofs::Saved::whole_stored))]
pub fn save(state: &mut Block, x: Renderer714)
    ensures { (state.new ≡ with_words state.old 0 (small_words x)) × (state.new ≡ encode (assembled x (infos_of state.old) (places_of state.old) (setup_in state.old))) }
{
    put_basics(state, &x);
    put_state(state, &x.state);
}
