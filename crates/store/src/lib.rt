// The state block between calls: the renderer that it holds, its ranges, a fresh block.
#![tactic(auto)]

ghost use Rattle.std.specs.Prelude.{◌≡◌, ◌≤◌, true, ◌&&◌, eqb};
ghost use Rattle.words.specs.Words.{words_at};
ghost use Rattle.panning.specs.Setup.{marks_of, built_in_table};
ghost use Rattle.panning.specs.Hall.{setup_of};
ghost use Rattle.store.specs.Fields.{small_of};
ghost use Rattle.store.specs.Layout.{small_width, layout_of, table_in, setup_in, encode, fresh_renderer};
ghost use Rattle.store.specs.ValidBlocks.{hall_valid};
ghost use Rattle.store.specs.HallTables.{equal_below};
ghost use Rattle.store.specs.FieldPlaces.{table_count};

use clock::StreamSample;
use formats::areas;
use hall_table::{HallTable, TABLE_WORDS};
use panning::Hall;
use renderer::Renderer714;
use timed::slot::RAMP_OVER;

mod entry;
pub mod hall_table;
mod parts;
pub mod places;
pub mod ranges;
pub mod read;
pub mod renderer;
pub mod write;

// Where a block's infos, its places and its hall begin, and its bytes.
pub const INFOS: usize = 4 * places::WORDS;

pub const PLACES: usize = INFOS + areas::INFOS_BYTES;

pub const HALL: usize = PLACES + areas::PLACES_BYTES;

const TABLE: usize = HALL + 4;

pub const SIZE: usize = TABLE + 4 * TABLE_WORDS;

// A state block: its type says its length.
pub type Block = [u8; SIZE];

// What a fresh block has other than zeros, beside its hall.
const LIMITER_GAIN: usize = 4 * places::LIMITER_GAIN;

const FIRST_RAMP: usize = 4 * places::FIRST_RAMP;

const SECOND_RAMP: usize = 4 * places::SECOND_RAMP;

// The renderer of a block, but for what stays in it.
#[tactic(auto, using(crate::proofs::BlockTests::small_in_block))]
pub fn load(state: &Block) -> Renderer714
    ensures { result ≡ small_of (words_at state.now 0 small_width) }
{
    read::small(state)
}

// The stream's sample that comes next.
pub fn position(state: &Block) -> StreamSample
    ensures { result.0 ≡ (small_of (words_at state.now 0 small_width)).clock.position.0 }
{
    StreamSample(formats::long(state, places::POSITION))
}

// The code of the hall's layout.
pub fn layout(state: &Block) -> u32
    ensures { result ≡ layout_of state.now }
{
    words::u32_at(state, HALL)
}

// Which of the twelve channels there are.
#[tactic(auto, using(crate::proofs::BlockTests::layout_most))]
pub fn present(state: &Block) -> [bool; 12]
    requires { hall_valid state.now ≡ true }
    ensures { result ≡ marks_of (layout_of state.now) }
{
    panning::marks(layout(state))
}

// The hall table.
pub fn table(state: &Block) -> HallTable
    ensures { result ≡ table_in state.now }
{
    hall_table::table_words(state, TABLE)
}

// Whether the hall is 7.1.4 with the built-in table: `panning::HALL_714`.
pub fn is_714(state: &Block) -> bool
    ensures { result ≡ (eqb (layout_of state.now) 0 && equal_below (table_in state.now) built_in_table table_count) }
{
    layout(state) == 0 && hall_table::is_built_in(state, TABLE)
}

// The hall, its speakers sorted. Not inlined, so that a push in the 7.1.4 hall with the built-in table does not set up this function's stack.
#[inline(never)]
pub fn hall(state: &Block) -> Hall
    requires { hall_valid state.now ≡ true }
    ensures { setup_of result ≡ setup_in state.now }
{
    Hall::of(layout(state), &hall_table::places(&table(state)))
}

// A fresh block of a hall: the limiter's gain 1.0, and no ramp left in either element.
#[tactic(auto, using(crate::proofs::Fresh::refilled))]
pub fn make(state: &mut Block, layout: u32, table: &HallTable)
    ensures { state.new ≡ encode (fresh_renderer (record { layout = layout; table = table.now })) }
{
    state.fill(0);
    words::put_u32(state, LIMITER_GAIN, 0x3f80_0000);
    words::put_u64(state, FIRST_RAMP, RAMP_OVER);
    words::put_u64(state, SECOND_RAMP, RAMP_OVER);
    words::put_u32(state, HALL, layout);
    words::put_words(state, TABLE, table);
}
