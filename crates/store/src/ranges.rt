// The ranges of a block's fields.
ghost use Rattle.std.specs.Prelude.{◌≡◌, ◌+◌, ◌*◌, ◌-◌, ◌≤◌, true, length};
ghost use Rattle.formats.specs.NumberWords.{in_words};
ghost use Rattle.store.specs.Fields.{longest, head_format, element_format, counts_format, tables_format, basics_format, small_format, small_of};
ghost use Rattle.store.specs.FieldPlaces.{state_at, tables_at};
ghost use Rattle.panning.specs.Setup.{table_right};
ghost use Rattle.store.specs.Layout.{table_in};
ghost use Rattle.store.specs.ValidBlocks as ranges;
ghost use Rattle.store.specs.ValidBlocks.{clock_in, counts_in, least, element_in, small_valid, hall_valid, valid};

use crate::hall_table::{is_built_in, table_fault};
use crate::{Block, places};
use formats::areas::heads_valid;
use formats::{at_most, long, word_of};
use panning::LAST_LAYOUT;
use timed::slot::RAMP_OVER;

// The longest stream; the largest offset of a block, and ramp, as they are kept.
const LONGEST: u64 = 1 << 40;

const LARGEST: u32 = 1 << 21;

// ---- each field by itself

fn basics_fields(s: &Block) -> bool
    ensures { result ≡ basics_format.test (in_words s.now) 0 }
{
    let rate = word_of(s, places::RATE);
    (rate == 0 || angles::listed(rate))
        && word_of(s, places::PHASE) < 64
        && long(s, places::POSITION) <= LONGEST
        && long(s, places::START) <= LONGEST
        && word_of(s, places::PENDING) < 64
}

fn counts_fields(s: &Block) -> bool
    ensures { result ≡ counts_format.test (in_words s.now) state_at }
{
    word_of(s, places::INITIALIZED) <= 1
        && long(s, places::PAYLOAD) <= LONGEST
        && word_of(s, places::OBJECTS) <= 32
        && word_of(s, places::ISF) <= 255
        && word_of(s, places::BEDS) <= 18
        && word_of(s, places::IN_USE) <= 2
}

fn head_fields(s: &[u8], at: usize) -> bool
    requires { 4 * (at + head_format.width) ≤ length s.now }
    ensures { result ≡ head_format.test (in_words s.now) at }
{
    let flags = at + 1;
    let remaining = flags + 1;
    word_of(s, at) <= 8 && word_of(s, flags) <= 16 && long(s, remaining) <= RAMP_OVER + (1 << 20)
}

// The element whose words start at `at`.
#[tactic(auto, using(crate::proofs::BlockTests::blocks_test, crate::proofs::BlockTests::tracks_test))]
fn element_fields(s: &[u8], at: usize) -> bool
    requires { 4 * (at + element_format.width) ≤ length s.now }
    ensures { result ≡ element_format.test (in_words s.now) at }
{
    let blocks = at + places::HEAD;
    let rows = blocks + places::SCHEDULE;
    head_fields(s, at)
        && at_most(s, blocks, 0, places::BLOCK, 8, LARGEST)
        && at_most(s, blocks, 1, places::BLOCK, 8, LARGEST)
        && at_most(s, blocks, 2, places::BLOCK, 8, 1)
        && at_most(s, rows, 0, places::TRACK, 16, 1)
}

#[tactic(auto, using(crate::proofs::BlockTests::tables_test))]
fn tables_fields(s: &Block) -> bool
    ensures { result ≡ tables_format.test (in_words s.now) tables_at }
{
    at_most(s, places::CODES, 0, 1, 18, 17)
        && at_most(s, places::SOURCES, places::MARKS, places::SOURCE, 16, 7)
        && element_fields(s, places::FIRST)
        && element_fields(s, places::SECOND)
}

fn fields_valid(s: &Block) -> bool
    ensures { result ≡ small_format.test (in_words s.now) 0 }
{
    basics_fields(s) && counts_fields(s) && tables_fields(s)
}

// ---- what fields owe each other

// The slot starts in the stream's past; nothing is pending without a rate.
fn clock_valid(rate: u32, phase: u32, position: u64, start: u64, pending: u32) -> bool
    requires { start ≤ longest }
    ensures { result ≡ clock_in rate phase position start pending }
{
    start + u64::from(phase) <= position && (rate != 0 || pending == 0)
}

fn counts_valid(objects: u32, isf: u32, beds: u32) -> bool
    ensures { result ≡ counts_in objects isf beds }
{
    objects.saturating_sub(isf) <= 16 && beds <= objects
}

// How many flags element i must have.
fn least_flags(i: u32, elements: u32, objects: u32, isf: u32) -> u32
    ensures { result ≡ least i elements objects isf }
{
    if i < elements {
        objects.saturating_sub(isf)
    } else {
        0
    }
}

// An element's flags and its remaining ramp, at a stream position; `least` is how many flags it must have.
fn element_valid(position: u64, least: u32, flags: u32, remaining: u64) -> bool
    requires { (position ≤ longest) × (remaining ≤ 140737489403904) }
    ensures { result ≡ element_in position least flags remaining }
{
    least <= flags && RAMP_OVER <= remaining + (2097152 + 64 * position)
}

#[tactic(auto, using(crate::proofs::BlockTests::longs, crate::proofs::BlockTests::related_words))]
fn related(s: &Block) -> bool
    requires { small_format.test (in_words s.now) 0 ≡ true }
    ensures { result ≡ ranges.related (small_of (in_words s.now)) }
{
    let position = long(s, places::POSITION);
    let objects = word_of(s, places::OBJECTS);
    let isf = word_of(s, places::ISF);
    let elements = word_of(s, places::IN_USE);
    clock_valid(
        word_of(s, places::RATE),
        word_of(s, places::PHASE),
        position,
        long(s, places::START),
        word_of(s, places::PENDING),
    ) && counts_valid(objects, isf, word_of(s, places::BEDS))
        && element_valid(
            position,
            least_flags(0, elements, objects, isf),
            word_of(s, places::FIRST_FLAGS),
            long(s, places::FIRST_RAMP),
        )
        && element_valid(
            position,
            least_flags(1, elements, objects, isf),
            word_of(s, places::SECOND_FLAGS),
            long(s, places::SECOND_RAMP),
        )
}

#[tactic(auto, using(crate::proofs::BlockTests::fields_good, crate::proofs::BlockTests::fields_bad))]
fn small_valid(s: &Block) -> bool
    ensures { result ≡ small_valid (in_words s.now) }
{
    fields_valid(s) && related(s)
}

// Whether the hall table is one that a making call takes. Not inlined, so that a push in the 7.1.4 hall with the built-in table does not set up this function's stack.
#[inline(never)]
fn table_valid(state: &Block) -> bool
    ensures { result ≡ table_right (table_in state.now) }
{
    table_fault(&crate::table(state)).is_none()
}

// Whether the layout's code is one of the four, and the hall table right, as the built-in one is.
pub fn hall_valid(state: &Block) -> bool
    ensures { result ≡ hall_valid state.now }
{
    crate::layout(state) <= LAST_LAYOUT && (is_built_in(state, crate::TABLE) || table_valid(state))
}

// Whether a block has the right length and every field in its range.
#[tactic(auto, using(crate::proofs::BlockTests::wrong_length, crate::proofs::BlockTests::good_beside, crate::proofs::BlockTests::bad_heads, crate::proofs::BlockTests::bad_hall))]
pub fn is_valid(state: &[u8]) -> bool
    ensures { result ≡ valid state.now }
{
    let Some(block) = state.as_array::<{ crate::SIZE }>() else {
        return false;
    };
    if !heads_valid(&block[crate::INFOS..crate::PLACES]) {
        return false;
    }
    hall_valid(block) && small_valid(block)
}
