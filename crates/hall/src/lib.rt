// The entries that the host calls. Contracts: the answer, the state block and the output at exit are those of the rules' `made`, for arguments of any kind. `appends` says
// of a push that completes no block which bytes of the places stay (R-4).
#![tactic(auto)]

ghost use Rattle.std.specs.Prelude.{◌≡◌, ◌-◌, cond, OnOk, IfOk};
ghost use Rattle.rules.specs.Calls.{push, flush, reset, make, make_with, hold, release, mark, find};
ghost use Rattle.rules.specs.BlockCalls.{made};
ghost use Rattle.theorem.specs.Instance.{hall, block, block_size};
ghost use Rattle.theorem.specs.Appends.{AppendsIfOpen};
ghost use Rattle.hall.specs.Answers.{Left, MadeNew, coded, version};
ghost use Rattle.hall.specs.Places.{place_of, placed_as};
ghost use Rattle.hall.specs.declared.answer.Outcome.TheVariants.{Fresh, Marked};
ghost use Rattle.rules.specs.Refusals.{args_of};

use answer::Outcome;
use clock::FrameOffset;
use panning::LAST_LAYOUT;
use refusals::{Numbers, Push, Refusal};
use store::{Block, hall_table};
use timed::state::MetadataRendererState;
use vectors::Vec3;
use waits::Area;

mod ahead;
pub mod answer;
mod archive;
mod block;
mod pcm;
pub mod place;
mod work;

const VERSION: u32 = 7;

// The bytes of a state block.
pub const STATE_BYTES: usize = store::SIZE + waits::BYTES;

// The bytes of a hall table.
const TABLE_BYTES: usize = 4 * hall_table::TABLE_WORDS;

// Renders a frame: beds (one code each), then objects, `samples` of each channel in `pcm`. What is ready goes to `out`, channel c from place c x `stride` on.
// Its parameters are document 01's: "calls push, flush and reset over numbers and byte slices". The hint: the library calls it in one place, the C entry.
#[tactic(auto, using(crate::proofs::Known::valid_long))]
#[inline(always)]
pub fn push(
    state: &mut [u8],
    pcm: &[u8],
    meta: &[u8],
    out: &mut [u8],
    codes: &[u8],
    rate: u32,
    samples: u32,
    objects: u32,
    stride: u32,
) -> Result<Outcome, Refusal>
    ensures left { Left
        (made hall block (push (args_of pcm.now meta.now out.old codes.now rate samples objects stride)) state.old) (coded result)
        state.new out.new }
    ensures appends { OnOk result (AppendsIfOpen
        (args_of pcm.now meta.now out.old codes.now rate samples objects stride) state.old state.new) }
{
    if !block::is_valid(state) {
        return Err(Refusal::Lent);
    }
    let (block, area): (&mut Block, _) = state.split_first_chunk_mut().unwrap();
    let area: &mut Area = area.as_mut_array().unwrap();
    let s = store::load(block);
    let push = Push {
        pcm,
        meta,
        codes,
        n: Numbers {
            rate,
            samples,
            objects,
            stride,
        },
    };
    let frame = refusals::early::check(s.clock.position, push, out.len())?;
    let start = s.clock.position;
    let end = FrameOffset(samples);
    let kept = ahead::kept(area, start, end, &frame.metadata)?;
    refusals::check_later(s, &kept, frame)?;
    let given = work::render(s, block, &kept, frame, out);
    ahead::settle(area, start, end, &frame.metadata);
    Ok(Outcome::Ready(given))
}

// Gives out the samples that wait.
#[tactic(auto, using(crate::proofs::Known::valid_long))]
pub fn flush(state: &mut [u8], out: &mut [u8], stride: u32) -> Result<Outcome, Refusal>
    ensures { Left (made hall block (flush out.old stride) state.old) (coded result) state.new out.new }
{
    if !block::is_valid(state) {
        return Err(Refusal::Lent);
    }
    if !refusals::early::room(stride, out.len()) {
        return Err(Refusal::Lent);
    }
    let block: &mut Block = state.first_chunk_mut().unwrap();
    let s = store::load(block);
    if s.pending == 0 {
        return Ok(Outcome::Nothing);
    }
    Ok(Outcome::Ready(work::drain(s, block, out, stride)))
}

// Makes any block of the right length a new renderer for a layout: 0 is 7.1.4, 1 5.1.4, 2 7.1.0, 3 5.1.0.
pub fn make(state: &mut [u8], layout: u32) -> Result<Outcome, Refusal>
    ensures left { MadeNew (made hall block (make layout) state.old) (coded result) state.new }
    ensures done { IfOk result (λ o. o ≡ Fresh) }
{
    if state.len() != STATE_BYTES {
        return Err(Refusal::Lent);
    }
    if layout > LAST_LAYOUT {
        return Err(Refusal::Layout);
    }
    block::make(state, layout, &hall_table::BUILT_IN);
    Ok(Outcome::Fresh)
}

// The same with the hall's own table, twelve records of x, y and z in channel order, in place of the built-in one.
pub fn make_with_table(state: &mut [u8], layout: u32, table: &[u8]) -> Result<Outcome, Refusal>
    ensures left { MadeNew (made hall block (make_with layout table.now) state.old) (coded result) state.new }
    ensures done { IfOk result (λ o. o ≡ Fresh) }
{
    if state.len() != STATE_BYTES {
        return Err(Refusal::Lent);
    }
    if layout > LAST_LAYOUT {
        return Err(Refusal::Layout);
    }
    if table.len() != TABLE_BYTES {
        return Err(Refusal::TableLength);
    }
    let table = hall_table::table_words(table, 0);
    if let Some(fault) = hall_table::table_fault(&table) {
        return Err(Refusal::from(fault));
    }
    block::make(state, layout, &table);
    Ok(Outcome::Fresh)
}

// Makes a block's renderer new: it keeps its layout and its table, and all else is as a making call leaves it.
pub fn reset(state: &mut [u8]) -> Result<Outcome, Refusal>
    ensures left { MadeNew (made hall block reset state.old) (coded result) state.new }
    ensures done { IfOk result (λ o. o ≡ Fresh) }
{
    if state.len() != STATE_BYTES {
        return Err(Refusal::Lent);
    }
    let block: &Block = state.first_chunk().unwrap();
    if !store::ranges::hall_valid(block) {
        return Err(Refusal::Lent);
    }
    let layout = store::layout(block);
    let table = store::table(block);
    block::make(state, layout, &table);
    Ok(Outcome::Fresh)
}

// How many dynamic objects there are to hold: those of the last applied update, and none before one.
fn held_most(s: &MetadataRendererState) -> usize
    ensures { result ≡ cond s.now.initialized (s.now.objects - s.now.isf) 0 }
{
    if s.initialized { s.dynamic() } else { 0 }
}

// Holds a dynamic object, numbered as in the PCM, from the next slot on, or releases it. What is asked for already leaves the block as it is, a NaN of any bits too.
#[tactic(auto, using(crate::proofs::Known::valid_long))]
fn mark(state: &mut [u8], object: u32, wanted: bool) -> Result<Outcome, Refusal>
    ensures left { MadeNew (made hall block (mark wanted object) state.old) (coded result) state.new }
    ensures done { IfOk result (λ o. o ≡ Marked) }
{
    if !block::is_valid(state) {
        return Err(Refusal::Lent);
    }
    let block: &mut Block = state.first_chunk_mut().unwrap();
    let s = store::load(block);
    let d = object as usize;
    if d >= held_most(&s.state) {
        return Err(Refusal::ObjectNumber);
    }
    if s.state.wants(d) != wanted {
        store::write::save(block, s.with_state(s.state.want(d, wanted)));
    }
    Ok(Outcome::Marked)
}

pub fn hold(state: &mut [u8], object: u32) -> Result<Outcome, Refusal>
    ensures left { MadeNew (made hall block (hold object) state.old) (coded result) state.new }
    ensures done { IfOk result (λ o. o ≡ Marked) }
{
    mark(state, object, true)
}

pub fn release(state: &mut [u8], object: u32) -> Result<Outcome, Refusal>
    ensures left { MadeNew (made hall block (release object) state.old) (coded result) state.new }
    ensures done { IfOk result (λ o. o ≡ Marked) }
{
    mark(state, object, false)
}

// Where to put a sound: the first place of the grid in which exactly the speakers of the mask sound, bit c for channel c.
#[tactic(auto, using(crate::proofs::Known::valid_long))]
pub fn find(state: &[u8], mask: u32) -> Result<Option<Vec3>, Refusal>
    ensures { placed_as result ≡ place_of (made hall block (find mask) state.now).answer }
{
    if !block::is_valid(state) {
        return Err(Refusal::Lent);
    }
    let block: &Block = state.first_chunk().unwrap();
    Ok(work::find(block, mask))
}

// The bytes of a state block.
pub fn state_size() -> usize
    ensures { result ≡ block_size }
{
    STATE_BYTES
}

// The version of this interface: it steps with every change of the block's layout or of a signature.
pub fn version() -> u32
    ensures { result ≡ version }
{
    VERSION
}
