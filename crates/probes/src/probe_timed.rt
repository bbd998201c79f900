// The timed state crosses by value, the infos as bytes. Where the state is not within its ranges, the infos are not all there or the metadata is refused, nothing is done.
ghost use Rattle.std.specs.Prelude.{◌≡◌, ◌≤◌};
ghost use Rattle.timed.specs.TimedResults.{IsTimed};
ghost use Rattle.probes.specs.Timed.{schedule_fits, element_fits, counts_suit, state_fits, slot_if, update_if};

use clock::StreamSample;
use formats::areas::INFOS_BYTES;
use records::metadata::Metadata;
use records::sent::NO_SAMPLE;
use timed::state::{BlockState, ElementRendererState, MetadataRendererState};

fn schedule_fits(schedule: [BlockState; 8]) -> bool
    ensures { result ≡ schedule_fits schedule }
{
    schedule
        .iter()
        .all(|block| block.offset <= 2097152 && block.ramp <= 2097152)
}

#[tactic(auto, unfolding(crate::specs::Timed::element_fits))]
fn element_fits(e: ElementRendererState, position: u64) -> bool
    requires { position ≤ 1099511627776 }
    ensures { result ≡ element_fits position e }
{
    e.blocks <= 8
        && schedule_fits(e.schedule)
        && e.remaining <= 140737489403904
        && 140737488355328 <= e.remaining + (2097152 + 64 * position)
}

#[tactic(auto, unfolding(crate::specs::Timed::counts_suit))]
fn counts_fit(s: MetadataRendererState) -> bool
    ensures { result ≡ counts_suit s }
{
    s.objects <= 32
        && s.isf <= 255
        && s.objects.saturating_sub(s.isf) <= 16
        && s.beds <= 18
        && s.beds <= s.objects
        && s.elements <= 2
}

#[tactic(auto, unfolding(crate::specs::Timed::state_fits))]
fn state_fits(s: MetadataRendererState, position: u64) -> bool
    requires { position ≤ 1099511627776 }
    ensures { result ≡ state_fits position s }
{
    counts_fit(s)
        && s.payload <= StreamSample(1099511627776)
        && element_fits(s.states[0], position)
        && element_fits(s.states[1], position)
}

#[unsafe(no_mangle)]
pub extern "C" fn probe_update_timeslot(
    s: MetadataRendererState,
    infos: &mut [u8],
    start: u64,
) -> MetadataRendererState
    ensures { IsTimed (slot_if start (record { state = s; infos = infos.old })) result infos.new }
{
    if infos.len() == INFOS_BYTES && start <= 1099511627776 && state_fits(s, start) {
        s.update_timeslot(infos, StreamSample(start))
    } else {
        s
    }
}

#[unsafe(no_mangle)]
pub extern "C" fn probe_apply_update(
    s: MetadataRendererState,
    infos: &mut [u8],
    meta: &[u8],
    i: usize,
    at: u64,
) -> MetadataRendererState
    ensures { IsTimed (update_if meta.now i at (record { state = s; infos = infos.old })) result infos.new }
{
    match Metadata::of(meta, NO_SAMPLE) {
        Ok(metadata) if infos.len() == INFOS_BYTES && i < metadata.layout.count => {
            updates::update::TimedState(s)
                .apply_update(infos, metadata.update(i), StreamSample(at))
                .0
        }
        _ => s,
    }
}
