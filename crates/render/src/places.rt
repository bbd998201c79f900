// The rows of a run in the places of a state block: a row for each channel.
ghost use Rattle.std.specs.Prelude.{◌≡◌, ◌+◌, ◌*◌, ◌≤◌, length};
ghost use Rattle.formats.specs.Areas.{row_places, row_bytes, places_bytes};
ghost use Rattle.limiter.specs.ChannelPlaces.{channels, with_channels};
ghost use Rattle.render.specs.MixedRows.{AreFloats};

use crate::Rows;
use formats::areas;

// The first k places of each row behind the pending samples of its channel, where the channel is there: times 1.0, which changes no float. That the rows are f32s, which a slice
// says and an array does not, is what lets them be read back.
#[tactic(auto, using(crate::proofs::WrittenRows::channel_step, crate::proofs::WrittenRows::channel_skip), unfolding(limiter::specs::ChannelPlaces::channels, limiter::specs::ChannelPlaces::with_channels))]
pub fn append_rows(
    rows: &Rows,
    present: &[bool; areas::ROW_COUNT],
    places: &mut [u8],
    pending: usize,
    k: usize,
)
    requires { (length places.old ≡ places_bytes) × (pending + k ≤ row_places) }
    ensures { (places.new ≡ with_channels (channels present.now k rows.now) row_bytes (4 * pending) places.old) × AreFloats rows.now }
{
    let list = rows.as_slice();
    for c in 0..areas::ROW_COUNT {
        if !present[c] {
            continue;
        }
        let from = areas::ROW_PLACES * c;
        let at = areas::ROW_BYTES * c + 4 * pending;
        limiter::places::scale_slice_into(&list[from..from + k], 1.0, &mut places[at..at + 4 * k]);
    }
}
