// What waits in a push (R-12): the updates that fall in it, and what waits after it. Where nothing waits and nothing comes that does, the area is neither read further nor written.
ghost use Rattle.std.specs.Prelude.{◌≡◌, ◌≤◌, true};
ghost use Rattle.records.specs.LayoutAnswers.{Placed};
ghost use Rattle.waits.specs.Settled.{fits, area_settled};
ghost use Rattle.waits.specs.ValidAreas.{area_valid};
ghost use Rattle.hall.specs.Ahead.{IsKept};

use clock::{FrameOffset, StreamSample};
use records::metadata::{Metadata, NO_UPDATES};
use refusals::Refusal;
use waits::Area;

// What waits, as it falls in the frame; 25 where more would wait after it than may.
pub fn kept<'a>(
    area: &'a Area,
    start: StreamSample,
    end: FrameOffset,
    own: &Metadata<'_>,
) -> Result<Metadata<'a>, Refusal>
    requires { (area_valid start.0 area.now ≡ true) × Placed end.0 own.now.records.now own.now.layout }
    ensures { IsKept start.0 end.0 area.now own.now.records.now result }
{
    if waits::is_empty(area) && !own.any_waits() {
        return Ok(NO_UPDATES);
    }
    if !waits::fit(area, start, end, *own) {
        return Err(Refusal::TooManyAhead);
    }
    Ok(waits::metadata(area, start, end))
}

// What waits after the frame.
pub fn settle(area: &mut Area, start: StreamSample, end: FrameOffset, own: &Metadata<'_>)
    requires { (area_valid start.0 area.old ≡ true) × (start.0 ≤ 1099511627776) × Placed end.0 own.now.records.now own.now.layout × (fits start.0 end.0 area.old own.now.records.now ≡ true) }
    ensures { area.new ≡ area_settled start.0 end.0 area.old own.now.records.now }
{
    if !waits::is_empty(area) || own.any_waits() {
        waits::settle(area, start, end, *own);
    }
}
