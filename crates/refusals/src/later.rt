// SPDX-License-Identifier: Apache-2.0
// Translated from libstarmine_ad render.rs; changed.

// Refusals 9 to 14 of a push whose 1 to 8 found nothing: a pass over its samples that changes nothing.
// Document 01: "After 8: 9, 10, 11 for updates at offset 0, 12, 11 for the present state, then 11, 13, 14 as they arise in time."
ghost use Rattle.std.specs.Prelude.{◌≡◌, ◌&&◌, ◌||◌, ◌++◌, ℕ, List, not, eqb};
ghost use Rattle.records.specs.Falls.{falls_in};
ghost use Rattle.records.specs.LayoutAnswers.{offset_at};
ghost use Rattle.rules.specs.Refusals.{◌then◌, unless, Announced, counts_at, walk, later};
ghost use Rattle.refusals.specs.RefusalNumbers.{found_of};
ghost use Rattle.refusals.specs.PresentShape.{told_by, present_shape};

use crate::checks::{check_beds, check_counts, check_objects};
use crate::present::Present;
use crate::shapes::present_after;
use crate::{Frame, Refusal};
use clock::{FrameOffset, START};
use records::metadata::Metadata;

// Whether no update falls in the frame or is dropped.
fn none_falls(kept: &Metadata<'_>, own: &Metadata<'_>) -> bool
    ensures { result ≡ (not (falls_in (offset_at kept.now.layout) kept.now.layout.count) && not (falls_in (offset_at own.now.layout) own.now.layout.count)) }
{
    !kept.any_falls() && !own.any_falls()
}

// 9 and 10; where `none`, no update falls, and none is dropped. (d) 0 before the first frame, as in `Renderer714`.
fn check_start(rate_before: u32, rate: u32, started: bool, none: bool) -> Result<(), Refusal>
    ensures { found_of result ≡ (unless (eqb rate_before 0 || eqb rate_before rate) 9 rate_before rate then unless (started || not none) 10 0 0) }
{
    if rate_before != 0 && rate_before != rate {
        return Err(Refusal::SampleRateChanged(rate_before, rate));
    }
    if !started && none {
        return Err(Refusal::MissingOamd);
    }
    Ok(())
}

// 11 for each update at sample offset t: those that waited, then the frame's own.
fn check_both(kept: &Metadata<'_>, frame: Frame<'_>, t: FrameOffset) -> Result<(), Refusal>
    ensures { (us : List Announced) (codes : List ℕ) → found_of result ≡ counts_at us frame.entry.n.objects codes t.0 (told_by kept.now ++ told_by frame.entry.metadata) }
{
    check_counts(*kept, t, frame.n.objects)?;
    check_counts(frame.metadata, t, frame.n.objects)
}

// 11, 13 and 14 as they arise in time. Between two offsets with updates nothing new can stop, so that t goes on by `while` to the next of these, and not by one.
fn check_walk(start: Present, kept: &Metadata<'_>, frame: Frame<'_>) -> Result<(), Refusal>
    ensures { found_of result ≡ walk (told_by kept.now ++ told_by frame.entry.metadata) frame.entry.n.objects frame.entry.codes.list.now frame.entry.n.samples 0
        (present_shape start) }
{
    let Frame {
        metadata,
        codes,
        n,
        ..
    } = frame;
    let end = FrameOffset(n.samples);
    let mut present = start;
    let mut t = START;
    while t < end {
        check_both(kept, frame, t)?;
        present = present_after(present_after(present, kept, t), &metadata, t);
        check_beds(present, codes)?;
        t = metadata
            .layout
            .next_offset(t, kept.layout.next_offset(t, end));
    }
    Ok(())
}

// The first of 9 to 14, or none, from the shape that the state has.
pub fn check(
    rate_before: u32,
    start: Present,
    kept: &Metadata<'_>,
    frame: Frame<'_>,
) -> Result<(), Refusal>
    ensures { found_of result ≡ later (told_by kept.now ++ told_by frame.entry.metadata) frame.entry.n.objects frame.entry.codes.list.now frame.entry.n.samples
        frame.entry.n.rate rate_before (present_shape start) }
{
    let Frame { metadata, n, .. } = frame;
    check_start(
        rate_before,
        n.rate,
        start.started,
        none_falls(kept, &metadata),
    )?;
    check_both(kept, frame, START)?;
    if n.samples == 0 {
        return Err(Refusal::UnsupportedSampleCount);
    }
    let first = present_after(present_after(start, kept, START), &metadata, START);
    check_objects(first, n.objects)?;
    check_walk(start, kept, frame)
}
