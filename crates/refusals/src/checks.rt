// SPDX-License-Identifier: Apache-2.0
// Translated from libstarmine_ad render.rs; changed.

// 11, 13 and 14 at one moment.
ghost use Rattle.std.specs.Prelude.{◌≡◌, cond};
ghost use Rattle.rules.specs.Refusals.{clear, bed_found, beds_found};
ghost use Rattle.refusals.specs.RefusalNumbers.{found_of};
ghost use Rattle.refusals.specs.PresentShape.{present_shape};
ghost use Rattle.refusals.specs.FirstFound.{matched, IsEleven};

use crate::Refusal;
use crate::present::Present;
use beds::Codes;
use clock::FrameOffset;
use records::metadata::Metadata;

// 11: so many dynamic objects expected and provided.
fn check_match(expected: u32, provided: u32) -> Result<(), Refusal>
    ensures { found_of result ≡ matched expected provided }
{
    if expected != provided {
        return Err(Refusal::ObjectCountMismatch(expected, provided));
    }
    Ok(())
}

// 11 for each update at sample offset t, in the order sent.
pub fn check_counts(metadata: Metadata<'_>, t: FrameOffset, objects: u32) -> Result<(), Refusal>
    ensures { IsEleven metadata.entry objects t.0 result }
{
    for i in 0..metadata.layout.count {
        let sent = metadata.layout.sent[i];
        if sent.offset == t {
            let update = metadata.update(i).record;
            check_match(update.header().dynamic() as u32, objects)?;
        }
    }
    Ok(())
}

// 11 for the present state.
pub fn check_objects(p: Present, objects: u32) -> Result<(), Refusal>
    ensures { found_of result ≡ cond p.started (matched p.objects objects) clear }
{
    if p.started {
        check_match(p.objects, objects)?;
    }
    Ok(())
}

// 13, then 14, for one bed code.
fn check_bed(beds: Codes<'_>, codes: Codes<'_>, code: u8) -> Result<(), Refusal>
    ensures { found_of result ≡ bed_found beds.entry.list.now codes.entry.list.now code }
{
    if codes.count_matching(code) == 0 {
        return Err(Refusal::BedChannelCountMismatch(beds.count_matching(code)));
    }
    if code == 6 {
        return Err(Refusal::UnsupportedBedChannel(u32::from(code)));
    }
    Ok(())
}

// 13 and 14 for each bed in order.
fn check_each(beds: Codes<'_>, codes: Codes<'_>) -> Result<(), Refusal>
    ensures { found_of result ≡ beds_found beds.entry.list.now codes.entry.list.now beds.entry.list.now }
{
    for code in beds.list {
        check_bed(beds, codes, *code)?;
    }
    Ok(())
}

// 13 and 14 for the beds of the present shape.
pub fn check_beds(p: Present, codes: Codes<'_>) -> Result<(), Refusal>
    ensures { found_of result ≡ cond p.started (beds_found (present_shape p).beds codes.entry.list.now (present_shape p).beds) clear }
{
    if p.started {
        let beds = Codes {
            list: &p.codes[..p.beds],
        };
        check_each(beds, codes)?;
    }
    Ok(())
}
