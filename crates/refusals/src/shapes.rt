// SPDX-License-Identifier: Apache-2.0
// Translated from libstarmine_ad render.rs; changed.

// What 10 to 14 look at: the shape of the state or, from the first update on, that of the last update.
ghost use Rattle.std.specs.Prelude.{◌≡◌, ◌≤◌};
ghost use Rattle.refusals.specs.PresentShape.{said_shape, present_shape, IsPresent};
ghost use Rattle.refusals.specs.FirstFound.{IsAfter};

use crate::present::Present;
use clock::FrameOffset;
use records::metadata::{Metadata, Update};
use timed::state::MetadataRendererState;
use updates::update::next_codes;

// The state's. The clause is no invariant of the state, which C may hold with any numbers.
pub fn present_of(state: MetadataRendererState) -> Present
    requires { (state.beds ≤ 18) × (state.objects ≤ 32) }
    ensures { IsPresent state result }
{
    let codes = state.codes;
    Present {
        started: state.initialized,
        objects: state.objects.saturating_sub(state.isf) as u32,
        beds: state.beds,
        codes,
    }
}

// That of an update.
fn present_said(said: Update<'_>) -> Present
    ensures { present_shape result ≡ said_shape said.entry.record.meta.now said.entry.record.place }
{
    let header = said.record.header();
    Present {
        started: true,
        objects: header.dynamic() as u32,
        beds: header.beds,
        codes: next_codes([0; 18], said.record),
    }
}

// The shape after the updates at sample offset t.
pub fn present_after(p: Present, metadata: &Metadata<'_>, t: FrameOffset) -> Present
    ensures { IsAfter metadata.now t.0 p result }
{
    let mut present = p;
    for i in 0..metadata.layout.count {
        let sent = metadata.layout.sent[i];
        if sent.offset == t {
            present = present_said(metadata.update(i));
        }
    }
    present
}
