// Metadata that neither refusal 5 nor 6 turns away, and each of its updates: their types say so.
ghost use Rattle.std.specs.Prelude.{◌≡◌, ◌+◌, ◌<◌, true, IfOk};
ghost use Rattle.words.specs.Words.{Bytes};
ghost use Rattle.records.specs.FaultNumbers.{number_of};
ghost use Rattle.records.specs.Laid.{update_at};
ghost use Rattle.records.specs.LayoutAnswers.{offset_at, IsLayout, Placed};
ghost use Rattle.records.specs.Falls.{falls_in, waits_in};
ghost use Rattle.records.specs.ValuesInRange.{refusal, all_fit};
ghost use Rattle.records.specs.WholeRecords.{WholeUpdate, WholeUpdates};

use crate::layout::layout_of;
use crate::ranges::in_range;
use crate::sent::{Layout, NO_SAMPLE, NOT_SENT};
use clock::FrameOffset;
use fields::record::Record;

// Why a list of records is refused.
#[derive(Clone, Copy, PartialEq, Eq)]
pub enum Fault {
    // not laid out: refusal 5
    NotLaidOut,
    // a value outside its range: refusal 6
    OutOfRange,
}

// An update: its record, behind which all its elements stand.
#[derive(Clone, Copy)]
pub struct Update<'a> {
    pub record: Record<'a>,
    ghost whole: { WholeUpdate record.meta.now record.place },
}

// The records of a call, and where each update stands.
#[derive(Clone, Copy)]
pub struct Metadata<'a> {
    pub records: &'a [u8],
    pub layout: Layout,
    // what the type of a slice says of itself, and not of a slice in a struct
    ghost bytes: { Bytes records.now },
    ghost laid: { IsLayout records.now layout },
    ghost whole: { WholeUpdates records.now layout },
    ghost fits: { all_fit records.now ≡ true },
}

// No updates.
pub const NO_UPDATES: Metadata<'static> = Metadata {
    records: &[],
    layout: Layout {
        count: 0,
        sent: [NOT_SENT; 16],
    },
};

impl<'a> Metadata<'a> {
    // The metadata that these records are in a frame that ends at `end`, or their first fault.
    #[tactic(auto, unfolding(crate::specs::ValuesInRange::refusal))]
    pub fn of(records: &'a [u8], end: FrameOffset) -> Result<Metadata<'a>, Fault>
        ensures number { number_of result ≡ refusal records.now }
        ensures same { IfOk result (λ m. (m.records.now ≡ records.now) × Placed end.0 m.records.now m.layout) }
    {
        let Some(layout) = layout_of(records, end) else {
            return Err(Fault::NotLaidOut);
        };
        if !in_range(records) {
            return Err(Fault::OutOfRange);
        }
        Ok(Metadata { records, layout })
    }

    // Whether an update falls in its frame or is dropped, and does not only wait.
    pub fn any_falls(&self) -> bool
        ensures { result ≡ falls_in (offset_at self.now.layout) self.now.layout.count }
    {
        for i in 0..self.layout.count {
            let offset = self.layout.sent[i].offset;
            if offset != NO_SAMPLE {
                return true;
            }
        }
        false
    }

    // Whether an update only waits.
    pub fn any_waits(&self) -> bool
        ensures { result ≡ waits_in (offset_at self.now.layout) self.now.layout.count }
    {
        for i in 0..self.layout.count {
            let offset = self.layout.sent[i].offset;
            if offset == NO_SAMPLE {
                return true;
            }
        }
        false
    }

    // The record after update i.
    pub fn end_of(self, i: usize) -> usize
        requires { i < self.layout.count }
        ensures { result ≡ update_at self.entry.records.now (i + 1) }
    {
        if i + 1 < self.layout.count {
            self.layout.sent[i + 1].place
        } else {
            self.records.len() / 40
        }
    }

    // Update i, in the order sent.
    pub fn update(self, i: usize) -> Update<'a>
        requires { i < self.layout.count }
        ensures { (result.record.meta.now ≡ self.entry.records.now) × (result.record.place ≡ update_at self.entry.records.now i) }
    {
        let record = Record {
            meta: self.records,
            place: self.layout.sent[i].place,
        };
        Update { record }
    }
}
