// Kinds 1 and 9, update: the second has its offset in 32 bits (R-12).
ghost use Rattle.std.specs.Prelude.{◌≡◌, ◌+◌, ◌-◌, ◌*◌, ◌<◌, ◌≤◌, length};
ghost use Rattle.fields.specs.Update.{is_far, offset, header_of, counts_fit, most_at, codes_fit, rest_clear, is_update};

use crate::record::{FAR_UPDATE, Record, UPDATE};
use clock::FrameOffset;

#[repr(C)]
#[derive(Clone, Copy)]
pub struct Header {
    pub offset: FrameOffset,
    pub objects: usize,
    pub bed_or_isf: usize,
    pub beds: usize,
    pub elements: usize,
}

impl Header {
    // How many objects are dynamic.
    pub fn dynamic(self) -> usize
        ensures { result ≡ self.objects - self.bed_or_isf }
    {
        self.objects.saturating_sub(self.bed_or_isf)
    }

    // Whether the counts are within their limits.
    fn counts_fit(self) -> bool
        ensures { result ≡ counts_fit self.objects self.bed_or_isf self.beds self.elements }
    {
        (self.objects <= 32)
            & (self.dynamic() <= 16)
            & (self.beds <= 18)
            & (self.beds <= self.objects)
            & (self.elements <= 2)
    }
}

// The largest byte that may stand at place k of the codes.
fn most_at(k: usize, beds: usize) -> u8
    ensures { result ≡ most_at k beds }
{
    if k < beds { 17 } else { 0 }
}

// Whether the 18 places from `at` on hold a listed code for each bed and zero past them, with no branch.
#[tactic(auto, using(crate::proofs::All::all_none), unfolding(crate::specs::Update::codes_fit))]
fn codes_fit(meta: &[u8], at: usize, beds: usize) -> bool
    requires { at + 18 ≤ length meta.now }
    ensures { result ≡ codes_fit meta.now at beds }
{
    let mut fit = true;
    for k in 0..18 {
        fit &= meta[at + k] <= most_at(k, beds);
    }
    fit
}

impl Record<'_> {
    // Whether it may lie far ahead.
    pub fn is_far(self) -> bool
        ensures { result ≡ is_far self.entry.meta.now self.entry.place }
    {
        self.kind() == FAR_UPDATE
    }

    // The sample offset.
    pub fn offset(self) -> FrameOffset
        ensures { result.0 ≡ offset self.entry.meta.now self.entry.place }
    {
        if self.is_far() {
            FrameOffset(self.word(28))
        } else {
            FrameOffset(u32::from(words::u16_at(self.meta, 40 * self.place + 2)))
        }
    }

    // Whether all places beside the offset that are not in use are zero.
    fn rest_clear(self) -> bool
        ensures { result ≡ rest_clear self.entry.meta.now self.entry.place }
    {
        if self.is_far() {
            self.is_zero(2, 2) & self.is_zero(26, 2) & self.is_zero(32, 8)
        } else {
            self.is_zero(26, 14)
        }
    }

    // What the update says, but for the codes.
    #[tactic(auto, using(clock::proofs::SameCount::offset_is))]
    pub fn header(self) -> Header
        ensures { result ≡ header_of self.entry.meta.now self.entry.place }
    {
        Header {
            offset: self.offset(),
            objects: usize::from(self.byte(4)),
            bed_or_isf: usize::from(self.byte(5)),
            beds: usize::from(self.byte(6)),
            elements: usize::from(self.byte(7)),
        }
    }

    // Whether it is an update as laid out.
    #[tactic(auto, unfolding(crate::specs::Update::is_update))]
    pub fn is_update(self) -> bool
        ensures { result ≡ is_update self.entry.meta.now self.entry.place }
    {
        let header = self.header();
        ((self.kind() == UPDATE) | self.is_far())
            & (self.byte(1) == 0)
            & header.counts_fit()
            & codes_fit(self.meta, 40 * self.place + 8, header.beds)
            & self.rest_clear()
    }
}
