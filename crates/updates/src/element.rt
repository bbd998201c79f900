// SPDX-License-Identifier: Apache-2.0
// Translated from libstarmine_ad render.rs; changed.

// An element of an update: `apply_element`.
ghost use Rattle.std.specs.Prelude.{◌≡◌, ◌+◌, ◌-◌, ◌<◌, ◌≤◌};
ghost use Rattle.timed.specs.InfoSizes.{most_objects, element_infos, all_infos};
ghost use Rattle.records.specs.WholeRecords.{WholeElement};
ghost use Rattle.updates.specs.Said.{element_said};
ghost use Rattle.updates.specs.Stored.{object_given, objects_stored};
ghost use Rattle.updates.specs.Applied.{is_kept, scheduled, element_next};
ghost use Rattle.updates.specs.UpdateResults.{IsElement};

use fields::record::Record;
use fields::update::Header;
use info::put_info;
use records::layout::{block_place, object_place};
use timed::infos::{BLOCKS, Bytes, INFO_BYTES};
use timed::slot::RAMP_OVER;
use timed::state::{BlockState, ElementRendererState, Track};

// How many objects an update has, the first `isf` of them beds or ISF.
#[derive(Clone, Copy)]
pub struct Counts {
    pub objects: usize,
    pub isf: usize,
}

impl Counts {
    // Those of an update.
    pub(crate) fn of(header: Header) -> Counts
        ensures { result ≡ record { objects = header.objects; isf = header.bed_or_isf } }
    {
        Counts {
            objects: header.objects,
            isf: header.bed_or_isf,
        }
    }

    // How many objects are dynamic, as of a header: the state's last counts, which no header has, are asked it too.
    pub fn dynamic(self) -> usize
        ensures { result ≡ self.objects - self.isf }
    {
        self.objects.saturating_sub(self.isf)
    }
}

// The flag, unset, and the target of a new element's object.
const NEW_TRACK: Track = Track {
    now: false,
    future: vectors::ORIGIN,
};

// Whether an element is kept, with no branch; `same` is a fact, of all counts but the blocks.
fn is_kept(same: bool, blocks: usize, next: usize) -> bool
    ensures { result ≡ is_kept same blocks next }
{
    same & (blocks == next)
}

// An element of an update: its record, which its blocks and objects follow, and its infos, those from `first` on.
#[derive(Clone, Copy)]
pub struct Element<'a> {
    pub record: Record<'a>,
    pub counts: Counts,
    pub first: usize,
    ghost few: { counts.objects ≤ most_objects },
    ghost whole: { WholeElement record.meta.now counts.objects record.place },
    ghost room: { first + element_infos ≤ all_infos },
}

impl Element<'_> {
    // Object o in each block. `fresh` is a fact of the infos, and chooses no step.
    #[tactic(auto, using(timed::proofs::Theorems::turns), unfolding(crate::specs::Stored::object_stored))]
    fn put_object(self, infos: &mut Bytes, fresh: bool, o: usize)
        requires { o < self.counts.objects }
        ensures { let s = self.entry in infos.new ≡ object_given fresh s.counts.isf (element_said s.record.meta.now s.record.place) s.first o infos.old }
    {
        let first = self.first + BLOCKS * o;
        for b in 0..self.record.blocks() {
            let place = object_place(self.record, o, b);
            let object = Record {
                meta: self.record.meta,
                place,
            };
            put_info(
                infos,
                INFO_BYTES * (first + b),
                object.info(),
                fresh,
                o < self.counts.isf,
            );
        }
    }

    // Each object in each block.
    #[tactic(auto, using(timed::proofs::Theorems::turns), unfolding(crate::specs::Stored::objects_stored))]
    fn put_objects(self, infos: &mut Bytes, fresh: bool)
        ensures { let s = self.entry in infos.new ≡ objects_stored fresh s.counts.isf (element_said s.record.meta.now s.record.place) s.first s.counts.objects infos.old }
    {
        for o in 0..self.counts.objects {
            self.put_object(infos, fresh, o);
        }
    }

    // Offsets and ramps of the blocks, none of them applied. `as` cuts nothing: an element's type says that they are in range, so a `try_from` would be unwrapped.
    #[tactic(auto, using(timed::proofs::Theorems::turns), unfolding(crate::specs::Applied::scheduled))]
    fn schedule(self, schedule: [BlockState; 8]) -> [BlockState; 8]
        ensures { let r = self.entry.record in result ≡ scheduled (element_said r.meta.now r.place) schedule }
    {
        let mut next = schedule;
        for b in 0..self.record.blocks() {
            let place = block_place(self.record.place, b);
            let block = Record {
                meta: self.record.meta,
                place,
            }
            .raised_block();
            next[b] = BlockState {
                offset: block.offset as u32,
                ramp: block.ramp as u32,
                used: false,
            };
        }
        next
    }

    // The element with these blocks: kept, or new. `kept` comes with the update and is no step of the caller's: the infos are worked out from it too.
    #[tactic(auto, unfolding(crate::specs::Applied::element_next))]
    fn next(self, element: ElementRendererState, kept: bool) -> ElementRendererState
        ensures { let s = self.entry in result ≡ element_next kept (s.counts.objects - s.counts.isf) (element_said s.record.meta.now s.record.place) element }
    {
        let blocks = self.record.blocks();
        let schedule = self.schedule(element.schedule);
        if kept {
            return ElementRendererState {
                blocks,
                schedule,
                ..element
            };
        }
        let flags = self.counts.dynamic();
        ElementRendererState {
            blocks,
            flags,
            remaining: RAMP_OVER,
            schedule,
            tracks: [NEW_TRACK; 16],
        }
    }

    // The element, applied to what it was. `same` is a fact of the update's counts.
    pub fn apply(
        self,
        element: ElementRendererState,
        infos: &mut Bytes,
        same: bool,
    ) -> ElementRendererState
        ensures { let s = self.entry in IsElement same s.counts (element_said s.record.meta.now s.record.place) s.first element infos.old result infos.new }
    {
        let kept = is_kept(same, element.blocks, self.record.blocks());
        self.put_objects(infos, !kept);
        self.next(element, kept)
    }
}
