// SPDX-License-Identifier: Apache-2.0

// R-11: the host holds a dynamic object where it is, and releases it.
ghost use Rattle.std.specs.Prelude.{◌≡◌, ◌-◌, ◌≤◌, ◌<◌};
ghost use Rattle.timed.specs.Holds.{with_marks, wants, wanting, holds_settled, all_settled};

use crate::state::{DynamicSourceState, MetadataRendererState};

impl DynamicSourceState {
    fn with_marks(self, wanted: bool, held: bool) -> DynamicSourceState
        ensures { result ≡ with_marks wanted held self }
    {
        DynamicSourceState {
            wanted,
            held,
            ..self
        }
    }
}

impl MetadataRendererState {
    // Whether a hold of object d is asked for.
    pub fn wants(&self, d: usize) -> bool
        requires { d < 16 }
        ensures { result ≡ wants d self.now }
    {
        self.sources[d].wanted
    }

    // A hold of object d is asked for, or none any more.
    #[tactic(auto, unfolding(crate::specs::Holds::wanting))]
    pub fn want(mut self, d: usize, wanted: bool) -> MetadataRendererState
        requires { d < 16 }
        ensures { result ≡ wanting wanted d self }
    {
        let source = self.sources[d];
        self.sources[d] = source.with_marks(wanted, source.held);
        self
    }

    // How many dynamic objects there are.
    pub fn dynamic(&self) -> usize
        ensures { result ≡ self.now.objects - self.now.isf }
    {
        self.objects.saturating_sub(self.isf)
    }

    // Whether each object's hold in effect is the one that is asked for.
    #[tactic(auto, unfolding(crate::specs::Holds::all_settled))]
    pub(crate) fn holds_stand(&self) -> bool
        requires { self.now.objects - self.now.isf ≤ 16 }
        ensures { result ≡ all_settled self.now.sources (self.now.objects - self.now.isf) }
    {
        self.sources[..self.dynamic()]
            .iter()
            .all(|source| source.wanted == source.held)
    }

    // The holds that are asked for take effect.
    #[tactic(auto, using(crate::proofs::LoopTurns::turns), unfolding(crate::specs::Holds::holds_settled))]
    pub(crate) fn settle_holds(self) -> MetadataRendererState
        requires { self.objects - self.isf ≤ 16 }
        ensures { result ≡ holds_settled self }
    {
        let mut sources = self.sources;
        for d in 0..self.dynamic() {
            let source = sources[d];
            sources[d] = source.with_marks(source.wanted, source.wanted);
        }
        MetadataRendererState { sources, ..self }
    }
}
