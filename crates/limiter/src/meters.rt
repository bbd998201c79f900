// SPDX-License-Identifier: Apache-2.0

// The meters: what the limiter met, and by what it scaled.
ghost use Rattle.std.specs.Prelude.{◌≡◌};
ghost use Rattle.limiter.specs.Meters.{unmet, meets, shown};

// A block's peak before scaling and the gain that was used; or the greatest and the least of several blocks.
#[derive(Clone, Copy)]
pub struct Meters {
    pub peak: f32,
    pub gain: f32,
}

impl Meters {
    // Before any block. A NaN and no Option is no gain yet: `ieee::min` passes over it, as document 02 passes over NaNs of a handed-in block.
    pub fn unmet() -> Self
        ensures { result ≡ unmet }
    {
        Meters {
            peak: 0.0,
            gain: f32::NAN,
        }
    }

    // With a block more. Of equal ones, as the two zeros are, the earlier stays.
    pub fn meet(self, block: Meters) -> Self
        ensures { result ≡ meets self block }
    {
        Meters {
            peak: ieee::max(self.peak, block.peak),
            gain: ieee::min(self.gain, block.gain),
        }
    }

    // As a call answers them: with no gain but NaNs, 1.
    #[tactic(auto, unfolding(crate::specs::Meters::shown))]
    pub fn shown(self) -> Self
        ensures { result ≡ shown self }
    {
        if self.gain.is_nan() {
            return Meters { gain: 1.0, ..self };
        }
        self
    }
}
