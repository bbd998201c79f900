// SPDX-License-Identifier: Apache-2.0
// Translated from libstarmine_ad render.rs; changed.

// The low-pass of the bass feed, document 01 item 6: five coefficients beside four past values, one sample at a time.
#![tactic(auto)]

ghost use Rattle.std.specs.Prelude.{◌≡◌};
ghost use Rattle.angles.specs.Angle.{Listed};
ghost use Rattle.lowpass.specs.Lowpass.{new, output, next, filtered, after_all};

use angles::filter::Coefficients;

// The coefficients stand beside the memory, as in the block: a `Coefficients` within would put one name more into each term of the sum.
#[repr(C)]
#[derive(Clone, Copy)]
pub struct BiquadLowpassState {
    pub a1: f32,
    pub a2: f32,
    pub b0: f32,
    pub b1: f32,
    pub b2: f32,
    pub x1: f32,
    pub x2: f32,
    pub y1: f32,
    pub y2: f32,
}

// A sample filtered, and the filter for the sample after it.
#[derive(Clone, Copy)]
pub struct Filtered {
    pub sample: f32,
    pub filter: BiquadLowpassState,
}

impl BiquadLowpassState {
    // The filter of a listed rate, with nothing in its memory.
    pub fn new(rate: u32) -> Self
        requires { Listed rate }
        ensures { result ≡ new rate }
    {
        let Coefficients { a1, a2, b0, b1, b2 } = angles::coefficients(rate);
        BiquadLowpassState {
            a1,
            a2,
            b0,
            b1,
            b2,
            x1: 0.0,
            x2: 0.0,
            y1: 0.0,
            y2: 0.0,
        }
    }

    // One sample.
    pub fn process(self, current: f32) -> Filtered
        ensures { (result.sample ≡ output self current) × (result.filter ≡ next self current) }
    {
        let sample = self.b2 * self.x2 + self.b1 * self.x1 + self.b0 * current
            - self.a1 * self.y1
            - self.a2 * self.y2;
        Filtered {
            sample,
            filter: BiquadLowpassState {
                x1: current,
                x2: self.x1,
                y1: sample,
                y2: self.y1,
                ..self
            },
        }
    }

    // All samples, each replaced by its filtered value.
    pub fn process_in_place(mut self, samples: &mut [f32]) -> BiquadLowpassState
        ensures { (result ≡ after_all self samples.old) × (samples.new ≡ filtered self samples.old) }
    {
        for i in 0..samples.len() {
            let done = self.process(samples[i]);
            samples[i] = done.sample;
            self = done.filter;
        }
        self
    }
}
