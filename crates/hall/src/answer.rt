// What an entry answers, and its form for C.
ghost use Rattle.std.specs.Prelude.{◌≡◌};
ghost use Rattle.hall.specs.Answers.{coded};

use limiter::meters::Meters;
use refusals::{Refusal, Stop};

// What a call gave out: so many samples on each channel, from blocks with these meters.
#[derive(Clone, Copy)]
pub struct Given {
    pub samples: usize,
    pub meters: Meters,
}

// What a call does that no refusal turns away.
#[derive(Clone, Copy)]
pub enum Outcome {
    Ready(Given),
    // a flush with nothing pending
    Nothing,
    // a renderer made new
    Fresh,
    // a hold or a release, one that changes nothing too
    Marked,
}

// An enum does not cross the C boundary, so a refusal's number and counts do.
// kind 0: rendered, with `ready` samples a channel; 1: refused, with document 01's number and two counts; 2: a flush with nothing pending; 3: done, a renderer made
// new, a hold or a release, or `ready` samples a channel converted. `peak` and `gain` are the meters of what was given out, 0 and 1 where nothing was.
#[repr(C)]
#[derive(Clone, Copy)]
pub struct Answer {
    pub kind: u32,
    pub number: u32,
    pub first: u32,
    pub second: u32,
    pub ready: usize,
    pub peak: f32,
    pub gain: f32,
}

// A call that gives nothing out.
pub(crate) const BARE: Answer = Answer {
    kind: 0,
    number: 0,
    first: 0,
    second: 0,
    ready: 0,
    peak: 0.0,
    gain: 1.0,
};

impl From<Result<Outcome, Refusal>> for Answer {
    ghost from_gives = { λ r a. a ≡ coded r };

    fn from(answer: Result<Outcome, Refusal>) -> Answer {
        match answer {
            Ok(Outcome::Ready(given)) => Answer {
                ready: given.samples,
                peak: given.meters.peak,
                gain: given.meters.gain,
                ..BARE
            },
            Ok(Outcome::Nothing) => Answer { kind: 2, ..BARE },
            Ok(Outcome::Fresh | Outcome::Marked) => Answer { kind: 3, ..BARE },
            Err(refusal) => {
                let Stop {
                    number,
                    first,
                    second,
                } = refusal.stop();
                Answer {
                    kind: 1,
                    number,
                    first,
                    second,
                    ..BARE
                }
            }
        }
    }
}
