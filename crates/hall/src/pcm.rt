// What a call on 24-bit samples (R-9) answers, in its form for C.
ghost use Rattle.std.specs.Prelude.{◌≡◌};
ghost use Rattle.hall.specs.Conversions24.{converted_24_as};

use crate::answer::{Answer, BARE};
use pcm24::Fault;

impl From<Result<usize, Fault>> for Answer {
    ghost from_gives = { λ r a. a ≡ converted_24_as r };

    fn from(answer: Result<usize, Fault>) -> Answer {
        match answer {
            Ok(ready) => Answer {
                kind: 3,
                ready,
                ..BARE
            },
            Err(fault) => Answer {
                kind: 1,
                number: fault.number(),
                ..BARE
            },
        }
    }
}
