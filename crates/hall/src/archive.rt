// What a call on planes (R-10) answers, in its form for C.
ghost use Rattle.std.specs.Prelude.{◌≡◌};
ghost use Rattle.hall.specs.Conversions.{converted_as};

use crate::answer::{Answer, BARE};
use planes::Fault;

impl From<Result<usize, Fault>> for Answer {
    ghost from_gives = { λ r a. a ≡ converted_as r };

    fn from(answer: Result<usize, Fault>) -> Answer {
        match answer {
            Ok(ready) => Answer {
                kind: 3,
                ready,
                ..BARE
            },
            Err(fault) => Answer {
                kind: 1,
                number: fault.number(),
                ..BARE
            },
        }
    }
}
