// What a search (R-13) answers, in its form for C.
ghost use Rattle.std.specs.Prelude.{◌≡◌};
ghost use Rattle.hall.specs.Places.{placed_as};

use refusals::Refusal;
use vectors::Vec3;

// kind 0: found; 1: refused, with document 01's number; 2: none. The coordinates of the place, 0 where there is none.
#[repr(C)]
#[derive(Clone, Copy)]
pub struct Place {
    pub kind: u32,
    pub number: u32,
    pub x: f32,
    pub y: f32,
    pub z: f32,
}

const NOWHERE: Place = Place {
    kind: 2,
    number: 0,
    x: 0.0,
    y: 0.0,
    z: 0.0,
};

impl From<Result<Option<Vec3>, Refusal>> for Place {
    ghost from_gives = { λ r p. p ≡ placed_as r };

    fn from(answer: Result<Option<Vec3>, Refusal>) -> Place {
        match answer {
            Ok(Some(place)) => Place {
                kind: 0,
                number: 0,
                x: place.x,
                y: place.y,
                z: place.z,
            },
            Ok(None) => NOWHERE,
            Err(refusal) => Place {
                kind: 1,
                number: refusal.stop().number,
                ..NOWHERE
            },
        }
    }
}
