// The present shape.
ghost use Rattle.std.specs.Prelude.{◌≤◌};

// The shape as a value: the codes past `beds` count for nothing. `started` is no Option: the rules' `Shape` has it beside the counts, and a state not begun has counts too.
// (d) `beds` beside `codes`, as in the state and in an update: a list would be copied out of these and read once.
#[derive(Clone, Copy)]
pub struct Present {
    pub started: bool,
    pub objects: u32,
    pub beds: usize,
    pub codes: [u8; 18],
    ghost few: { beds ≤ 18 },
}
