// Where the fields of an info stand, in bytes, behind its head: each at the place before it plus that field's width. The format is specs/Info.antt.
pub const GAIN: usize = 4;

pub const SIZE: usize = GAIN + 4;

pub const DISTANCE: usize = SIZE + 4;

pub const SCREEN: usize = DISTANCE + 4;

pub const POSITION: usize = SCREEN + 4;

pub const LAST: usize = POSITION + 12;

pub const SEND: usize = LAST + 12;

// The bytes of an info.
pub const BYTES: usize = SEND + 4;
