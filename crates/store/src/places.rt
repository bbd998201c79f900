// Widths in words, and where each field of the small part stands: at the place before it plus that field's width.
pub const VEC: usize = 3;

// A source's marks (1: placed, 2: a hold asked for, 4: held), and its send, in its words.
pub const MARKS: usize = 2 + VEC;

pub const SEND: usize = MARKS + 1;

pub const SOURCE: usize = SEND + 1;

pub const BLOCK: usize = 3;

pub const TRACK: usize = 1 + VEC;

// An element's flags and its remaining ramp, in its words.
pub const FLAGS: usize = 1;

pub const REMAINING: usize = FLAGS + 1;

pub const HEAD: usize = REMAINING + 2;

pub const SCHEDULE: usize = 8 * BLOCK;

pub const ELEMENT: usize = HEAD + SCHEDULE + 16 * TRACK;

pub const FILTER: usize = 9;

// ---- the rate, the clock, limiter and low-pass, what is pending

pub const RATE: usize = 0;

pub const PHASE: usize = RATE + 1;

pub const POSITION: usize = PHASE + 1;

pub const START: usize = POSITION + 2;

pub const LIMITER_GAIN: usize = START + 2;

pub const LOWPASS: usize = LIMITER_GAIN + 1;

pub const PENDING: usize = LOWPASS + FILTER;

pub const BASICS: usize = PENDING + 1;

// ---- the last applied update

pub const INITIALIZED: usize = BASICS;

pub const PAYLOAD: usize = INITIALIZED + 1;

pub const OBJECTS: usize = PAYLOAD + 2;

pub const ISF: usize = OBJECTS + 1;

pub const BEDS: usize = ISF + 1;

pub const IN_USE: usize = BEDS + 1;

pub const COUNTS: usize = IN_USE + 1 - BASICS;

// ---- tables

pub const CODES: usize = IN_USE + 1;

pub const GAINS: usize = CODES + 18;

pub const SOURCES: usize = GAINS + 18;

pub const FIRST: usize = SOURCES + 16 * SOURCE;

pub const FIRST_FLAGS: usize = FIRST + FLAGS;

pub const FIRST_RAMP: usize = FIRST + REMAINING;

pub const SECOND: usize = FIRST + ELEMENT;

pub const SECOND_FLAGS: usize = SECOND + FLAGS;

pub const SECOND_RAMP: usize = SECOND + REMAINING;

pub const WORDS: usize = SECOND + ELEMENT;
