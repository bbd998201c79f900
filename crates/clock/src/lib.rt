// Samples counted from the stream's start and from a frame's start: two types, and no generic one, that only the frame's own start joins (`at`). `==`, `<` and `<=` compare two
// of one type as their numbers.
#![tactic(auto)]

ghost use Rattle.std.specs.Prelude.{◌≡◌, ◌+◌, ◌-◌, ◌≤◌, leb};

// A sample counted from the stream's start. Its bound is asked where it is counted on, and is no invariant: that would ask it of comparisons too, and of what C holds.
#[repr(C)]
#[derive(Clone, Copy, PartialEq, Eq, PartialOrd, Ord)]
pub struct StreamSample(pub u64);

// A sample counted from the frame's start.
#[repr(C)]
#[derive(Clone, Copy, PartialEq, Eq, PartialOrd, Ord)]
pub struct FrameOffset(pub u32);

// The frame's first sample.
pub const START: FrameOffset = FrameOffset(0);

impl StreamSample {
    // The stream's sample at an offset of the frame that starts here.
    pub fn at(self, offset: FrameOffset) -> StreamSample
        requires { self.0 ≤ 2199023255552 }
        ensures { result.0 ≡ self.0 + offset.0 }
    {
        StreamSample(self.0 + u64::from(offset.0))
    }

    // So many samples later.
    pub fn plus(self, samples: u32) -> StreamSample
        requires { self.0 ≤ 2199023255552 }
        ensures { result.0 ≡ self.0 + samples }
    {
        StreamSample(self.0 + u64::from(samples))
    }

    // The samples from the other on, plus 2^47: a difference that may be negative, as ramps are kept.
    pub fn past(self, other: StreamSample) -> u64
        requires { (self.0 ≤ 2199023255552) × (other.0 ≤ 2199023255552) }
        ensures { result ≡ 140737488355328 + self.0 - other.0 }
    {
        140737488355328 + self.0 - other.0
    }

    // Whether the stream with so many samples more stays within 2^40.
    pub fn has_room(self, samples: u32) -> bool
        ensures { result ≡ leb (self.0 + samples) 1099511627776 }
    {
        self.0 <= 1099511627776 - u64::from(samples)
    }
}

impl FrameOffset {
    // So many samples later.
    pub fn plus(self, samples: u32) -> FrameOffset
        requires { self.0 + samples ≤ 4294967295 }
        ensures { result.0 ≡ self.0 + samples }
    {
        FrameOffset(self.0 + samples)
    }

    // The samples from here up to an end.
    pub fn up_to(self, end: FrameOffset) -> usize
        requires { self.0 ≤ end.0 }
        ensures { result ≡ end.0 - self.0 }
    {
        (end.0 - self.0) as usize
    }

    // Its place in a channel of the frame.
    pub fn index(self) -> usize
        ensures { result ≡ self.0 }
    {
        self.0 as usize
    }
}
