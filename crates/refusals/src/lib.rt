// SPDX-License-Identifier: Apache-2.0
// Translated from libstarmine_ad render.rs; changed.

// Document 01's "Who can cause a refusal": the refusals of a push on a valid block, found before anything is written: 1 to 8 (`early`), then the Rust's own, 9 to 14 (`later`).
#![tactic(auto)]

mod checks;
pub mod early;
mod later;
mod present;
mod shapes;

ghost use Rattle.std.specs.Prelude.{◌≡◌, ◌++◌, ◌≤◌};
ghost use Rattle.refusals.specs.RefusalNumbers.{numbers, numbers_of, found_of, fault_refusal, table_refusal};
ghost use Rattle.refusals.specs.PresentShape.{told_by};
ghost use Rattle.rules.specs.Refusals.{later};
ghost use Rattle.theorem.specs.Instance.{shape_of};

use beds::Codes;
use panning::TableFault;
use records::metadata::{Fault, Metadata};
use shapes::present_of;
use store::renderer::Renderer714;

// The refusals of a push, of a making call, and of a hold or a release: `stop` gives document 01's number and counts of each.
#[derive(Clone, Copy, PartialEq, Eq, Debug)]
pub enum Refusal {
    // 1 to 8; 7 is not in use
    Lent,
    Sizes,
    Rate,
    StreamEnd,
    Records,
    Ranges,
    Samples,
    // 9 to 14, the Rust's own; (expected, provided), (expected), (code)
    SampleRateChanged(u32, u32),
    MissingOamd,
    ObjectCountMismatch(u32, u32),
    UnsupportedSampleCount,
    BedChannelCountMismatch(u32),
    UnsupportedBedChannel(u32),
    // 15, of a making call, and 16 to 18, of one with a table
    Layout,
    TableLength,
    TableCoordinate,
    TablePlaces,
    // 24, of a hold or a release
    ObjectNumber,
    // 25, of a push
    TooManyAhead,
}

// What is told of a refusal: document 01's number and two counts, zero where unnamed. Numbers, since they cross to C and are printed.
#[derive(Clone, Copy)]
pub struct Stop {
    pub number: u32,
    pub first: u32,
    pub second: u32,
}

impl Stop {
    fn new(number: u32, first: u32, second: u32) -> Self
        ensures { result ≡ numbers number first second }
    {
        Stop {
            number,
            first,
            second,
        }
    }
}

impl Refusal {
    #[tactic(auto, using(crate::proofs::First::by_case))]
    pub fn stop(self) -> Stop
        ensures { result ≡ numbers_of self }
    {
        match self {
            Refusal::Lent => Stop::new(1, 0, 0),
            Refusal::Sizes => Stop::new(2, 0, 0),
            Refusal::Rate => Stop::new(3, 0, 0),
            Refusal::StreamEnd => Stop::new(4, 0, 0),
            Refusal::Records => Stop::new(5, 0, 0),
            Refusal::Ranges => Stop::new(6, 0, 0),
            Refusal::Samples => Stop::new(8, 0, 0),
            Refusal::SampleRateChanged(expected, provided) => Stop::new(9, expected, provided),
            Refusal::MissingOamd => Stop::new(10, 0, 0),
            Refusal::ObjectCountMismatch(expected, provided) => Stop::new(11, expected, provided),
            Refusal::UnsupportedSampleCount => Stop::new(12, 0, 0),
            Refusal::BedChannelCountMismatch(expected) => Stop::new(13, expected, 0),
            Refusal::UnsupportedBedChannel(code) => Stop::new(14, code, 0),
            Refusal::Layout => Stop::new(15, 0, 0),
            Refusal::TableLength => Stop::new(16, 0, 0),
            Refusal::TableCoordinate => Stop::new(17, 0, 0),
            Refusal::TablePlaces => Stop::new(18, 0, 0),
            Refusal::ObjectNumber => Stop::new(24, 0, 0),
            Refusal::TooManyAhead => Stop::new(25, 0, 0),
        }
    }
}

impl From<Fault> for Refusal {
    ghost from_gives = { λ f r. r ≡ fault_refusal f };

    fn from(fault: Fault) -> Refusal {
        match fault {
            Fault::NotLaidOut => Refusal::Records,
            Fault::OutOfRange => Refusal::Ranges,
        }
    }
}

impl From<TableFault> for Refusal {
    ghost from_gives = { λ f r. r ≡ table_refusal f };

    fn from(fault: TableFault) -> Refusal {
        match fault {
            TableFault::Coordinate => Refusal::TableCoordinate,
            TableFault::SamePlaces => Refusal::TablePlaces,
        }
    }
}

// The numbers of a push.
#[derive(Clone, Copy)]
pub struct Numbers {
    pub rate: u32,
    pub samples: u32,
    pub objects: u32,
    pub stride: u32,
}

// What a push hands in: samples, metadata and bed codes as bytes, and its numbers.
#[derive(Clone, Copy)]
pub struct Push<'a> {
    pub pcm: &'a [u8],
    pub meta: &'a [u8],
    pub codes: &'a [u8],
    pub n: Numbers,
}

// A push that 1 to 8 let pass: its records are metadata, and its codes at most 18.
#[derive(Clone, Copy)]
pub struct Frame<'a> {
    pub pcm: &'a [u8],
    pub metadata: Metadata<'a>,
    pub codes: Codes<'a>,
    pub n: Numbers,
}

// 9 to 14 of a frame: `kept` are the updates that wait, as they fall in it. `s` is the small part of a valid block.
pub fn check_later(s: Renderer714, kept: &Metadata<'_>, frame: Frame<'_>) -> Result<(), Refusal>
    requires { (s.state.beds ≤ 18) × (s.state.objects ≤ 32) }
    ensures { found_of result ≡ later (told_by kept.now ++ told_by frame.entry.metadata) frame.entry.n.objects frame.entry.codes.list.now frame.entry.n.samples
        frame.entry.n.rate s.rate (shape_of s.state) }
{
    later::check(s.rate, present_of(s.state), kept, frame)
}
