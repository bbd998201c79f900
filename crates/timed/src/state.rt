// SPDX-License-Identifier: Apache-2.0
// Translated from libstarmine_ad render.rs; changed.

// What is kept from slot to slot: `MetadataRendererState` and its parts. The object infos stay in lent bytes.
// Tables have their full length, with counts beside them, and stand each on its own, as in the state block: there is no heap, and C may hold a state as it stands.
// A flag stands beside a value and is no Option of it: the value is panned or kept whatever the flag says.
ghost use Rattle.std.specs.Prelude.{◌≡◌, ◌-◌};
ghost use Rattle.timed.specs.Objects.{heard_with, put_at};

use clock::StreamSample;
use vectors::Vec3;

// A dynamic object as it is panned; `place` is the source's `cubical_position`, `placed` its `position_valid`, `send` its share in
// the bass feed. `wanted` is the hold that the host asks for (R-11), `held` the one that the last slot had in effect.
#[repr(C)]
#[derive(Clone, Copy)]
pub struct DynamicSourceState {
    pub gain: f32,
    pub size: f32,
    pub place: Vec3,
    pub placed: bool,
    pub wanted: bool,
    pub held: bool,
    pub send: f32,
}

impl DynamicSourceState {
    // Where it is, with another gain, size and send.
    pub fn heard_with(self, gain: f32, size: f32, send: f32) -> DynamicSourceState
        ensures { result ≡ heard_with self gain size send }
    {
        DynamicSourceState {
            gain,
            size,
            send,
            ..self
        }
    }

    // At another place, and whether one was given.
    pub fn put_at(self, place: Vec3, placed: bool) -> DynamicSourceState
        ensures { result ≡ put_at place placed self }
    {
        DynamicSourceState {
            place,
            placed,
            ..self
        }
    }
}

// Whether the element moves an object (`update_now`), and where to.
#[repr(C)]
#[derive(Clone, Copy)]
pub struct Track {
    pub now: bool,
    pub future: Vec3,
}

// A block's offset and ramp, each plus 2^20, and whether it was applied since the last update.
#[repr(C)]
#[derive(Clone, Copy)]
pub struct BlockState {
    pub offset: u32,
    pub ramp: u32,
    pub used: bool,
}

// An element: how many blocks it has, how many objects have a flag, and the remaining ramp (`future_distance`) plus 2^47.
#[repr(C)]
#[derive(Clone, Copy)]
pub struct ElementRendererState {
    pub blocks: usize,
    pub flags: usize,
    pub remaining: u64,
    pub schedule: [BlockState; 8],
    pub tracks: [Track; 16],
}

// The last applied update's stream position and counts (`isf` is its `bed_or_isf_objects`), and what beds, objects and elements are since then.
#[repr(C)]
#[derive(Clone, Copy)]
pub struct MetadataRendererState {
    pub initialized: bool,
    pub payload: StreamSample,
    pub objects: usize,
    pub isf: usize,
    pub beds: usize,
    pub elements: usize,
    pub codes: [u8; 18],
    pub gains: [f32; 18],
    pub states: [ElementRendererState; 2],
    pub sources: [DynamicSourceState; 16],
}
