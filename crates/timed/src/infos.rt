// SPDX-License-Identifier: Apache-2.0
// Translated from libstarmine_ad render.rs; changed.

// The object infos: what an object in a block says, and what it keeps from update to update. The numbers are those of specs/InfoSizes.antt.
ghost use Rattle.std.specs.Prelude.{◌≡◌, ◌+◌, ◌<◌, ◌≤◌, length};
ghost use Rattle.vectors.specs.Head.{has};
ghost use Rattle.timed.specs.InfoSizes.{all_infos, info_bytes, info_at};
ghost use Rattle.timed.specs.Infos.{maybe_at, vec_at, send_at, with_three, with_vec, block_position};

use formats::areas;
use roots::Depth;
use vectors::{Anchor, BlockPosition, Vec3};

// The infos of an object in an element, and those of the element.
pub const BLOCKS: usize = 8;

pub const ELEMENT_INFOS: usize = 256;

// The bytes of all infos.
pub type Bytes = [u8; areas::INFOS_BYTES];

// An info's bytes, and where its words stand after the head.
pub use formats::info::{BYTES as INFO_BYTES, DISTANCE, GAIN, LAST, POSITION, SCREEN, SEND, SIZE};

// Whether a head has the flag that stands for `bit`. A head is a word: `fields` asks the same of a byte, and would have to widen it first.
pub fn has(head: u32, bit: u32) -> bool
    requires { 0 < bit }
    ensures { result ≡ has head bit }
{
    head / bit % 2 == 1
}

// The value at a place of info k that is present with `bit`.
#[tactic(auto, unfolding(crate::specs::Infos::maybe_at))]
pub fn maybe_at(infos: &[u8], k: usize, bit: u32, at: usize) -> Option<f32>
    requires { (info_at k + info_bytes ≤ length infos.now) × (at + 4 ≤ info_bytes) × (k < all_infos) × (0 < bit) }
    ensures { result ≡ maybe_at infos.now k bit at }
{
    let head = words::u32_at(infos, INFO_BYTES * k);
    if has(head, bit) {
        Some(words::f32_at(infos, INFO_BYTES * k + at))
    } else {
        None
    }
}

// The position at a place.
#[tactic(auto, unfolding(crate::specs::Infos::vec_at))]
fn vec_at(infos: &[u8], at: usize) -> Vec3
    requires { at + 12 ≤ length infos.now }
    ensures { result ≡ vec_at infos.now at }
{
    Vec3 {
        x: words::f32_at(infos, at),
        y: words::f32_at(infos, at + 4),
        z: words::f32_at(infos, at + 8),
    }
}

// Stores a position at a place.
#[tactic(auto, unfolding(crate::specs::Infos::with_vec, crate::specs::Infos::with_three, words::specs::Words::with_float))]
pub fn put_vec(infos: &mut [u8], at: usize, v: Vec3)
    requires { at + 12 ≤ length infos.old }
    ensures { infos.new ≡ with_vec infos.old at v }
{
    put_three(
        infos,
        at,
        words::bits_of(v.x),
        words::bits_of(v.y),
        words::bits_of(v.z),
    );
}

// Stores three words at a place of bytes, which may be one info's alone.
#[tactic(auto, unfolding(crate::specs::Infos::with_three))]
pub fn put_three(infos: &mut [u8], at: usize, x: u32, y: u32, z: u32)
    requires { at + 12 ≤ length infos.old }
    ensures { infos.new ≡ with_three infos.old at x y z }
{
    words::put_u32(infos, at, x);
    words::put_u32(infos, at + 4, y);
    words::put_u32(infos, at + 8, z);
}

// Its send, which is always there.
pub fn send_at(infos: &[u8], k: usize) -> f32
    requires { (info_at k + info_bytes ≤ length infos.now) × (k < all_infos) }
    ensures { result ≡ send_at infos.now k }
{
    words::f32_at(infos, INFO_BYTES * k + SEND)
}

// What info k says of its object's position.
#[tactic(auto, unfolding(crate::specs::Infos::block_position))]
pub fn block_position(infos: &[u8], k: usize) -> BlockPosition
    requires { (info_at k + info_bytes ≤ length infos.now) × (k < all_infos) }
    ensures { result ≡ block_position infos.now k }
{
    let head = words::u32_at(infos, INFO_BYTES * k);
    BlockPosition {
        valid: has(head, 1),
        differential: has(head, 2),
        anchor: Anchor::from(head / 256 % 256),
        position: vec_at(infos, INFO_BYTES * k + POSITION),
        last: vec_at(infos, INFO_BYTES * k + LAST),
        distance: maybe_at(infos, k, 16, DISTANCE),
        screen: words::f32_at(infos, INFO_BYTES * k + SCREEN),
        depth: Depth::from(head / 65536),
    }
}
