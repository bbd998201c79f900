// SPDX-License-Identifier: Apache-2.0
// Translated from libstarmine_ad render.rs; changed.

// Vectors and anchors of the renderer: `Vec3` of types.rs, the vector functions of render.rs, and the target of a block for an object.
#![tactic(auto)]

ghost use Rattle.std.specs.Prelude.{◌≡◌};
ghost use Rattle.std.specs.Float.{binary32};
ghost use Rattle.vectors.specs.Vectors.{zero_vec3, vec_add, vec_sub, vec_mul_scalar, vec_mul_components, vec_length, largest_size, map_to_cube, lerp, lerp_vec3};
ghost use Rattle.vectors.specs.Anchors.{finite_distance, used_distance, room_center, from_center, room_anchored, reference, multiplier, on_screen, screen_anchored};
ghost use Rattle.vectors.specs.Head.{anchor_of};
ghost use Rattle.vectors.specs.Target.{summed, differential_position, cubical, anchored, next_position, next_last, movable, moved, unmoved, placed};

use roots::Depth;
use std::ops::{Add, Mul, Sub};

// x grows to the right, y upwards, z to the front.
#[repr(C)]
#[derive(Clone, Copy)]
pub struct Vec3 {
    pub x: f32,
    pub y: f32,
    pub z: f32,
}

// The origin.
pub const ORIGIN: Vec3 = Vec3 {
    x: 0.0,
    y: 0.0,
    z: 0.0,
};

// The room's centre.
const CENTER: Vec3 = Vec3 {
    x: 0.5,
    y: 0.5,
    z: 0.0,
};

// What an object's position is given against: `ObjectAnchor` of types.rs.
#[derive(Clone, Copy)]
pub enum Anchor {
    Room,
    Screen,
    Speaker,
}

// By its code; what is past the codes counts as speaker.
impl From<u32> for Anchor {
    ghost from_gives = { λ code anchor. anchor ≡ anchor_of code };

    fn from(code: u32) -> Anchor {
        match code {
            0 => Anchor::Room,
            1 => Anchor::Screen,
            _ => Anchor::Speaker,
        }
    }
}

impl Add for Vec3 {
    type Output = Vec3;

    ghost add_gives = { λ lhs rhs r. r ≡ vec_add lhs rhs };

    fn add(self, rhs: Vec3) -> Vec3 {
        Vec3 {
            x: self.x + rhs.x,
            y: self.y + rhs.y,
            z: self.z + rhs.z,
        }
    }
}

impl Sub for Vec3 {
    type Output = Vec3;

    ghost sub_gives = { λ lhs rhs r. r ≡ vec_sub lhs rhs };

    fn sub(self, rhs: Vec3) -> Vec3 {
        Vec3 {
            x: self.x - rhs.x,
            y: self.y - rhs.y,
            z: self.z - rhs.z,
        }
    }
}

impl Mul<f32> for Vec3 {
    type Output = Vec3;

    ghost mul_gives = { λ vector scalar r. r ≡ vec_mul_scalar vector scalar };

    fn mul(self, scalar: f32) -> Vec3 {
        Vec3 {
            x: self.x * scalar,
            y: self.y * scalar,
            z: self.z * scalar,
        }
    }
}

// Component by component.
impl Mul for Vec3 {
    type Output = Vec3;

    ghost mul_gives = { λ lhs rhs r. r ≡ vec_mul_components lhs rhs };

    fn mul(self, rhs: Vec3) -> Vec3 {
        Vec3 {
            x: self.x * rhs.x,
            y: self.y * rhs.y,
            z: self.z * rhs.z,
        }
    }
}

impl Vec3 {
    pub fn length(self) -> f32
        ensures { result ≡ vec_length self }
    {
        roots::sqrt(self.x * self.x + self.y * self.y + self.z * self.z)
    }

    // The share t of the way to another, which at t = 1 need not be the other.
    pub fn lerp(self, to: Vec3, t: f32) -> Vec3
        ensures { result ≡ lerp_vec3 self to t }
    {
        self + (to - self) * t
    }

    // The largest size of a component; a NaN is passed over.
    fn largest(self) -> f32
        ensures { result ≡ largest_size self }
    {
        let first = ieee::max(ieee::abs(self.x), ieee::abs(self.y));
        ieee::max(first, ieee::abs(self.z))
    }

    #[tactic(auto, unfolding(crate::specs::Vectors::map_to_cube))]
    pub fn map_to_cube(self) -> Vec3
        ensures { result ≡ map_to_cube self }
    {
        let max = self.largest();
        if max == 0.0 {
            return ORIGIN;
        }
        self * (1.0 / max)
    }
}

// A distance as it is used: 100 for an infinity of either sign.
fn finite_distance(distance: f32) -> f32
    ensures { result ≡ finite_distance distance }
{
    if ieee::is_infinite(distance) {
        100.0
    } else {
        distance
    }
}

// `factor` of the way from the room's centre to `intersect`.
fn from_center(factor: f32, intersect: Vec3) -> Vec3
    ensures { result ≡ from_center factor intersect }
{
    intersect * factor + CENTER * (1.0 - factor)
}

#[tactic(auto, unfolding(crate::specs::Anchors::room_anchored))]
pub fn room_anchored_position(position: Vec3, distance: Option<f32>) -> Vec3
    ensures { result ≡ room_anchored position distance }
{
    let Some(value) = distance else {
        return position;
    };
    let intersect = position.map_to_cube();
    from_center(intersect.length() / value, intersect)
}

// The place of a position on the screen.
fn reference(position: Vec3) -> Vec3
    ensures { result ≡ reference position }
{
    Vec3 {
        x: (position.x - 0.5) * 0.9 + 0.5,
        y: position.y,
        z: (position.z + 1.0) * 0.486,
    }
}

// A factor for x and z, with 1 for y.
fn multiplier(factor: f32) -> Vec3
    ensures { result ≡ multiplier factor }
{
    Vec3 {
        x: factor,
        y: 1.0,
        z: factor,
    }
}

fn on_screen(depth: Vec3, screen: Vec3, position: Vec3, reference: Vec3) -> Vec3
    ensures { result ≡ on_screen depth screen position reference }
{
    depth * (screen * position + reference - screen * reference) + (reference - depth * reference)
}

#[tactic(auto, unfolding(crate::specs::Anchors::screen_anchored))]
pub fn screen_anchored_position(position: Vec3, screen: f32, depth: Depth) -> Vec3
    ensures { result ≡ screen_anchored position screen depth }
{
    let power = roots::power(position.y, depth);
    on_screen(
        multiplier(power),
        multiplier(screen),
        position,
        reference(position),
    )
}

// The position part of `ObjectInfoBlockState`: `last` is its `last_precise`, the last absolute position, and `depth` its `depth_factor`.
// `valid` and `differential` are flags and no Option: the block holds a position whatever they say.
#[derive(Clone, Copy)]
pub struct BlockPosition {
    pub valid: bool,
    pub differential: bool,
    pub anchor: Anchor,
    pub position: Vec3,
    pub last: Vec3,
    pub distance: Option<f32>,
    pub screen: f32,
    pub depth: Depth,
}

// An object's target, and what the block then holds as its position and as the last absolute one.
#[repr(C)]
#[derive(Clone, Copy)]
pub struct Placed {
    pub target: Vec3,
    pub position: Vec3,
    pub last: Vec3,
}

// One coordinate of a differential position.
fn summed(last: f32, difference: f32) -> f32
    ensures { result ≡ summed last difference }
{
    ieee::clamp(last + difference, 0.0, 1.0)
}

fn differential_position(last: Vec3, difference: Vec3) -> Vec3
    ensures { result ≡ differential_position last difference }
{
    Vec3 {
        x: summed(last.x, difference.x),
        y: summed(last.y, difference.y),
        z: summed(last.z, difference.z),
    }
}

// The room's coordinates, from 0 to 1, as those of the cube, from -1 to 1.
fn cubical(position: Vec3) -> Vec3
    ensures { result ≡ cubical position }
{
    Vec3 {
        x: position.x * 2.0 - 1.0,
        y: position.z,
        z: position.y * -2.0 + 1.0,
    }
}

impl BlockPosition {
    // Where the block's anchor puts a position.
    fn anchored(self, position: Vec3) -> Vec3
        ensures { result ≡ anchored self.anchor self position }
    {
        match self.anchor {
            Anchor::Room => room_anchored_position(position, self.distance.map(finite_distance)),
            Anchor::Screen => screen_anchored_position(position, self.screen, self.depth),
            Anchor::Speaker => position,
        }
    }

    // The position that the block holds once it is applied.
    fn next_position(self) -> Vec3
        ensures { result ≡ next_position self }
    {
        if self.differential {
            differential_position(self.last, self.position)
        } else {
            self.position
        }
    }

    // The last absolute position, once the block is applied.
    fn next_last(self) -> Vec3
        ensures { result ≡ next_last self }
    {
        if self.differential {
            self.last
        } else {
            self.position
        }
    }

    // What a block does that moves its object.
    #[tactic(auto, unfolding(crate::specs::Target::moved))]
    fn moved(self) -> Placed
        ensures { result ≡ moved self }
    {
        let position = self.next_position();
        Placed {
            target: cubical(self.anchored(position)),
            position,
            last: self.next_last(),
        }
    }

    // The position part of `update_source_state`, for an object that is `here`: it stays there where the position is not valid or the anchor is speaker.
    #[tactic(auto, unfolding(crate::specs::Target::placed))]
    pub fn placed(self, here: Vec3) -> Placed
        ensures { result ≡ placed self here }
    {
        if self.valid && !matches!(self.anchor, Anchor::Speaker) {
            return self.moved();
        }
        Placed {
            target: here,
            position: self.position,
            last: self.last,
        }
    }
}
