ghost use Rattle.std.specs.Prelude.{◌≡◌};
ghost use Rattle.vectors.specs.Vectors.{vec_add, vec_sub, vec_mul_scalar, vec_mul_components, vec_length, map_to_cube, lerp_vec3};
ghost use Rattle.vectors.specs.Anchors.{room_anchored, screen_anchored};
ghost use Rattle.vectors.specs.Target.{placed};
ghost use Rattle.roots.specs.Root.{depth_of};
ghost use Rattle.vectors.specs.Head.{anchor_of};
ghost use Rattle.probes.specs.Codes.{maybe_where};

use roots::Depth;
use vectors::{Anchor, BlockPosition, Placed, Vec3};

#[unsafe(no_mangle)]
pub extern "C" fn probe_vec_add(lhs: Vec3, rhs: Vec3) -> Vec3
    ensures { result ≡ vec_add lhs rhs }
{
    lhs + rhs
}

#[unsafe(no_mangle)]
pub extern "C" fn probe_vec_sub(lhs: Vec3, rhs: Vec3) -> Vec3
    ensures { result ≡ vec_sub lhs rhs }
{
    lhs - rhs
}

#[unsafe(no_mangle)]
pub extern "C" fn probe_vec_mul_scalar(vector: Vec3, scalar: f32) -> Vec3
    ensures { result ≡ vec_mul_scalar vector scalar }
{
    vector * scalar
}

#[unsafe(no_mangle)]
pub extern "C" fn probe_vec_mul_components(lhs: Vec3, rhs: Vec3) -> Vec3
    ensures { result ≡ vec_mul_components lhs rhs }
{
    lhs * rhs
}

#[unsafe(no_mangle)]
pub extern "C" fn probe_vec_length(vector: Vec3) -> f32
    ensures { result ≡ vec_length vector }
{
    vector.length()
}

#[unsafe(no_mangle)]
pub extern "C" fn probe_map_to_cube(vector: Vec3) -> Vec3
    ensures { result ≡ map_to_cube vector }
{
    vector.map_to_cube()
}

#[unsafe(no_mangle)]
pub extern "C" fn probe_lerp_vec3(from: Vec3, to: Vec3, t: f32) -> Vec3
    ensures { result ≡ lerp_vec3 from to t }
{
    from.lerp(to, t)
}

#[unsafe(no_mangle)]
pub extern "C" fn probe_room_anchored_position(position: Vec3, present: bool, distance: f32) -> Vec3
    ensures { result ≡ room_anchored position (maybe_where present distance) }
{
    vectors::room_anchored_position(position, present.then_some(distance))
}

#[unsafe(no_mangle)]
pub extern "C" fn probe_screen_anchored_position(position: Vec3, screen: f32, depth: u8) -> Vec3
    ensures { result ≡ screen_anchored position screen (depth_of depth) }
{
    vectors::screen_anchored_position(position, screen, Depth::from(u32::from(depth)))
}

#[unsafe(no_mangle)]
pub extern "C" fn probe_update_source_position(
    valid: bool,
    differential: bool,
    anchor: u8,
    position: Vec3,
    last: Vec3,
    present: bool,
    distance: f32,
    screen: f32,
    depth: u8,
    here: Vec3,
) -> Placed
    ensures { result ≡ placed
        (record {
          valid = valid;
          differential = differential;
          anchor = anchor_of anchor;
          position = position;
          last = last;
          distance = maybe_where present distance;
          screen = screen;
          depth = depth_of depth;
        }) here }
{
    BlockPosition {
        valid,
        differential,
        anchor: Anchor::from(u32::from(anchor)),
        position,
        last,
        distance: present.then_some(distance),
        screen,
        depth: Depth::from(u32::from(depth)),
    }
    .placed(here)
}
