// SPDX-License-Identifier: Apache-2.0
// Translated from libstarmine_ad render.rs; changed.

// One object in a block, stored as an info: `apply_parsed_update`.
#![tactic(auto)]

ghost use Rattle.std.specs.Prelude.{◌≡◌, ◌+◌, ◌≤◌, length};
ghost use Rattle.timed.specs.InfoSizes.{info_bytes};
ghost use Rattle.info.specs.Written.{head_of, with_head, with_info};

use fields::object::Info;
use timed::infos;
use timed::infos::{DISTANCE, GAIN, LAST, POSITION, SCREEN, SEND, SIZE};

// The head; the anchor of a bed or ISF object is speaker.
fn head_of(i: Info, bed: bool) -> u32
    ensures { result ≡ head_of bed i }
{
    if bed {
        i.head % 256 + 512 + i.head / 65536 * 65536
    } else {
        i.head
    }
}

#[tactic(auto, unfolding(crate::specs::Written::with_head))]
fn put_head(infos: &mut [u8], at: usize, head: u32, i: Info)
    requires { at + 20 ≤ length infos.old }
    ensures { infos.new ≡ with_head head i at infos.old }
{
    words::put_u32(infos, at, head);
    words::put_u32(infos, at + GAIN, i.gain);
    words::put_u32(infos, at + SIZE, i.size);
    words::put_u32(infos, at + DISTANCE, i.distance);
    words::put_u32(infos, at + SCREEN, i.screen);
}

// The info at byte `at`: what the record says, and what is kept from update to update. `fresh` and `bed` are facts of the update and independent: a function for each pair of them
// would be four. The bytes are a slice that has room for this one info: an array of all infos would ask more of who has fewer, and `at` its clause still.
#[tactic(auto, unfolding(crate::specs::Written::with_info, crate::specs::Written::cleared, crate::specs::Written::with_place))]
pub fn put_info(infos: &mut [u8], at: usize, i: Info, fresh: bool, bed: bool)
    requires { at + info_bytes ≤ length infos.old }
    ensures { infos.new ≡ with_info fresh bed i at infos.old }
{
    put_head(infos, at, head_of(i, bed), i);
    if fresh {
        infos::put_three(infos, at + POSITION, 0, 0, 0);
        infos::put_three(infos, at + LAST, 0, 0, 0);
    }
    if infos::has(i.head, 8) {
        infos::put_three(infos, at + POSITION, i.x, i.y, i.z);
    }
    words::put_u32(infos, at + SEND, i.send);
}
