// The areas of the state block that stay bytes: the object infos, and the places of pending samples, a row for each channel.
ghost use Rattle.std.specs.Prelude.{◌≡◌, length};
ghost use Rattle.formats.specs.Info.{head_valid};
ghost use Rattle.formats.specs.Areas.{info_count, infos_bytes, heads_valid};

use crate::info;

pub const INFO_COUNT: usize = 512;

pub const INFO_BYTES: usize = info::BYTES;

pub const INFOS_BYTES: usize = INFO_COUNT * INFO_BYTES;

pub const ROW_COUNT: usize = 12;

pub const ROW_PLACES: usize = 64;

pub const ROW_BYTES: usize = 4 * ROW_PLACES;

pub const PLACE_COUNT: usize = ROW_COUNT * ROW_PLACES;

pub const PLACES_BYTES: usize = ROW_COUNT * ROW_BYTES;

// A head: flags + 256 anchor + 65,536 depth.
fn head_valid(h: u32) -> bool
    ensures { result ≡ head_valid h }
{
    (h < 262144) & (h % 256 < 64) & (h / 256 % 256 < 3)
}

// Each head, with no branch a head: an OR is below a power of two where every term is.
// The anchors go in plus 1, in the second byte: all are below 3 where those are below 4.
#[tactic(auto, using(crate::proofs::HeadsTested::heads_more, crate::proofs::HeadsTested::heads_all))]
fn each_valid(infos: &[u8]) -> bool
    requires { length infos.now ≡ infos_bytes }
    ensures { result ≡ heads_valid infos.now 0 info_count }
{
    let mut heads = 0u32;
    let mut anchors = 0u32;
    for k in 0..INFO_COUNT {
        let h = words::u32_at(infos, INFO_BYTES * k);
        heads |= h;
        anchors |= h % 65536 + 256;
    }
    (heads < 262144) & (heads % 256 < 64) & (anchors < 1024)
}

// The heads of the infos. No field of a head is above that of the OR of all: where that is a head in range, each is.
// Its loop is not that of `each_valid`, which takes the anchors too: they are needed only where anchors 1 and 2 are both in use.
#[tactic(auto, using(crate::proofs::HeadsTested::joined_more, crate::proofs::HeadsTested::joined_all))]
pub fn heads_valid(infos: &[u8]) -> bool
    requires { length infos.now ≡ infos_bytes }
    ensures { result ≡ heads_valid infos.now 0 info_count }
{
    let mut heads = 0u32;
    for k in 0..INFO_COUNT {
        heads |= words::u32_at(infos, INFO_BYTES * k);
    }
    head_valid(heads) || each_valid(infos)
}
