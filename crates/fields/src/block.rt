// Kind 2, element, and kind 3, block.
ghost use Rattle.std.specs.Prelude.{◌≡◌, ◌+◌, ◌*◌, ◌<◌, ◌≤◌, length};
ghost use Rattle.fields.specs.Block.{blocks, is_element, is_block, block_of, within, block_in_range};
ghost use Rattle.fields.specs.Raised.{raised, raised_of};

use crate::record::{BLOCK, ELEMENT, Record};

// The offset and the ramp of a block.
#[repr(C)]
#[derive(Clone, Copy)]
pub struct Block<T> {
    pub offset: T,
    pub ramp: T,
}

// An offset and a ramp are at most so far from 0.
const REACH: i64 = 1_048_576;

fn within(z: i64) -> bool
    ensures { result ≡ within z }
{
    (-REACH..=REACH).contains(&z)
}

impl Record<'_> {
    // How many blocks the element has.
    pub fn blocks(self) -> usize
        ensures { (result ≡ blocks self.entry.meta.now self.entry.place) × (result < 256) }
    {
        usize::from(self.byte(1))
    }

    // Whether it is an element as laid out.
    #[tactic(auto, unfolding(crate::specs::Block::is_element))]
    pub fn is_element(self) -> bool
        ensures { result ≡ is_element self.entry.meta.now self.entry.place }
    {
        (self.kind() == ELEMENT) & (self.byte(1) <= 8) & self.is_zero(2, 38)
    }

    // Whether it is a block as laid out.
    #[tactic(auto, unfolding(crate::specs::Block::is_block))]
    pub fn is_block(self) -> bool
        ensures { result ≡ is_block self.entry.meta.now self.entry.place }
    {
        (self.kind() == BLOCK) & self.is_zero(1, 7) & self.is_zero(24, 16)
    }

    // What the block says.
    pub fn block(self) -> Block<i64>
        ensures { result ≡ block_of self.entry.meta.now self.entry.place }
    {
        let at = 40 * self.place;
        Block {
            offset: words::i64_at(self.meta, at + 8),
            ramp: words::i64_at(self.meta, at + 16),
        }
    }

    // Whether offset and ramp of the block are within their range.
    pub fn block_in_range(self) -> bool
        ensures { result ≡ block_in_range (block_of self.entry.meta.now self.entry.place) }
    {
        let Block { offset, ramp } = self.block();
        within(offset) & within(ramp)
    }

    // The number at byte k, plus 2^20.
    fn raised(self, k: usize) -> u64
        requires { k + 8 ≤ 40 }
        ensures { result ≡ raised self.entry.meta.now (40 * self.entry.place + k) }
    {
        words::u64_at(self.meta, 40 * self.place + k).wrapping_add(1 << 20)
    }

    // The same numbers, each plus 2^20.
    pub fn raised_block(self) -> Block<u64>
        ensures { result ≡ raised_of self.entry.meta.now self.entry.place }
    {
        Block {
            offset: self.raised(8),
            ramp: self.raised(16),
        }
    }
}
