// A hall table as words: where it stands in bytes, where it has the speakers, and whether it may be panned in.
ghost use Rattle.std.specs.Prelude.{◌≡◌, ◌+◌, ◌*◌, ◌<◌, ◌≤◌, length};
ghost use Rattle.words.specs.Words.{word, words_at};
ghost use Rattle.corners.specs.Axes.{place_among};
ghost use Rattle.panning.specs.Setup.{table_place, built_in_table};
ghost use Rattle.panning.specs.Fault.{fault_of};
ghost use Rattle.store.specs.FieldPlaces.{table_count};
ghost use Rattle.store.specs.HallTables.{equal_below};

use panning::TableFault;
use std::array;
use vectors::Vec3;

// Twelve records of three words, x, y and z.
pub const TABLE_WORDS: usize = 36;

pub type HallTable = [u32; TABLE_WORDS];

// The built-in one: the bits of `panning::SPEAKERS`.
pub static BUILT_IN: HallTable = [
    0xbf35_04f3,
    0x0000_0000,
    0x3f80_0000,
    0x3f35_04f3,
    0x0000_0000,
    0x3f80_0000,
    0x0000_0000,
    0x0000_0000,
    0x3f80_0000,
    0x0000_0000,
    0x0000_0000,
    0x3f80_0000,
    0xbf35_04f3,
    0x0000_0000,
    0xbf80_0000,
    0x3f35_04f3,
    0x0000_0000,
    0xbf80_0000,
    0xbf80_0000,
    0x0000_0000,
    0xbef7_a627,
    0x3f80_0000,
    0x0000_0000,
    0xbef7_a627,
    0xbf80_0000,
    0x3f80_0000,
    0x3ef7_a627,
    0x3f80_0000,
    0x3f80_0000,
    0x3ef7_a627,
    0xbf35_04f3,
    0x3f80_0000,
    0xbf80_0000,
    0x3f35_04f3,
    0x3f80_0000,
    0xbf80_0000,
];

// The table whose bytes begin at `at`.
pub fn table_words(s: &[u8], at: usize) -> HallTable
    requires { at + 4 * table_count ≤ length s.now }
    ensures { result ≡ words_at s.now at table_count }
{
    array::from_fn(
        |i: usize| -> u32
            requires { at + 4 * i + 4 ≤ length s.now }
            ensures { result ≡ word s.entry.now (at + 4 * i) }
        { words::u32_at(s, at + 4 * i) },
    )
}

// Whether it is the built-in one. The words are compared where they stand, and no test between them ends the loop: so it is vectorised, and a push copies no table.
pub fn is_built_in(s: &[u8], at: usize) -> bool
    requires { at + 4 * table_count ≤ length s.now }
    ensures { result ≡ equal_below (words_at s.now at table_count) built_in_table table_count }
{
    let mut differing = 0;
    for i in 0..TABLE_WORDS {
        differing += formats::bit(words::u32_at(s, at + 4 * i) != BUILT_IN[i]);
    }
    differing == 0
}

// Where it has the twelve channels.
pub fn places(table: &HallTable) -> [Vec3; 12]
    ensures { place_among result ≡ table_place table.now }
{
    array::from_fn(
        |k: usize| -> Vec3
            requires { (k < 12) × (length table.now ≡ table_count) }
            ensures { result ≡ table_place table.entry.now k }
        {
            Vec3 {
                x: words::f32_of(table[3 * k]),
                y: words::f32_of(table[3 * k + 1]),
                z: words::f32_of(table[3 * k + 2]),
            }
        },
    )
}

// What is wrong with it.
pub fn table_fault(table: &HallTable) -> Option<TableFault>
    ensures { result ≡ fault_of (table_place table.now) }
{
    panning::table_fault(&places(table))
}
