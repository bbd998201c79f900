// A record and its bytes.
ghost use Rattle.std.specs.Prelude.{◌≡◌, ◌+◌, ◌*◌, ◌<◌, ◌≤◌, length};
ghost use Rattle.words.specs.Words.{word};
ghost use Rattle.fields.specs.RecordBytes.{byte, kind, zero_bytes};

use crate::bytes::zeros;

// The kinds, byte 0 of a record: no enum, since any byte may stand there, and each test is of one kind, with no branch.
pub const UPDATE: u8 = 1;

pub const ELEMENT: u8 = 2;

pub const BLOCK: u8 = 3;

pub const OBJECT: u8 = 4;

// An update that may lie far ahead (R-12).
pub const FAR_UPDATE: u8 = 9;

// Record `place` of a list of records: it is there.
#[derive(Clone, Copy)]
pub struct Record<'a> {
    pub meta: &'a [u8],
    pub place: usize,
    ghost there: { 40 * place + 40 ≤ length meta.now },
}

impl Record<'_> {
    // The kind, byte 0.
    pub fn kind(self) -> u8
        ensures { result ≡ kind self.entry.meta.now self.entry.place }
    {
        self.meta[40 * self.place]
    }

    // Byte k.
    pub fn byte(self, k: usize) -> u8
        requires { k < 40 }
        ensures { result ≡ byte self.entry.meta.now self.entry.place k }
    {
        self.meta[40 * self.place + k]
    }

    // The word at byte k.
    pub fn word(self, k: usize) -> u32
        requires { k + 4 ≤ 40 }
        ensures { result ≡ word self.entry.meta.now (40 * self.entry.place + k) }
    {
        words::u32_at(self.meta, 40 * self.place + k)
    }

    // Whether the n bytes from byte k on are zero.
    pub fn is_zero(self, k: usize, n: usize) -> bool
        requires { k + n ≤ 40 }
        ensures { result ≡ zero_bytes self.entry.meta.now (40 * self.entry.place + k) n }
    {
        zeros(self.meta, 40 * self.place + k, n)
    }
}
