// A text that grows at its end, with room for the longest answer, since the program has no heap. Numbers are put by functions and not by `write!`, which promises its
// text only where it succeeds, and never that it does.
ghost use Rattle.std.specs.Prelude.{◌≡◌, [], ◌∷◌, ◌++◌, ◌+◌, ◌*◌, ◌<◌, ◌≤◌, length};
ghost use Rattle.listing.specs.Line.{hex8, line_of};
ghost use Rattle.listing.specs.Text.{decimal};

use arrayvec::ArrayVec;
use std::marker::Model;

// `ready N` with up to 20 digits, and 256 lines.
pub const CAPACITY: usize = 27675;

#[derive(Drop)]
pub struct Text {
    bytes: ArrayVec<u8, CAPACITY>,
}

impl Model for Text {
    ghost use Rattle.std.specs.Prelude.{ℕ, List};

    ghost Value = { List ℕ };

    ghost view = { λ t. t.bytes.items };
}

impl Text {
    // A text is made once and lent to what tells answers: what it has room for is filled and copied where it goes by value.
    pub fn new() -> Text
        ensures { result ≡ [] }
    {
        Text {
            bytes: ArrayVec::new(),
        }
    }

    pub(crate) fn clear(&mut self)
        ensures { self.new ≡ [] }
    {
        self.bytes.clear();
    }

    pub fn as_bytes(&self) -> &[u8]
        ensures { result.now ≡ self.now }
    {
        self.bytes.as_slice()
    }

    pub(crate) fn put(&mut self, s: &[u8])
        requires { length self.old + length s.now ≤ CAPACITY }
        ensures { self.new ≡ self.old ++ s.now }
    {
        self.bytes.try_extend_from_slice(s).unwrap();
    }

    #[tactic(auto, using(crate::proofs::Spelling::spelt_decimal))]
    pub(crate) fn put_decimal(&mut self, n: u64)
        requires { length self.old + 20 ≤ CAPACITY }
        ensures text { self.new ≡ self.old ++ decimal n }
        ensures short { length self.new ≤ length self.old + 20 }
    {
        let mut digits = [0u8; 20];
        let k = io::decimal(n, &mut digits);
        self.put(&digits[..k]);
    }

    // The eight digits of a word, and the byte behind them.
    fn put_word(&mut self, word: u32, end: u8)
        requires { length self.old + 9 ≤ CAPACITY }
        ensures text { self.new ≡ self.old ++ (hex8 word ++ (end ∷ [])) }
        ensures long { length self.new ≡ length self.old + 9 }
    {
        let mut digits = [0u8; 16];
        io::hex(u64::from(word), 8, &mut digits);
        self.put(&digits[..8]);
        self.put(&[end]);
    }

    // The twelve words of sample i.
    #[tactic(auto, using(crate::proofs::Spelling::no_cell, crate::proofs::Spelling::cell_more))]
    pub(crate) fn put_line(&mut self, out: &[u8; 12288], i: usize)
        requires { (length self.old + 108 ≤ CAPACITY) × (i < 256) }
        ensures text { self.new ≡ self.old ++ line_of out.now i }
        ensures long { length self.new ≡ length self.old + 108 }
    {
        for c in 0..11 {
            self.put_word(words::u32_at(out, 1024 * c + 4 * i), b' ');
        }
        self.put_word(words::u32_at(out, 11264 + 4 * i), b'\n');
    }
}
