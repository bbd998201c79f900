// What stands in the words of a block: a value, as its format says, and a table of them. Bytes and a place go side by side, with the room for the words that are read there:
// how many differs from value to value, and a slice cut at the place would be tested once more for each.
ghost use Rattle.std.specs.Prelude.{◌≡◌, ℕ, ◌+◌, ◌*◌, ◌<◌, ◌≤◌, length};
ghost use Rattle.words.specs.Words.{with_words};
ghost use Rattle.formats.specs.NumberWords.{in_words};
ghost use Rattle.formats.specs.Format.{Format, array};
ghost use Rattle.formats.specs.Lawful.{Lawful};

use std::array;

pub(crate) trait Entry {
    // How many words it has.
    const WORDS: usize;

    ghost WORDS: { ℕ };

    ghost format: { Format Self };

    // What the words from word `at` on say.
    fn read(s: &[u8], at: usize) -> Self
        requires { 4 * (at + WORDS) ≤ length s.now }
        ensures { result ≡ format.get (in_words s.now) at };

    // Its words, from byte `at` on.
    fn put(&self, s: &mut [u8], at: usize)
        requires { at + 4 * WORDS ≤ length s.old }
        ensures { s.new ≡ with_words s.old at (format.put self.now) };

    ghost width: { WORDS ≡ format.width };

    ghost lawful: { Lawful format };
}

// N entries, one after the other.
pub(crate) fn table<T: Entry, const N: usize>(s: &[u8], at: usize) -> [T; N]
    requires { 4 * (at + N * T.WORDS) ≤ length s.now }
    ensures { result ≡ (array N T.format).get (in_words s.now) at }
{
    array::from_fn(
        |i: usize| -> T
            requires { 4 * (at + T.WORDS * i + T.WORDS) ≤ length s.now }
            ensures { result ≡ T.format.get (in_words s.entry.now) (at + T.WORDS * i) }
        { T::read(s, at + T::WORDS * i) },
    )
}

pub(crate) fn put_table<T: Entry, const N: usize>(s: &mut [u8], at: usize, xs: &[T; N])
    requires { at + 4 * (N * T.WORDS) ≤ length s.old }
    ensures { s.new ≡ with_words s.old at ((array N T.format).put xs.now) }
{
    for (i, x) in xs.iter().enumerate() {
        x.put(s, at + 4 * T::WORDS * i);
    }
}
