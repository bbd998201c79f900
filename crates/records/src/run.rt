// Runs of records.
ghost use Rattle.std.specs.Prelude.{◌≡◌, ℕ, Bool, ◌+◌, ◌*◌, ◌≤◌, length};
ghost use Rattle.fields.specs.RecordBytes.{all};

use fields::record::Record;

// Whether the n records from r on pass a test. By `for`: the closure of a chain would say in clauses of its own that each record is there and what the test gives.
pub fn all_pass<'a, F: Fn(Record<'a>) -> bool>(meta: &'a [u8], r: usize, n: usize, test: F) -> bool
    requires room { 40 * (r + n) ≤ length meta.now }
    requires callable { F.IsAlwaysCallable test }
    ensures { (p : ℕ → Bool) → ((x : _) (b : Bool) → x.meta.now ≡ meta.now → F.post test x b → b ≡ p x.place) → result ≡ all (λ k. p (r + k)) n }
{
    for k in 0..n {
        if !test(Record { meta, place: r + k }) {
            return false;
        }
    }
    true
}
