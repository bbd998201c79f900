// Runs of zero bytes.
ghost use Rattle.std.specs.Prelude.{◌≡◌, ◌+◌, ◌≤◌, length};
ghost use Rattle.fields.specs.RecordBytes.{zero_bytes};

// Whether the n bytes from `at` on are zero, with no branch.
#[tactic(auto, using(crate::proofs::All::all_none, crate::proofs::Zeros::zeros_next))]
pub fn zeros(meta: &[u8], at: usize, n: usize) -> bool
    requires { at + n ≤ length meta.now }
    ensures { result ≡ zero_bytes meta.now at n }
{
    let mut clear = true;
    for k in 0..n {
        clear &= meta[at + k] == 0;
    }
    clear
}
