// The whole number nearest to a fourth root: from a number close to it by exact tests, or by halving the range.
ghost use Rattle.std.specs.Prelude.{◌≡◌, ◌*◌, ◌/◌, ◌^◌, ◌<◌, ◌≤◌};
ghost use Rattle.roots.specs.Whole.{top_of, Spanned, NearWhole};

// What r - 1/2 makes: r - 1/2 is below the root of n where this is below n.
#[tactic(auto, unfolding(crate::specs::Whole::top_of))]
fn top(r: u64) -> u64
    requires { (0 < r) × (r ≤ 2 ^ 26) }
    ensures { result ≡ top_of r }
{
    let odd = u128::from(2 * r - 1);
    let square = odd * odd;
    (square * square >> 64) as u64
}

// The whole number nearest to the root of n (`Spanned n` is a fact of a number and no type: it is made in `fourth_rest` alone, and asked in two), by halving the range: no index
// is counted.
fn by_halves(n: u64) -> u64
    requires { Spanned n }
    ensures { NearWhole n result }
{
    let mut low: u64 = 8388608;
    let mut high: u64 = 16777217;
    while high - low > 1 {
        let mid = (low + high) / 2;
        if top(mid) < n {
            low = mid;
        } else {
            high = mid;
        }
    }
    low
}

// The same from a number close to it: that one, or a neighbour.
pub fn nearest_whole(n: u64, r: u64) -> u64
    requires { (Spanned n) × (r < 2 ^ 25) }
    ensures { NearWhole n result }
{
    if top(r + 1) < n {
        if top(r + 2) < n {
            return by_halves(n);
        }
        return r + 1;
    }
    if top(r) < n {
        return r;
    }
    if top(r - 1) < n {
        return r - 1;
    }
    by_halves(n)
}
