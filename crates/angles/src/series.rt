// The low-pass's angle, TAU * 120 / rate, and five terms of the series of its cosine and sine, in whole numbers: the angle in steps of 2^-32, a term in steps of 2^-60, cut.
// That this many terms suffice at every rate is the test of the crate rates.
ghost use Rattle.std.specs.Prelude.{◌≡◌, false, ◌+◌, ◌*◌, ◌/◌, ◌^◌, ◌<◌, ◌≤◌};
ghost use Rattle.std.specs.Float.{binary32};
ghost use Rattle.std.specs.Float.Ieee.{round};
ghost use Rattle.std.specs.Float.Ieee.Nearest as ieee;
ghost use Rattle.rates.specs.Rates.{Listed};
ghost use Rattle.rates.specs.Series.{step_of, angle_of, next_term, five};

use std::cmp::Ordering;

// The last digit of the angle's 24, in steps.
fn step_of(rate: u64) -> u64
    ensures { result ≡ step_of rate }
{
    match rate {
        0..12064 => 32,
        12064..24128 => 16,
        24128..48255 => 8,
        48255..96510 => 4,
        _ => 2,
    }
}

// The whole number nearest to n / d, of two such the even one.
fn closest(n: u64, d: u64) -> u64
    requires { (0 < d) × (d < 2 ^ 20) × (n < 2 ^ 42) }
    ensures { result ≡ ieee.closest n d }
{
    let q = n / d;
    let rest = n % d * 2;
    match rest.cmp(&d) {
        Ordering::Less => q,
        Ordering::Equal => q + q % 2,
        Ordering::Greater => q + 1,
    }
}

// TAU * 120 / rate.
#[tactic(auto, unfolding(rates::specs::Series::angle_of))]
pub fn angle_of(rate: u64) -> u64
    requires { Listed rate }
    ensures { result ≡ angle_of rate }
{
    let s = step_of(rate);
    closest(3238329057280, rate * s) * s
}

// The upper half of a product.
fn high_product(a: u64, b: u64) -> u64
    ensures { result ≡ a * b / 2 ^ 64 }
{
    (u128::from(a) * u128::from(b) >> 64) as u64
}

// The term after t: times the angle's square y, by n.
fn next_term(y: u64, t: u64, n: u64) -> u64
    requires { 0 < n }
    ensures { (result ≡ next_term y t n) × (result ≤ t) }
{
    high_product(y, t) / n
}

// Five terms from t on, the signs taking turns. The four divisors are told one by one, as the definition has them: in an array each would be named by a place.
#[tactic(auto, using(crate::proofs::Terms::five_is))]
pub fn five_terms(y: u64, t: u64, n1: u64, n2: u64, n3: u64, n4: u64) -> u64
    requires { (0 < n1) × (0 < n2) × (0 < n3) × (0 < n4) }
    ensures { result ≡ five y t n1 n2 n3 n4 }
{
    let t1 = next_term(y, t, n1);
    let t2 = next_term(y, t1, n2);
    let t3 = next_term(y, t2, n3);
    let t4 = next_term(y, t3, n4);
    t - t1 + t2 - t3 + t4
}

// The f32 nearest to n steps of 2^-60, if no number half way between two f32 lies in the 2^13 steps around: the middle of these is rounded, as the sum of two exact parts.
pub fn nearest(n: u64) -> f32
    requires { n < 2 ^ 60 }
    ensures { result ≡ round binary32 false (2 * (n / 2 ^ 13) + 1) (2 ^ 48) }
{
    let m = 2 * (n / 8192) + 1;
    (m / 16777216) as f32 * 5.9604645e-8 + (m % 16777216) as f32 * 3.5527137e-15
}
