// Whether the values of all records are within their ranges: refusal 6.
ghost use Rattle.std.specs.Prelude.{◌≡◌};
ghost use Rattle.records.specs.ValuesInRange.{record_in_range, in_range, record_fits, all_fit};

use crate::run::all_pass;
use fields::record::{BLOCK, OBJECT, Record};

// Whether each value of a record is within its range.
#[tactic(auto, unfolding(crate::specs::ValuesInRange::record_in_range))]
fn record_in_range(r: Record<'_>) -> bool
    ensures { result ≡ record_in_range r.entry.meta.now r.entry.place }
{
    match r.kind() {
        BLOCK => r.block_in_range(),
        OBJECT => r.object_in_range(),
        _ => true,
    }
}

// Whether what is asked of a record that waits is within its range: a block, a depth factor.
#[tactic(auto, unfolding(crate::specs::ValuesInRange::record_fits))]
fn record_fits(r: Record<'_>) -> bool
    ensures { result ≡ record_fits r.entry.meta.now r.entry.place }
{
    match r.kind() {
        BLOCK => r.block_in_range(),
        OBJECT => r.depth_fits(),
        _ => true,
    }
}

// The same of each record.
#[tactic(auto, unfolding(crate::specs::ValuesInRange::all_fit))]
pub fn all_fit(meta: &[u8]) -> bool
    ensures { result ≡ all_fit meta.now }
{
    all_pass(meta, 0, meta.len() / 40, record_fits)
}

// Whether each value is within its range; otherwise refusal 6.
pub fn in_range(meta: &[u8]) -> bool
    ensures { result ≡ in_range meta.now }
{
    all_pass(meta, 0, meta.len() / 40, record_in_range)
}
