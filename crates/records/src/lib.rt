// The metadata of a call: which lists of bytes are records as laid out, where each record stands, whether all values are within their ranges, and in
// which order of time the updates are taken.
#![tactic(auto)]

mod run; // run.rt: runs of records
pub mod sent; // sent.rt: where each update stands
pub mod layout; // layout.rt: where updates, elements, blocks and objects stand; refusal 5
pub mod ranges; // ranges.rt: whether values are within their ranges; refusal 6
pub mod metadata; // metadata.rt: what passes both, and its updates
pub mod order; // order.rt: updates in order of time
