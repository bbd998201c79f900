// Leaf functions under C names, for the comparisons of rust/compare: a file `probe_NAME.rt` for
// each crate NAME (a module cannot have a crate's name). C calls each by its signature here: what is not there is answered by
// zeros (written out, since the leaves' types need no default), places and kinds are numbers, and what travels together stands in a row.
#![tactic(auto)]

mod probe_angles;
mod probe_beds;
mod probe_ieee;
mod probe_limiter;
mod probe_lowpass;
mod probe_mixing;
mod probe_panning;
mod probe_records;
mod probe_roots;
mod probe_timed;
mod probe_vectors;
mod probe_words;
