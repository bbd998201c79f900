// A frame that no refusal turned away, in runs of at most 64 samples.
#![tactic(auto)]

pub mod push;
