// Updates of the timed state (document 01, item 5): `apply_update`, `apply_element`.
#![tactic(auto)]

pub mod element;
pub mod update;
