// The timed state: updates, elements and slots (document 01, item 5).
#![tactic(auto)]

mod holds;
pub mod infos;
pub mod objects;
pub mod slot;
pub mod state;
pub mod timeslot;
