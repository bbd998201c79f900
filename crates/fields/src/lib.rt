// One record of a call's metadata, 40 bytes: whether it is one of its kind as laid out, what its fields mean, and whether its values are within their
// ranges. A record r stands at byte 40 r of the list.
#![tactic(auto)]

pub mod bytes; // bytes.rt: runs of zero bytes
pub mod record; // record.rt: a record and its bytes
pub mod update; // update.rt: kind 1, update
pub mod block; // block.rt: kind 2, element, and kind 3, block
pub mod object; // object.rt: kind 4, object in a block
