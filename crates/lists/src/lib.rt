// Lists by index: definitions in specs/, laws in proofs/. Loops over slices that the crates above share.
#![tactic(auto)]

pub mod each;
pub mod search;
