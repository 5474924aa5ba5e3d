// f32 taken apart by its bits. Every function is total; the laws of rounding stand in proofs/, and 32-bit words that wrap in specs/.
#![tactic(auto)]

pub mod bits;
pub mod round;
pub mod scan;
