// Stored answers for the replay programs: text of 32-bit words, each 8 hexadecimal digits and one byte after it, read in cases, and the
// lines that those programs write.
#![tactic(auto)]

pub mod cases;
pub mod lines;
pub mod ops;
pub mod words;
