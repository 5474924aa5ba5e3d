// A block of the stored table, of any form: its numbers, its checks, and how it is stored. For the crates above.
#![tactic(auto)]

pub mod counts;
pub mod form;
pub mod layout;
pub mod store;
pub mod word;
