// Rows of gains, in a list and in the bytes of a table: whether they add up, and the gains themselves. Of a row, drop gains at the end are not
// stored, none or one. For the crates above.
#![tactic(auto)]

pub mod adding;
pub mod copying;
