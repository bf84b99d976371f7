// What a dump tells, in letters and in words; output by way of a lent buffer; and why a write failed, in the system's words.
#![tactic(auto)]

pub mod letters;
pub mod line;
mod names;
pub mod out;
pub mod reason;
pub mod words;
