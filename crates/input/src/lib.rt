// Lists of calls from an input: bytes make lines, lines make calls; and what is told where that fails.
#![tactic(auto)]

pub mod line;
pub mod list;
pub mod tell;
