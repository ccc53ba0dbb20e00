// Document 01's calls for C: numbers and slices. The result is 0 or the refusal's number; a fit's mark and counts go into two more lent slices.
#![tactic(auto)]

pub mod grid_calls;
pub mod ladder_calls;
pub mod reading;
