// Least squares and interpolation over a basis table, for ladders, rows and columns: document 01, part 3 (`least_squares`, `interpolation`).
#![tactic(auto)]

pub mod squares;
pub mod through;
