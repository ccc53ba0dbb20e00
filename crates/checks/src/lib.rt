// What the calls are asked for, the lengths that they are lent, and document 01's checks.
#![tactic(auto)]

pub mod given;
pub mod grid;
pub mod ladder;
pub mod slices;

// Document 01's calls on a ladder: through the points, with a chosen pole count, within a tolerance, and the spread search alone.
#[derive(Clone, Copy)]
pub enum Call {
    Interpolate,
    Approximate(usize),
    ApproximateWithin(f64),
    SearchSpread(f64),
}

// What one direction of a grid is fitted to: a chosen pole count, or a tolerance with the fewer poles of refinement and the spread search.
#[derive(Clone, Copy)]
pub enum Aim {
    Count(usize),
    Within(f64),
}

// Document 01's calls on a grid: with chosen pole counts along u and v, and within a tolerance.
#[derive(Clone, Copy)]
pub enum SurfaceCall {
    Approximate(usize, usize),
    ApproximateWithin(f64),
}

// The lengths of a ladder call's lent slices.
#[derive(Clone, Copy, Default)]
pub struct Room {
    pub poles: usize,
    pub flat: usize,
    pub knots: usize,
    pub mults: usize,
    pub work: usize,
    pub index: usize,
}

// Rows and columns of points, and the degrees along u and v.
#[derive(Clone, Copy)]
pub struct Shape {
    pub rows: usize,
    pub cols: usize,
    pub u: usize,
    pub v: usize,
}

// The lengths of a grid call's lent slices.
#[derive(Clone, Copy, Default)]
pub struct GridRoom {
    pub poles: usize,
    pub uflat: usize,
    pub uknots: usize,
    pub umults: usize,
    pub vflat: usize,
    pub vknots: usize,
    pub vmults: usize,
    pub work: usize,
    pub index: usize,
}
