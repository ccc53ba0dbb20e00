// What is handed in to be fitted.
use crate::Shape;
use knots::Metric;

// A ladder to be fitted: its points, the degree of its curve, and how it is measured.
#[derive(Clone, Copy)]
pub struct Ladder<'a> {
    pub points: &'a [f64],
    pub degree: usize,
    pub metric: Metric,
}

// A grid to be fitted: its points, row after row, its shape, and how it is measured.
#[derive(Clone, Copy)]
pub struct Grid<'a> {
    pub points: &'a [f64],
    pub shape: Shape,
    pub metric: Metric,
}
