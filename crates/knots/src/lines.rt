// Lines of points in a list of points: a ladder, a grid's rows or columns.
ghost use Rattle.knots.specs.Lines.{HasLine, HasLines};

use geometry::{Point, point_at};

// A line of `count` points: point k is point `start + stride * k` of the list.
#[derive(Clone, Copy)]
pub struct Line<'a> {
    pub points: &'a [f64],
    pub start: usize,
    pub stride: usize,
    pub count: usize,
    pub ghost inside: { HasLine points.now start stride count },
}

impl<'a> Line<'a> {
    ghost use Rattle.std.specs.Prelude.{◌≡◌, ◌+◌, ◌<◌};
    ghost use Rattle.geometry.specs.Points.{distance};
    ghost use Rattle.knots.specs.OnLines.{on_line};

    // Point k.
    pub fn point(self, k: usize) -> Point
        requires { k < self.count }
        ensures { result ≡ on_line self.entry k }
    {
        point_at(self.points, self.start + self.stride * k)
    }

    // The distance of the point behind point k to point k.
    pub fn chord(self, k: usize, factor: f64) -> f64
        requires { k + 1 < self.count }
        ensures { result ≡ distance factor (on_line self.entry (k + 1)) (on_line self.entry k) }
    {
        self.point(k + 1).distance(self.point(k), factor)
    }
}

// Lines of `count` points each: line r starts at point `r * pitch`. A grid's rows have pitch cols and stride 1, its columns pitch 1 and stride cols.
#[derive(Clone, Copy)]
pub struct Lines<'a> {
    pub points: &'a [f64],
    pub lines: usize,
    pub pitch: usize,
    pub count: usize,
    pub stride: usize,
    pub ghost inside: { HasLines points.now lines pitch count stride },
}

impl<'a> Lines<'a> {
    ghost use Rattle.std.specs.Prelude.{◌≡◌, ◌<◌};
    ghost use Rattle.knots.specs.OnLines.{on_line, on_lines};

    // Line r.
    pub fn line(self, r: usize) -> Line<'a>
        requires { r < self.lines }
        ensures there { on_line result ≡ on_lines self.entry r }
        ensures as_many { result.count ≡ self.entry.count }
    {
        Line {
            points: self.points,
            start: r * self.pitch,
            stride: self.stride,
            count: self.count,
        }
    }
}
