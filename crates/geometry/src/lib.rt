// Doubles, their square root and order, and points: document 01, part 1 (src/point.rs, src/tolerance.rs, and the methods of f64 that it names).
#![tactic(auto)]

pub mod doubles;
pub mod order;
pub mod root;

ghost use Rattle.std.specs.Prelude.{◌≡◌, ◌+◌, ◌*◌, ◌≤◌, length};
ghost use Rattle.geometry.specs.Points.{distance, squared_distance, plus_scaled, less_scaled, scaled, point_at, put_point};

// Document 01's bound of "confused points": the double nearest 10^-7 (`Tolerance::DEFAULT.confusion`).
pub const CONFUSION: f64 = 1e-7;

// A point: three doubles handled as one value.
#[derive(Clone, Copy)]
pub struct Point {
    pub x: f64,
    pub y: f64,
    pub z: f64,
}

impl Point {
    // The square of the distance to another point, with a lightness factor on the difference in x (document 02, request Five).
    pub fn squared_distance(self, other: Point, factor: f64) -> f64
        ensures { result ≡ squared_distance factor self other }
    {
        let dx = (other.x - self.x) * factor;
        let dy = other.y - self.y;
        let dz = other.z - self.z;
        dx * dx + dy * dy + dz * dz
    }

    // The distance to another point, with a lightness factor.
    pub fn distance(self, other: Point, factor: f64) -> f64
        ensures { result ≡ distance factor self other }
    {
        root::sqrt(self.squared_distance(other, factor))
    }

    // self + a q.
    pub fn plus_scaled(self, a: f64, q: Point) -> Point
        ensures { result ≡ plus_scaled self a q }
    {
        Point {
            x: self.x + a * q.x,
            y: self.y + a * q.y,
            z: self.z + a * q.z,
        }
    }

    // self - a q.
    pub fn less_scaled(self, a: f64, q: Point) -> Point
        ensures { result ≡ less_scaled self a q }
    {
        Point {
            x: self.x - a * q.x,
            y: self.y - a * q.y,
            z: self.z - a * q.z,
        }
    }

    // self a.
    pub fn scaled(self, a: f64) -> Point
        ensures { result ≡ scaled self a }
    {
        Point {
            x: self.x * a,
            y: self.y * a,
            z: self.z * a,
        }
    }
}

// Point k of a slice, three places each.
pub fn point_at(points: &[f64], k: usize) -> Point
    requires { 3 * k + 3 ≤ length points.now }
    ensures { result ≡ point_at points.now k }
{
    let at = 3 * k;
    Point {
        x: points[at],
        y: points[at + 1],
        z: points[at + 2],
    }
}

// Puts q for point k; the other places stay.
pub fn put_point(points: &mut [f64], k: usize, q: Point)
    requires { 3 * k + 3 ≤ length points.old }
    ensures { points.new ≡ put_point k q points.old }
{
    let at = 3 * k;
    points[at] = q.x;
    points[at + 1] = q.y;
    points[at + 2] = q.z;
}
