// Band matrices, stored row by row in lent slices (document 01, part 3; curves/fitting.rs): entries, and one row of a triangular system, for Cholesky's factor and LU
// alike. Rows and columns go by their numbers: the place of A[i][j] follows from i and j.
#![tactic(auto)]

ghost use Rattle.std.specs.Prelude.{◌≡◌, ◌+◌, ◌*◌, ◌<◌, length};
ghost use Rattle.geometry.specs.Points.{put_point};
ghost use Rattle.bands.specs.Bands.{entry, put_entry};
ghost use Rattle.bands.specs.Shapes.{InBand, Columns};
ghost use Rattle.bands.specs.SolvedRow.{solved_row};

use geometry::Point;

// A band to be read: rows of `width` places, of which place `half` is the diagonal's.
#[derive(Clone, Copy)]
pub struct Band<'a> {
    pub places: &'a [f64],
    pub width: usize,
    pub half: usize,
}

impl<'a> Band<'a> {
    // The lower half of a symmetric matrix of half-width h.
    pub fn lower(places: &'a [f64], h: usize) -> Self
        requires { h < usize.MAX }
        ensures { result ≡ record { places = places.entry; width = h + 1; half = h } }
    {
        Band {
            places,
            width: h + 1,
            half: h,
        }
    }

    // A matrix of half-width h.
    pub fn both(places: &'a [f64], h: usize) -> Self
        requires { 2 * h < usize.MAX }
        ensures { result ≡ record { places = places.entry; width = 2 * h + 1; half = h } }
    {
        Band {
            places,
            width: 2 * h + 1,
            half: h,
        }
    }

    // A[i][j].
    pub fn entry(&self, i: usize, j: usize) -> f64
        requires { InBand self.now.width self.now.half i j self.now.places.now }
        ensures { result ≡ entry self.now.width self.now.half self.now.places.now i j }
    {
        self.places[i * self.width + (j + self.half - i)]
    }

    // Row i of a triangular system, solved from the points of its columns start..end.
    #[tactic(auto, using(crate::proofs::Rows::loops))]
    fn solved_row(&self, poles: &[f64], i: usize, start: usize, end: usize) -> Point
        requires { Columns self.now.width self.now.half i start end (length self.now.places.now) (length poles.now) }
        ensures { result ≡ solved_row self.now.width self.now.half self.now.places.now poles.now i start end }
    {
        let mut x = geometry::point_at(poles, i);
        for k in start..end {
            x = x.less_scaled(self.entry(i, k), geometry::point_at(poles, k));
        }
        x.scaled(1.0 / self.entry(i, i))
    }

    // The same, put in its place.
    pub fn solve_row(&self, poles: &mut [f64], i: usize, start: usize, end: usize)
        requires { Columns self.now.width self.now.half i start end (length self.now.places.now) (length poles.old) }
        ensures { poles.new ≡ put_point i (solved_row self.now.width self.now.half self.now.places.now poles.old i start end) poles.old }
    {
        let x = self.solved_row(poles, i, start, end);
        geometry::put_point(poles, i, x);
    }
}

// Puts x for A[i][j] of a band with rows of w places, of which place h is the diagonal's; the other places stay.
pub fn put_band_entry(band: &mut [f64], w: usize, h: usize, i: usize, j: usize, x: f64)
    requires { InBand w h i j band.old }
    ensures { band.new ≡ put_entry w h i j x band.old }
{
    band[i * w + (j + h - i)] = x;
}
