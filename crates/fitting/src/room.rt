// The places that a direction is fitted in, as parts of the lent work and index.
use crate::flat::FlatKnots;
use tables::basis_table::TablePlaces;

// The places of a basis table, and of the poles of the fit on its knots, line after line, in the first of them.
#[derive(Drop)]
pub struct Fitted<'a> {
    pub table: TablePlaces<'a>,
    pub poles: &'a mut [f64],
}

// All that a fit is made in: its flat knots, its table and poles, the matrix, the poles of a curve of the surface, the squares of the deviations, and new knots.
#[derive(Drop)]
pub struct Regions<'a> {
    pub knots: FlatKnots<'a>,
    pub fit: Fitted<'a>,
    pub band: &'a mut [f64],
    pub curve: &'a mut [f64],
    pub squares: &'a mut [f64],
    pub fresh: &'a mut [f64],
}

// How large they are: for a degree, so many parameters and lines, and so many places of a curve's poles. That they are small is asked by each function and no ghost field:
// definitions write sizes of any numbers.
#[derive(Clone, Copy)]
pub struct Sizes {
    pub degree: usize,
    pub count: usize,
    pub lines: usize,
    pub curve: usize,
}

impl Sizes {
    ghost use Rattle.std.specs.Prelude.{◌≡◌};
    ghost use Rattle.fitting.specs.Room.{SmallSizes, places_of};

    // How many places of the work.
    #[tactic(auto, unfolding(crate::specs::Room::places_of))]
    pub fn places(self) -> usize
        requires { SmallSizes self }
        ensures { result ≡ places_of self }
    {
        let n = self.count;
        let p = self.degree;
        (n + p + 1) + n * (p + 1) + 2 * (p * n) + 3 * (self.lines * n) + self.curve + n + n
    }
}

impl<'a> Regions<'a> {
    ghost use Rattle.std.specs.Prelude.{◌≡◌, ◌≤◌, length};
    ghost use Rattle.fitting.specs.Room.{SmallSizes, places_of, HasSizes};

    // Regions of these sizes, one after the other from the first place of the work and of the index on.
    #[tactic(auto, unfolding(crate::specs::Room::places_of))]
    pub fn new(sizes: Sizes, work: &'a mut [f64], index: &'a mut [usize]) -> Regions<'a>
        requires small { SmallSizes sizes }
        requires room { (places_of sizes ≤ length work.old) × (sizes.count ≤ length index.old) }
        ensures { HasSizes sizes result }
    {
        let n = sizes.count;
        let p = sizes.degree;
        let (flat, work) = work.split_at_mut(n + p + 1);
        let (values, work) = work.split_at_mut(n * (p + 1));
        let (band, work) = work.split_at_mut(2 * (p * n));
        let (poles, work) = work.split_at_mut(3 * (sizes.lines * n));
        let (curve, work) = work.split_at_mut(sizes.curve);
        let (squares, work) = work.split_at_mut(n);
        let (fresh, _) = work.split_at_mut(n);
        let (firsts, _) = index.split_at_mut(n);
        let table = TablePlaces {
            degree: p,
            poles: 0,
            firsts,
            values,
        };
        Regions {
            knots: FlatKnots {
                places: flat,
                count: 0,
            },
            fit: Fitted { table, poles },
            band,
            curve,
            squares,
            fresh,
        }
    }
}
