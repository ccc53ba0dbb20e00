// The flat knots of a fit: each of these functions lays others in their place. The places are lent as `[0..l]`: of a slice field lent as `[..l]` the checker keeps
// the length alone.
ghost use Rattle.std.specs.Prelude.{◌≡◌, ◌+◌, ◌*◌, ◌≤◌, length};
ghost use Rattle.knots.specs.Knots.{bezier_knots, averaged_knots, approximation_knots};
ghost use Rattle.knots.specs.Calls.{KnotRoom};
ghost use Rattle.fitting.specs.Flat.{Laid, HasRound, Refined};

use crate::Job;
use tables::basis_table::TablePlaces;

// Flat knots: the first `count` of the places, which are lent (a Vec would take them from the heap).
#[derive(Drop)]
pub struct FlatKnots<'a> {
    pub places: &'a mut [f64],
    pub count: usize,
}

impl FlatKnots<'_> {
    // Those of a single Bézier piece.
    pub fn lay_bezier(&mut self, degree: usize)
        requires { (degree ≤ 25) × (2 * degree + 2 ≤ length self.old.places.now) }
        ensures { Laid self.old self.new (2 * degree + 2) (bezier_knots degree) }
    {
        let l = 2 * degree + 2;
        knots::clamped::bezier_knots(degree, &mut self.places[0..l]);
        self.count = l;
    }

    // Those for as many poles as parameters, averaged.
    pub fn lay_averaged(&mut self, params: &[f64], degree: usize)
        requires room { KnotRoom (length params.now) (length params.now) degree (length params.now + degree + 1) }
        requires long { length params.now + degree + 1 ≤ length self.old.places.now }
        ensures { Laid self.old self.new (length params.now + degree + 1) (averaged_knots params.now degree) }
    {
        let l = params.len() + degree + 1;
        knots::clamped::averaged_knots(params, degree, &mut self.places[0..l]);
        self.count = l;
    }

    // Those for so many poles, spread over the parameters.
    pub fn lay_spread(&mut self, params: &[f64], poles: usize, degree: usize)
        requires room { KnotRoom (length params.now) poles degree (poles + degree + 1) }
        requires long { poles + degree + 1 ≤ length self.old.places.now }
        ensures { Laid self.old self.new (poles + degree + 1) (approximation_knots params.now poles degree) }
    {
        let l = poles + degree + 1;
        knots::clamped::approximation_knots(params, poles, degree, &mut self.places[0..l]);
        self.count = l;
    }

    // Those of the next round of a refinement, by the squares of the parameters' deviations, of which the largest deviation is `most`; none where no span is
    // split. It writes over the table's first poles and the squares.
    pub fn refine(
        &mut self,
        job: Job,
        table: &mut TablePlaces,
        squares: &mut [f64],
        fresh: &mut [f64],
        tolerance: f64,
        most: f64,
    ) -> Option<()>
        requires { HasRound job self.old table.old (length squares.old) (length fresh.old) }
        ensures { Refined job.entry self.old self.new table.old table.new squares.old squares.new fresh.old fresh.new tolerance most result }
    {
        let l = self.count;
        self.count = refinement::refine(
            job.params,
            squares,
            table.firsts,
            self.places,
            l,
            fresh,
            job.degree,
            tolerance,
            most,
        )?;
        Some(())
    }
}
