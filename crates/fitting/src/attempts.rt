// Single fits of a direction: least squares on given or on spread knots, and interpolation. A job and its regions go beside each other: of a struct of both each function
// would promise that the job stays, where it asks for the job's regions now.
ghost use Rattle.std.specs.Prelude.{◌≡◌, ◌≤◌, ◌<◌, length};
ghost use Rattle.fitting.specs.Jobs.{HasRegions, HasKnots, Attempts, AttemptsSpread, PassesThrough};

use crate::flat::FlatKnots;
use crate::room::{Fitted, Regions};
use crate::{Job, Kind};
use knots::lines::Lines;
use solving::squares::least_squares;
use solving::through::interpolation;
use tables::Measured;
use tables::deviations::{grid_deviations, ladder_deviations, row_deviations};

impl Fitted<'_> {
    ghost use Rattle.std.specs.Prelude.{◌≡◌, ◌+◌, ◌*◌, ◌≤◌, length, is_some};
    ghost use Rattle.tables.specs.Layout.{FillsTable, Filled};
    ghost use Rattle.fitting.specs.Flat.{flat_of};
    ghost use Rattle.fitting.specs.Solves.{HasLines, Solved, Passed};

    // The table of these knots.
    pub fn fill(&mut self, knots: &FlatKnots, params: &[f64])
        requires { FillsTable self.old.table (flat_of knots.now) params.now × (knots.now.count ≤ length knots.now.places.now) }
        ensures filled { Filled self.old.table self.new.table (flat_of knots.now) params.now }
        ensures poles_after { self.new.poles.now ≡ self.old.poles.now }
    {
        self.table.fill(&knots.places[..knots.count], params);
    }

    // Its least-squares poles, if there are any.
    fn solve(&mut self, lines: Lines, band: &mut [f64]) -> Option<()>
        requires { HasLines self.old lines (length band.old) }
        ensures { Solved self.old self.new lines.entry (is_some result) }
    {
        let m = self.table.poles;
        let size = m * (self.table.degree + 1);
        let places = 3 * (lines.lines * m);
        least_squares(
            &self.table.table(),
            lines,
            &mut band[..size],
            &mut self.poles[..places],
        )
    }

    // Its poles through the points.
    fn pass(&mut self, lines: Lines, band: &mut [f64])
        requires has_lines { HasLines self.old lines (length band.old) }
        requires as_many { self.old.table.poles ≡ length self.old.table.firsts.now }
        ensures { Passed self.old self.new lines.entry }
    {
        let n = self.table.poles;
        let size = n * (2 * (self.table.degree - 1) + 1);
        let places = 3 * (lines.lines * n);
        interpolation(
            &self.table.table(),
            lines,
            &mut band[..size],
            &mut self.poles[..places],
        );
    }
}

impl Job<'_, '_, '_, '_> {
    ghost use Rattle.std.specs.Prelude.{length};
    ghost use Rattle.tables.specs.Measures.{LeavesSquares};
    ghost use Rattle.fitting.specs.Solves.{HasFit};
    ghost use Rattle.fitting.specs.Jobs.{direction_of, distances_on};

    // The points against a fit, by what the lines are: the square of each parameter's deviation in its place.
    #[tactic(auto, unfolding(crate::specs::Solves::curve_places, crate::specs::Jobs::direction_of, crate::specs::Jobs::distances_by, crate::specs::Jobs::deviations_by))]
    fn measure(self, fit: &Fitted, curve: &mut [f64], squares: &mut [f64]) -> Measured
        requires { HasFit self fit.now (length curve.old) (length squares.old) }
        ensures { LeavesSquares (direction_of self.entry).deviations (distances_on self.entry fit.now) squares.new result }
    {
        let table = &fit.table.table();
        let lines = self.lines.lines;
        let poles = &fit.poles[..3 * (lines * table.poles)];
        let points = self.lines.points;
        let factor = self.factor;
        match self.kind {
            Kind::Ladder => ladder_deviations(points, factor, table, poles, squares),
            Kind::Rows => row_deviations(points, factor, table, lines, poles, squares),
            Kind::Columns(s) => {
                grid_deviations(s.points, factor, table, &s.across, poles, curve, squares)
            }
        }
    }
}

// Least squares on the flat knots that stand there: the fit in its place, or none.
pub fn attempt(job: Job, at: &mut Regions) -> Option<Measured>
    requires { HasRegions job at.old × HasKnots job at.old.knots.count }
    ensures tried { Attempts job.entry at.old at.new result }
    ensures knots_stay { at.new.knots.places.now ≡ at.old.knots.places.now }
    ensures fresh_stays { at.new.fresh.now ≡ at.old.fresh.now }
{
    at.fit.fill(&at.knots, job.params);
    at.fit.solve(job.lines, at.band)?;
    Some(job.measure(&at.fit, at.curve, at.squares))
}

// Least squares on the spread knots of m poles.
#[tactic(auto, unfolding(crate::specs::Within::fit_on_spread, crate::specs::Jobs::direction_of))]
pub fn attempt_spread(job: Job, at: &mut Regions, m: usize) -> Option<Measured>
    requires { HasRegions job at.old × (job.degree < m) × (m ≤ length job.params.now) }
    ensures tried { AttemptsSpread job.entry m at.new result }
    ensures fresh_stays { at.new.fresh.now ≡ at.old.fresh.now }
{
    at.knots.lay_spread(job.params, m, job.degree);
    attempt(job, at)
}

// Interpolation on averaged knots.
pub fn pass_through(job: Job, at: &mut Regions) -> Measured
    requires { HasRegions job at.old }
    ensures passed { PassesThrough job.entry at.new result }
    ensures fresh_stays { at.new.fresh.now ≡ at.old.fresh.now }
{
    at.knots.lay_averaged(job.params, job.degree);
    at.fit.fill(&at.knots, job.params);
    at.fit.pass(job.lines, at.band);
    job.measure(&at.fit, at.curve, at.squares)
}
