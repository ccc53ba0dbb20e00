// The rows of a basis table, one a parameter (`BasisRows`): the lent flat knots, and the span where the search for the next parameter's span starts. The values
// of a row stand in the table, and `basis_values` makes them there.
ghost use Rattle.std.specs.Prelude.{◌≡◌};
ghost use Rattle.bspline.specs.Spans.{span_on};
ghost use Rattle.tables.specs.Rows.{SpanFits, rows_of};

#[derive(Clone, Copy)]
pub struct BasisRows<'a> {
    pub flat: &'a [f64],
    pub degree: usize,
    pub span: usize,
}

impl<'a> BasisRows<'a> {
    // The rows of a curve of the degree, from the span on.
    pub fn new(flat: &'a [f64], degree: usize, span: usize) -> BasisRows<'a>
        ensures { result ≡ rows_of flat.entry degree span }
    {
        BasisRows { flat, degree, span }
    }

    // The same at the span that holds t, which is at or after the parameter that the span was found for; from there the search can go on.
    #[tactic(auto, using(bspline::proofs::SpanLaws::span_fits))]
    pub fn at(self, t: f64) -> BasisRows<'a>
        requires { SpanFits self.flat.now self.degree self.span }
        ensures moved { result ≡ rows_of self.entry.flat self.entry.degree (span_on self.entry.flat.now self.entry.degree self.entry.span t) }
        ensures fits { SpanFits result.flat.now result.degree result.span }
    {
        let span = bspline::spans::advance(self.flat, self.degree, self.span, t);
        BasisRows {
            flat: self.flat,
            degree: self.degree,
            span,
        }
    }
}
