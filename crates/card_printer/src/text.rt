// A text that is put into a lent slice, part after part. Its words are the bits of doubles in hexadecimal digits, which no Display writes.
ghost use Rattle.std.specs.Prelude.{◌≡◌, true, [], ◌∷◌, ◌+◌, ◌*◌, ◌/◌, ◌≤◌, length};
ghost use Rattle.places.specs.Places.{joined};
ghost use Rattle.card_text.specs.Text.{double_text, decimal_text, line};
ghost use Rattle.card_printer.specs.Answer.{Puts, mark_name, mark_line, knot_line, point_line, pole_line, curve_text, refusal_text, is_printable};

use crate::{Curve, REFUSAL_ROOM, ROOM};
use fitting::Mark;
use geometry::Point;

// The slice, and the place after the text.
#[derive(Drop)]
pub struct Text<'a> {
    pub out: &'a mut [u8],
    pub at: usize,
}

impl Text<'_> {
    // Puts bytes after the text. So do all that follow.
    fn put(&mut self, bytes: &[u8])
        requires { self.old.at + length bytes.now ≤ length self.old.out.now }
        ensures { Puts self.old self.new bytes.now }
    {
        let end = self.at + bytes.len();
        self.out[self.at..end].copy_from_slice(bytes);
        self.at = end;
    }

    // The word of a double.
    fn put_double(&mut self, x: f64)
        requires { self.old.at + 16 ≤ length self.old.out.now }
        ensures puts { Puts self.old self.new (double_text x) }
        ensures place { self.new.at ≡ self.old.at + 16 }
    {
        let mut digits = [0u8; 16];
        let n = io::hex(card_text::to_word(x), 16, &mut digits);
        self.put(&digits[..n]);
    }

    // A number without a needless zero.
    fn put_decimal(&mut self, x: u64)
        requires { self.old.at + 20 ≤ length self.old.out.now }
        ensures puts { Puts self.old self.new (decimal_text x) }
        ensures place { self.new.at ≤ self.old.at + 20 }
    {
        let mut digits = [0u8; 20];
        let n = io::decimal(x, &mut digits);
        self.put(&digits[..n]);
    }

    // The mark's name.
    fn put_mark(&mut self, mark: Mark)
        requires { self.old.at + 12 ≤ length self.old.out.now }
        ensures puts { Puts self.old self.new (mark_name mark) }
        ensures place { self.new.at ≤ self.old.at + 12 }
    {
        match mark {
            Mark::Refined(_) => self.put(b"refined"),
            Mark::Spread(_) => self.put(b"spread"),
            Mark::Interpolated(_) => self.put(b"interpolated"),
            Mark::Chosen(_) => self.put(b"chosen"),
        }
    }

    // The line of a knot.
    fn put_knot(&mut self, knot: f64, multiplicity: u64)
        requires { self.old.at + 38 ≤ length self.old.out.now }
        ensures puts { Puts self.old self.new (line (double_text knot) (decimal_text multiplicity ∷ [])) }
        ensures place { self.new.at ≤ self.old.at + 38 }
    {
        self.put_double(knot);
        self.put(b" ");
        self.put_decimal(multiplicity);
        self.put(b"\n");
    }

    // The line of a pole.
    fn put_pole(&mut self, q: Point)
        requires { self.old.at + 51 ≤ length self.old.out.now }
        ensures puts { Puts self.old self.new (point_line q) }
        ensures place { self.new.at ≤ self.old.at + 51 }
    {
        self.put_double(q.x);
        self.put(b" ");
        self.put_double(q.y);
        self.put(b" ");
        self.put_double(q.z);
        self.put(b"\n");
    }

    // The line of the mark.
    fn put_values(&mut self, mark: Mark, unreadable: u64)
        requires { self.old.at + 51 ≤ length self.old.out.now }
        ensures puts { Puts self.old self.new (mark_line mark unreadable) }
        ensures place { self.new.at ≤ self.old.at + 51 }
    {
        self.put_mark(mark);
        self.put(b" ");
        self.put_double(mark.deviation());
        self.put(b" ");
        self.put_decimal(unreadable);
        self.put(b"\n");
    }

    // The lines of the knots.
    fn put_knots(&mut self, knots: &[f64], mults: &[u32])
        requires as_many { length knots.now ≡ length mults.now }
        requires room { self.old.at + length knots.now * 38 ≤ length self.old.out.now }
        ensures puts { Puts self.old self.new (joined (length knots.now) (knot_line knots.now mults.now)) }
        ensures place { self.new.at ≤ self.old.at + length knots.now * 38 }
    {
        for (knot, multiplicity) in knots.iter().zip(mults) {
            self.put_knot(*knot, u64::from(*multiplicity));
        }
    }

    // The lines of the poles. They go by number, as a point is read everywhere.
    fn put_poles(&mut self, poles: &[f64])
        requires { self.old.at + length poles.now / 3 * 51 ≤ length self.old.out.now }
        ensures puts { Puts self.old self.new (joined (length poles.now / 3) (pole_line poles.now)) }
        ensures place { self.new.at ≤ self.old.at + length poles.now / 3 * 51 }
    {
        for k in 0..poles.len() / 3 {
            self.put_pole(geometry::point_at(poles, k));
        }
    }

    // The text of a curve.
    pub fn put_curve(&mut self, curve: &Curve)
        requires printable { is_printable curve.now ≡ true }
        requires room { self.old.at + ROOM ≤ length self.old.out.now }
        ensures { Puts self.old self.new (curve_text curve.now) }
    {
        self.put(b"mark largest unreadable\n");
        self.put_values(curve.mark, curve.unreadable as u64);
        self.put(b"knot multiplicity\n");
        self.put_knots(curve.knots, curve.mults);
        self.put(b"x y z\n");
        self.put_poles(curve.poles);
    }

    // The text of a refusal.
    pub fn put_refusal(&mut self, number: u32)
        requires { self.old.at + REFUSAL_ROOM ≤ length self.old.out.now }
        ensures { Puts self.old self.new (refusal_text number) }
    {
        self.put(b"refused\n");
        self.put_decimal(u64::from(number));
        self.put(b"\n");
    }
}
