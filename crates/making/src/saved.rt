// A fit that is put by while others are made in its regions.
ghost use Rattle.std.specs.Prelude.{◌≡◌};
ghost use Rattle.fitting.specs.Room.{SmallSizes};
ghost use Rattle.making.specs.Saving.{saved_places};

use fitting::room::{Regions, Sizes};

// Places for a fit's flat knots and for its poles, and how many of each are put by, the first.
#[derive(Drop)]
pub struct SavedFit<'a> {
    pub flat: &'a mut [f64],
    pub poles: &'a mut [f64],
    pub knots: usize,
    pub places: usize,
}

// How many places they are for regions of these sizes.
pub fn saved_places(sizes: Sizes) -> usize
    requires { SmallSizes sizes }
    ensures { result ≡ saved_places sizes }
{
    (sizes.count + sizes.degree + 1) + 3 * (sizes.lines * sizes.count)
}

impl<'a> SavedFit<'a> {
    ghost use Rattle.std.specs.Prelude.{◌≡◌, ◌+◌, ◌*◌, ◌≤◌, length};
    ghost use Rattle.fitting.specs.Room.{SmallSizes};
    ghost use Rattle.making.specs.Saving.{saved_places, Saved, Restored};

    // Places for regions of these sizes, the first of the work.
    pub fn new(sizes: Sizes, work: &'a mut [f64]) -> SavedFit<'a>
        requires { SmallSizes sizes × (saved_places sizes ≤ length work.old) }
        ensures flat { length result.flat.now ≡ sizes.count + sizes.degree + 1 }
        ensures poles { length result.poles.now ≡ 3 * (sizes.lines * sizes.count) }
    {
        let (flat, work) = work.split_at_mut(sizes.count + sizes.degree + 1);
        let (poles, _) = work.split_at_mut(3 * (sizes.lines * sizes.count));
        SavedFit {
            flat,
            poles,
            knots: 0,
            places: 0,
        }
    }

    // The fit that stands in the regions, so many places of poles, put by.
    #[tactic(auto, using(crate::proofs::SavedLaws::copied))]
    pub fn save(&mut self, at: &Regions, places: usize)
        requires flat { (at.now.knots.count ≤ length self.old.flat.now) × (at.now.knots.count ≤ length at.now.knots.places.now) }
        requires poles { (places ≤ length self.old.poles.now) × (places ≤ length at.now.fit.poles.now) }
        ensures { Saved self.old self.new places at.now }
    {
        let l = at.knots.count;
        places::copy(&at.knots.places[..l], self.flat);
        places::copy(&at.fit.poles[..places], self.poles);
        self.knots = l;
        self.places = places;
    }

    // The fit that was put by, in its regions again.
    #[tactic(auto, using(crate::proofs::SavedLaws::copied))]
    pub fn restore(&self, at: &mut Regions)
        requires flat { (self.now.knots ≤ length self.now.flat.now) × (self.now.knots ≤ length at.old.knots.places.now) }
        requires poles { (self.now.places ≤ length self.now.poles.now) × (self.now.places ≤ length at.old.fit.poles.now) }
        ensures { Restored self.now at.old at.new }
    {
        let l = self.knots;
        let places = self.places;
        at.knots.count = l;
        places::copy(&self.flat[..l], at.knots.places);
        places::copy(&self.poles[..places], at.fit.poles);
    }
}
