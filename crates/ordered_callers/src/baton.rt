//! The baton, which the caller that runs has taken.
ghost use Rattle.std.specs.Prelude.{◌≡◌, ◌≢◌, ◌<◌, ◌↔◌, [], Some, true, IsTrue, vec_len, remove};
ghost use Rattle.ordered_callers.specs.Baton.{holder_of, numbers_of_seed, HasTaken, IsDrawnBy};

use rand_core::utils::NextWord;
use rand_pcg::Pcg32;

/// Whose the baton is among the places that have not left, and whether its caller runs.
#[derive(Drop)]
pub(crate) struct Baton {
    numbers: Pcg32,
    places: Vec<u32>,
    drawn: usize,
    taken: bool,
}

impl Baton {
    /// The baton of these places, which nobody has taken yet.
    pub(crate) fn new(seed: u64, places: Vec<u32>) -> Baton
        requires { 0 < vec_len places }
        ensures places { result.places ≡ places }
        ensures drawn { IsDrawnBy (numbers_of_seed seed) result }
    {
        let mut baton = Baton {
            numbers: Pcg32::new(seed, 1),
            places,
            drawn: 0,
            taken: false,
        };
        baton.draw();
        baton
    }

    // Draws whose it is next.
    fn draw(&mut self)
        requires { 0 < vec_len self.old.places }
        ensures places { self.new.places ≡ self.old.places }
        ensures drawn { IsDrawnBy self.old.numbers self.new }
    {
        self.drawn = self.numbers.next_word() as usize % self.places.len();
        self.taken = false;
    }

    /// The place whose it is. Where all have left there is none.
    pub(crate) fn holder(&self) -> Option<u32>
        ensures { result ≡ holder_of self.now }
    {
        self.places.get(self.drawn).copied()
    }

    /// Whether it is this place's.
    pub(crate) fn is_with(&self, place: u32) -> bool
        ensures { IsTrue result ↔ (holder_of self.now ≡ Some place) }
    {
        self.holder() == Some(place)
    }

    /// The caller whose it is takes it, and runs.
    pub(crate) fn take(&mut self)
        ensures { self.new ≡ record self.old { taken = true } }
    {
        self.taken = true;
    }

    /// The caller of this place passes it on, if it has taken it.
    pub(crate) fn pass_on(&mut self, place: u32)
        ensures places { self.new.places ≡ self.old.places }
        ensures passed { HasTaken place self.old → IsDrawnBy self.old.numbers self.new }
        ensures kept { (HasTaken place self.old → ⊥) → self.new ≡ self.old }
    {
        if self.taken && self.is_with(place) {
            self.draw();
        }
    }

    /// This place, whose it is, leaves.
    pub(crate) fn leave(&mut self, place: u32)
        requires { holder_of self.old ≡ Some place }
        ensures places { self.new.places.items ≡ remove self.old.places.items self.old.drawn }
        ensures drawn { self.new.places.items ≢ [] → IsDrawnBy self.old.numbers self.new }
    {
        self.places.remove(self.drawn);
        if !self.places.is_empty() {
            self.draw();
        }
    }
}
