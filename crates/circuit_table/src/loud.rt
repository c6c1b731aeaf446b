//! Which of the ends that a node holds may have something to tell. Of many mostly one has, so that one is remembered, and the others
//! aren't looked at. Called by `held_ends`, `pump` and `receiving`.
ghost use Rattle.std.specs.Prelude.{◌≡◌, None};
ghost use Rattle.circuit_table.specs.declared.loud.Loud.TheVariants as loud;
ghost use Rattle.circuit_table.specs.Standing.{FirstLoud, Rests, SameNode};
ghost use Rattle.circuit_table.specs.Still.{AreStill, AreStillBeside, ComesTo};

use crate::finding::first_untold;
use crate::held_ends::HeldEnds;
use crate::holder::Holder;

/// Which ends may have something to tell; each other one has nothing.
#[derive(Clone, Copy, Debug)]
pub(crate) enum Loud {
    Nobody,
    /// The end with this number.
    One(u64),
    Any,
}

impl Loud {
    /// Which ends may have something to tell, now that the end with this number is as given. `self` says so whatever that end has come to,
    /// so it may count it in for nothing.
    pub(crate) fn after(self, id: u64, holder: &Holder) -> Loud
        ensures { ComesTo id self holder.now result }
    {
        match self {
            Loud::One(one) if one == id && holder.is_quiet() => Loud::Nobody,
            _ => self,
        }
    }
}

impl HeldEnds {
    /// The number of the first end that has something to tell. Mostly none has, which is seen without a look at any.
    #[inline(always)]
    pub(crate) fn first_loud(&self) -> Option<u64>
        ensures first { FirstLoud result self.now.ends.entries }
        ensures rests { result ≡ None → Rests self.now.ends.entries }
        ensures still { result ≡ None → AreStill self.now.ends.entries }
    {
        match self.loud {
            Loud::Nobody => None,
            Loud::One(id) => self.if_loud(id),
            Loud::Any => first_untold(self.ends.as_slice()),
        }
    }

    /// The number of the one end that may have something to tell, where it has.
    #[inline(never)]
    fn if_loud(&self, id: u64) -> Option<u64>
        requires { self.now.loud ≡ loud.One id }
        ensures first { FirstLoud result self.now.ends.entries }
        ensures rests { result ≡ None → Rests self.now.ends.entries }
        ensures still { result ≡ None → AreStill self.now.ends.entries }
    {
        match self.ends.get(&id) {
            Some(holder) => {
                if holder.is_quiet() {
                    return None;
                }
                Some(id)
            }
            None => None,
        }
    }

    /// Which ends may have something to tell, whatever the one with this number comes to.
    pub(crate) fn loud_at(&self, id: u64) -> Loud
        ensures { AreStillBeside id result self.now.ends.entries }
    {
        match self.loud {
            Loud::Any => Loud::Any,
            Loud::One(one) if one == id => Loud::One(id),
            _ => self.loud_beside(id),
        }
    }

    /// The same, where another one or none is remembered.
    fn loud_beside(&self, id: u64) -> Loud
        ensures { AreStillBeside id result self.now.ends.entries }
    {
        match self.first_loud() {
            Some(_) => Loud::Any,
            None => Loud::One(id),
        }
    }

    /// Remembers that no end has anything to tell, where none has.
    pub(crate) fn look(&mut self)
        ensures ends { self.new.ends ≡ self.old.ends }
        ensures same { SameNode self.old self.new }
    {
        if self.first_loud().is_none() {
            self.loud = Loud::Nobody;
        }
    }
}
