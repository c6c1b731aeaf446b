//! Laws of the definitions of paths alone. No code calls them.

ghost use Rattle.digi_path.specs.Laws.{ActsByTheNextRepeater, TwiceReversed};

/// A station acts by the first repeater whose H bit is unset, and by the destination where there is none.
pub fn acts_by_the_next_repeater()
    ensures { ActsByTheNextRepeater }
{}

/// The way back of the way back is the path, where no repeater of it has repeated the frame.
pub fn twice_reversed()
    ensures { TwiceReversed }
{}
