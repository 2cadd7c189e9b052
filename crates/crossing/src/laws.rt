// What holds of every good plan: each function does nothing, and its contract is a theorem about the definitions that `judge` answers by.
ghost use Rattle.crossing.specs.Laws.{NeverTogether, Cleared, Turned, NoGrowing, NoGrowingAnywhere};

// In a good plan two streams that cross are never green in the same second.
pub fn never_together()
    ensures { NeverTogether }
{}

// Nor is one green too soon after the other.
pub fn cleared()
    ensures { Cleared }
{}

// A plan that begins so many seconds later is as good and has as much to spare.
pub fn turned()
    ensures { Turned }
{}

// Where all can go, those who wait are no more after a cycle than before, once they are as many as the cycle has seconds.
pub fn no_growing()
    ensures one { NoGrowing }
    ensures all { NoGrowingAnywhere }
{}
