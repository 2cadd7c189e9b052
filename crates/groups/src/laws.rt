// What groups say of every good plan. Each law is asked for by the contract of a function that does nothing.
ghost use Rattle.groups.specs.Laws.{Shares, TooMuch};

// The members of a group share the cycle.
pub fn shares()
    ensures { Shares }
{}

// What makes a group overfull is too much to spare.
pub fn too_much()
    ensures { TooMuch }
{}
