// What holds of best plans, each law as the contract of a function that has nothing to do.
ghost use Rattle.planning.specs.Exists.{BestOrNone};
ghost use Rattle.planning.specs.Worked.{TooMuch, NineToSpare};

// For every junction whatever there is a best plan, or none in which all can go.
pub fn best_or_none()
    ensures { BestOrNone }
{}

// A junction whose two streams need 13 of the cycle's 12 seconds has no plan.
pub fn too_much()
    ensures { TooMuch }
{}

// Two streams that don't cross, and what the worse off has to spare at best.
pub fn nine_to_spare()
    ensures { NineToSpare }
{}
