// Which placement stands is never in doubt.
ghost use Rattle.round.specs.Theorems.{OneStands, StandsOrNot};

pub fn one_stands()
    ensures one { OneStands }
    ensures known { StandsOrNot }
{}
