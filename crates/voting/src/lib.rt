// Placements and votes: the definitions, and the theorems about them, each on the contract of a function.
#![tactic(auto)]

ghost use Rattle.voting.specs.Local.{LocalDescription};
ghost use Rattle.voting.specs.Weights.{PricesCertify};
ghost use Rattle.voting.specs.Worked.{WorkedRounds};

// A feasible placement is unbeaten exactly when it is well-formed, and where it is not, a feasible one that beats it can be named.
pub fn local_description()
    ensures { LocalDescription }
{}

// Prices that support a feasible placement show that none weighs more.
pub fn prices_certify()
    ensures { PricesCertify }
{}

// What holds of the worked rounds.
pub fn worked_rounds()
    ensures { WorkedRounds }
{}
