// What an accepted proposal means for every schedule: demand 3, over the definitions of the check and of the run.
#![tactic(auto)]

ghost use Rattle.soundness.specs.Claim.{Claim};
ghost use Rattle.soundness.specs.Shown.{Shown};

// Does nothing: its contract is the claim, so that it cannot go unproved, and a table and a proposal of which it speaks.
pub fn sound()
    ensures claim { Claim }
    ensures shown { Shown }
{}
