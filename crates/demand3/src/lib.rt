#![tactic(auto)]

// Demand 3: the statements are in specs/, their proofs in proofs/, and this crate's functions owe them.
ghost use Rattle.std.specs.Prelude.{◌≡◌};
ghost use Rattle.demand3.specs.Calls.{ours};
ghost use Rattle.demand3.specs.Claim.{Claim};
ghost use Rattle.demand3.specs.Builds.{Worthless};
ghost use Rattle.demand3.specs.Corollaries.{Corollaries};

// How many ports a card has at most, of each of which the claim speaks.
pub fn ports() -> usize
    ensures { (result ≡ 64) × Claim ours }
{
    64
}

// How many flows all ports together have at most beyond their fours. The claim is not met by just any build: for each worthless one it fails.
pub fn extras() -> usize
    ensures { (result ≡ 256) × Worthless }
{
    256
}

// How many flows of a port no other port's calls can take, and what else follows.
pub fn fours() -> usize
    ensures { (result ≡ 4) × Corollaries }
{
    4
}
