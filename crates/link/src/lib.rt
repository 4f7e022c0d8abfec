#![tactic(auto)]

// What a C host does with its card is a list of calls of demand 3: the statement is in specs/, its proof in proofs/, and
// this crate's one function owes it.
ghost use Rattle.std.specs.Prelude.{◌≡◌};
ghost use Rattle.link.specs.Link.{Link};

// How many tables a host lends with every call, the same that it gave to start.
pub fn tables() -> usize
    ensures { (result ≡ 3) × Link }
{
    3
}
