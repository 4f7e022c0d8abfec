#![tactic(auto)]

// Whose grants a card takes: the statements are in specs/, their proofs in proofs/; this crate's function owes them.
ghost use Rattle.std.specs.Prelude.{◌≡◌};
ghost use Rattle.grants.specs.Grants.{Grants};

// How many transaction numbers there are; what those that a card writes say of the grants that it takes.
pub fn transaction_numbers() -> usize
    ensures { (result ≡ 16777215) × Grants }
{
    16777215
}
