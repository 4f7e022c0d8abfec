#![tactic(auto)]

// The starred cases (CARD.md, "Worked cases"): the table is in specs/, its proof in proofs/, and this crate's function
// owes it.
ghost use Rattle.std.specs.Prelude.{◌≡◌, length};
ghost use Rattle.starred.specs.Starred.{case_rows, Starred};

// How many starred cases there are, each of which shows what CARD.md says.
pub fn starred_cases() -> usize
    ensures { (result ≡ length case_rows) × Starred }
{
    12
}
