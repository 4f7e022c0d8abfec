#![tactic(auto)]

// What is not read of a message that is handed in: the statements are in specs/, their proofs in proofs/, and this crate's one function
// owes them.
ghost use Rattle.std.specs.Prelude.{◌≡◌};
ghost use Rattle.unread.specs.Unread.{Unread};

// How many bits of a header are not read: the received Result Code.
pub fn code_bits() -> usize
    ensures { (result ≡ 12) × Unread }
{
    12
}
