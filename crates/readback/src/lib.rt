#![tactic(auto)]

// What the card writes reads back: the statements are in specs/, their proofs in proofs/, and this crate's one function owes them.
ghost use Rattle.std.specs.Prelude.{◌≡◌};
ghost use Rattle.readback.specs.Reads.{ReadBack};
ghost use Rattle.readback.specs.Passes.{Passes};

// How many octets stand before a message's TLVs.
pub fn header_size() -> usize
    ensures { (result ≡ 16) × ReadBack × Passes }
{
    16
}
