#![tactic(auto)]

// Each kind of message that the card writes reads back, and fits the reply buffer: the statements are in specs/, their proofs in
// proofs/, and this crate's one function owes them.
ghost use Rattle.std.specs.Prelude.{◌≡◌};
ghost use Rattle.replyback.specs.Kinds.{KindsBack};
ghost use Rattle.replyback.specs.Sizes.{Sizes};
ghost use Rattle.replyback.specs.Every.{EveryReply};

// No reply to a message of at most 4,096 octets has more octets; the reply buffer has at least 4,608.
pub fn largest_reply() -> usize
    ensures { (result ≡ 4112) × KindsBack × Sizes × EveryReply }
{
    4112
}
