#![tactic(auto)]

// Exported for bench/flows.c alone: what is measured there.
ghost use Rattle.std.specs.Prelude.{◌≡◌};
ghost use Rattle.channels.specs.Channels.{channel_of};
ghost use Rattle.lists.specs.Lists.{list_decision};
ghost use Rattle.speed.specs.Speed.{row_number, list_number};

use flows::Flow;
use lists::Colour;

// The row of a flow, or 256.
#[unsafe(no_mangle)]
pub extern "C" fn speed_channel(channels: &[u32; 2816], n: usize, f: Flow) -> u32
    ensures { result ≡ row_number (channel_of channels.now n f) }
{
    match channels::channel_of(channels, n, f) {
        Some(i) => i as u32,
        None => 256,
    }
}

// The list that decides of a flow (1 white, 2 black, 3 grey), or 0.
#[unsafe(no_mangle)]
pub extern "C" fn speed_list(entries: &[u32; 1536], n: usize, f: Flow) -> u32
    ensures { result ≡ list_number (list_decision entries.now n f) }
{
    match lists::list_decision(entries, n, f) {
        Some(Colour::Black) => 2,
        Some(Colour::Grey) => 3,
        Some(Colour::White) => 1,
        None => 0,
    }
}
