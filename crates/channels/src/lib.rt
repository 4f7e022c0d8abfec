#![tactic(auto)]

// The channel table: 256 rows of 11 words, lent by the host. A row is family, sourced (0 or 1), rate, group (4), source (4).
ghost use Rattle.std.specs.Prelude.{◌≡◌, ◌+◌, ◌<◌, ◌≤◌, eqb};
ghost use Rattle.channels.specs.Channels.{channel_at, rate_at, channel_of};

use flows::{Flow, same_flow, width};
use rows::next_row;

// The flow of row i.
pub fn channel_at(channels: &[u32; 2816], i: u8) -> Flow
    ensures { result ≡ channel_at channels.now i }
{
    let at = (i as usize) * 11;
    let g = at + 3;
    let s = at + 7;
    // The words by their places: a slice's try_into gives a Result, which here never fails.
    Flow {
        family: channels[at],
        sourced: channels[at + 1],
        group: [
            channels[g],
            channels[g + 1],
            channels[g + 2],
            channels[g + 3],
        ],
        source: [
            channels[s],
            channels[s + 1],
            channels[s + 2],
            channels[s + 3],
        ],
    }
}

// The rate of row i, in kbit/s.
pub fn rate_at(channels: &[u32; 2816], i: u8) -> u32
    ensures { result ≡ rate_at channels.now i }
{
    channels[(i as usize) * 11 + 2]
}

// The row of a flow. Channels differ most often in the last word of the group: only rows that have it are compared whole.
pub fn channel_of(channels: &[u32; 2816], n: usize, f: Flow) -> Option<u8>
    ensures { result ≡ channel_of channels.now n f }
{
    let k = width(f.family) - 1;
    let last = f.group[k];
    let rows = n.min(256);
    let mut from = 0;
    while let Some(i) = next_row(|i| channels[i * 11 + 3 + k] == last, rows, from) {
        if same_flow(channel_at(channels, i as u8), f) {
            return Some(i as u8);
        }
        from = i + 1;
    }
    None
}
