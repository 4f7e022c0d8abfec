#![tactic(auto)]

// A port's active flows in order of family, group, source (none first).
ghost use Rattle.std.specs.Prelude.{◌≡◌, Bool, List, ℕ, ◌+◌, ◌<◌, take};
ghost use Rattle.octets.specs.Writing.{over};
ghost use Rattle.pool.specs.Pool.{as_rows, rows_in, pool_of};
ghost use Rattle.listing.specs.Listing.{row_before, placed, Listed, rows_in_order};

use pool::Rows;

// Whatever the other maps hold.
pub fn rows_in_order<'a>(
    channels: &[u32; 2816],
    owner: &'a [u8; 512],
    channel: &'a [u8; 512],
    p: u8,
) -> Rows
    ensures rows { (charged : List Bool) (accounting : List ℕ) → result ≡ as_rows (rows_in_order channels.now (pool_of owner.now channel.now charged accounting) p) }
    ensures order { Listed channels.now (take 16 (rows_in owner.now channel.now p)) }
{
    let found = pool::rows_of(owner, channel, p);
    let mut done = Rows::none();
    for k in &found.rows[..found.count] {
        done = place(channels, done, *k);
    }
    done
}

// Row k among those that are in order: of the two at each place the one that goes first stays, and the other goes on.
// `Rows` is a count and an array, and no slice: a host reads it as such (`Rows` of the C interface).
fn place(channels: &[u32; 2816], done: Rows, k: u8) -> Rows
    requires { done.count < 16 }
    ensures count { result.count ≡ done.count + 1 }
    ensures rows { result.rows ≡ over (placed (row_before channels.now) k (take done.count done.rows)) done.rows }
{
    let n = done.count;
    let mut rows = done.rows;
    let mut carried = k;
    for i in 0..n {
        let j = rows[i];
        if row_before(channels, carried, j) {
            rows[i] = carried;
            carried = j;
        }
    }
    rows[n] = carried;
    Rows { count: n + 1, rows }
}

fn row_before(channels: &[u32; 2816], k: u8, j: u8) -> bool
    ensures { result ≡ row_before channels.now k j }
{
    flows::flow_before(
        channels::channel_at(channels, k),
        channels::channel_at(channels, j),
    )
}
