#![tactic(auto)]

// The circuit ids of the ports: 64 rows of 64 octets, lent by the host. A row is the id's length, then the id.
ghost use Rattle.std.specs.Prelude.{◌≡◌, ◌≤◌, ◌<◌, ltb, length};
ghost use Rattle.flows.specs.Words.{same};
ghost use Rattle.rows.specs.Rows.{first_row};
ghost use Rattle.circuits.specs.Circuits.{id_at, has_id, port_of};

use rows::next_row;

// The circuit id of port p.
pub fn id_at<'a>(ids: &'a [u8; 4096], p: u8) -> &'a [u8]
    requires { p < 64 }
    ensures { result.now ≡ id_at ids.now p }
{
    let row = (p as usize) * 64;
    let n = (ids[row] % 64) as usize;
    let from = row + 1;
    let to = from + n;
    &ids[from..to]
}

// The port that a circuit id names. An id of 1 to 63 octets is compared only with rows that have its octet k there:
// first its last, then the one in which the row before differed, since ids may begin alike and end alike.
pub fn port_of(ids: &[u8; 4096], n: usize, id: &[u8]) -> Option<u8>
    ensures { result ≡ port_of ids.now n id.now }
{
    let rows = n.min(64);
    let size = id.len();
    if size < 1 || 63 < size {
        return port_among(ids, rows, id);
    }
    let mut k = size;
    let mut from = 0;
    loop {
        let octet = id[k - 1];
        let p = next_row(|p| ids[p * 64 + k] == octet, rows, from)?;
        k = differing(id_at(ids, p as u8), id);
        if k < 1 {
            return Some(p as u8);
        }
        from = p + 1;
    }
}

// The same row by row, for an id of any size.
fn port_among(ids: &[u8; 4096], rows: usize, id: &[u8]) -> Option<u8>
    requires { rows ≤ 64 }
    ensures { result ≡ first_row rows (has_id ids.now id.now) }
{
    for p in 0..rows {
        if id_at(ids, p as u8) == id {
            return Some(p as u8);
        }
    }
    None
}

// The last octet of b, counted from 1, that a does not have there; its last where a is longer or shorter, and 0 where
// they are the same.
fn differing(a: &[u8], b: &[u8]) -> usize
    requires { 0 < length b.now }
    ensures { (result ≤ length b.now) × (ltb result 1 ≡ same a.now b.now) }
{
    if a.len() != b.len() {
        return b.len();
    }
    for i in (0..b.len()).rev() {
        if a[i] != b[i] {
            return i + 1;
        }
    }
    0
}
