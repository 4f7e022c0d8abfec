#![tactic(auto)]

// Rows of a table: which is the first of its kind, and whether each passes a test.
ghost use Rattle.std.specs.Prelude.{◌≡◌, ◌≤◌, ◌<◌, ◌+◌, ◌^◌, ℕ, true, false};
ghost use Rattle.rows.specs.Rows.{NextRow};

// The first row from `from` on that passes the test. Where that row does not, others are passed over 8 at a time, then
// singly.
pub fn next_row<F: Fn(usize) -> bool>(passes: F, rows: usize, from: usize) -> Option<usize>
    requires within { from ≤ rows }
    requires callable { (i : ℕ) → i < rows → F.pre passes i }
    ensures { NextRow (λ i b. F.post passes i b) rows from result }
{
    if rows <= from {
        return None;
    }
    if passes(from) {
        return Some(from);
    }
    let mut i = from + 1;
    while rows - i >= 8 && none_of(&passes, i, 8) {
        i += 8;
    }
    for row in i..rows {
        if passes(row) {
            return Some(row);
        }
    }
    None
}

// None of the n rows from `at` on passes. There is no early end, so that the compiler writes out all n tests.
fn none_of<F: Fn(usize) -> bool>(passes: &F, at: usize, n: usize) -> bool
    requires within { at + n < 2 ^ 64 }
    requires callable { (i : ℕ) → at ≤ i → i < at + n → F.pre passes.now i }
    ensures { result ≡ true → (i : ℕ) → at ≤ i → i < at + n → F.post passes.now i false }
{
    let mut none = true;
    for i in at..at + n {
        none &= !passes(i);
    }
    none
}

// A table of n rows has at most so many, and each passes the test.
pub fn rows_ok<F: Fn(usize) -> bool>(most: usize, n: usize, passes: F) -> bool
    requires { n ≤ most → (i : ℕ) → i < n → F.pre passes i }
    ensures each { result ≡ true → (n ≤ most) × ((i : ℕ) → i < n → F.post passes i true) }
    ensures one { result ≡ false → n ≤ most → (i : ℕ) × (i < n) × F.post passes i false }
{
    if most < n {
        return false;
    }
    for row in 0..n {
        if !passes(row) {
            return false;
        }
    }
    true
}
