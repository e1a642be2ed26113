//! Lines and columns.
ghost use Rattle.std.specs.Prelude.{◌≡◌, ◌≤◌, ◌+◌, ◌^◌, ◌<◌};
ghost use Rattle.ref_explain.specs.Places.{column_at, goes_on, line_at, next_column};

/// Whether a byte goes on in a character that began before it.
pub(crate) fn goes_on(b: u8) -> bool
    ensures { result ≡ goes_on b }
{
    128 <= b && b < 192
}

/// The line of the place behind these bytes, from 1.
pub fn line_at(before: &[u8]) -> usize
    ensures { result ≡ line_at before.now }
{
    before.iter().filter(|b| **b == b'\n').count() + 1
}

// The column behind one more byte.
fn next_column(column: usize, b: u8) -> usize
    requires { column + 1 < 2 ^ 64 }
    ensures { result ≡ next_column column b }
{
    if b == b'\n' {
        1
    } else if goes_on(b) {
        column
    } else {
        column + 1
    }
}

/// The column of the place behind these bytes, in characters, from 1.
#[tactic(auto, using(crate::proofs::Columns::column_from_at))]
pub fn column_at(before: &[u8]) -> usize
    ensures { result ≡ column_at before.now }
{
    let mut column = 1;
    for b in before {
        column = next_column(column, *b);
    }
    column
}
