// Parts of the rows of a script, found by walking on.
ghost use Rattle.std.specs.Prelude.{◌≡◌, ◌+◌, ◌^◌, ◌<◌, ◌≤◌, length, drop};
ghost use Rattle.place.specs.Rows.{row_at, parts, parts_end, depth_after, closing, block_end, slice};

use crate::heads::{is_closing, is_opening, is_part};
use script::row::{Role, Row};

// What stands past the last row, since `row_at` answers a row for every index and no look ahead needs a case of its
// own: main's closing, which `Row::default()` is not.
const NO_ROW: Row = Row {
    role: Role::MainClose,
    place: 0,
    len: 0,
    value: 0,
};

// The row at an index; past the last, a row that ends main. Public, asked by index.
pub fn row_at(rows: &[Row], i: usize) -> Row
    ensures { result ≡ row_at rows.now i }
{
    rows.get(i).copied().unwrap_or(NO_ROW)
}

// The rows from one on; none past the last.
fn rows_from(rows: &[Row], from: usize) -> &[Row]
    ensures { result.now ≡ drop from rows.now }
{
    rows.get(from..).unwrap_or(&[])
}

// How many of the rows stand before the first that is no part of an expression or of a list of names.
fn parts_len(rows: &[Row]) -> usize
    ensures within { result ≤ length rows.now }
    ensures found { result ≡ parts rows.now }
{
    rows.iter().take_while(|row| is_part(row.role)).count()
}

// Where the expression, or the list of names, that begins at the row ends. Public, asked by index.
pub fn parts_end(rows: &[Row], from: usize) -> usize
    ensures within { result ≤ from + length rows.now }
    ensures found { result ≡ parts_end rows.now from }
{
    from + parts_len(rows_from(rows, from))
}

// How many blocks are open after a row, where so many were before it; none where it closes the first.
fn depth_after(role: Role, depth: usize) -> Option<usize>
    requires { depth < 2 ^ 63 }
    ensures { result ≡ depth_after role depth }
{
    if is_opening(role) {
        Some(depth + 1)
    } else if is_closing(role) {
        depth.checked_sub(1)
    } else {
        Some(depth)
    }
}

// How many of the rows stand before the one that closes the block which they begin.
fn block_len(rows: &[Row]) -> usize
    ensures within { result ≤ length rows.now }
    ensures found { result ≡ closing 0 rows.now }
{
    // no `position`, since the depth goes on from row to row
    let mut depth = 0;
    for (i, row) in rows.iter().enumerate() {
        match depth_after(row.role, depth) {
            Some(after) => depth = after,
            None => return i,
        }
    }
    rows.len()
}

// The row that closes the block whose first row is given. Public, asked by index.
pub fn block_end(rows: &[Row], from: usize) -> usize
    ensures within { result ≤ from + length rows.now }
    ensures found { result ≡ block_end rows.now from }
{
    from + block_len(rows_from(rows, from))
}

// The rows from one to below another; none where there are not so many. Public, asked by index.
pub fn rows_between(rows: &[Row], from: usize, to: usize) -> &[Row]
    ensures few { length result.now ≤ length rows.now }
    ensures found { result.now ≡ slice rows.now from to }
{
    rows.get(from..to).unwrap_or(&[])
}
