//! The table of how often each name of a list occurs.
//!
//! The names are sorted, so that equal ones are neighbours. The rows are sorted after that.

ghost use Rattle.std.specs.Prelude.{◌≡◌, ◌<◌, ◌≤◌, ◌++◌, ℕ, map, length, replicate, bytes_eq};
ghost use Rattle.std.specs.Prelude.{true, false, IfOk, OnOk, slice_index_or};
ghost use Rattle.std.specs.List.Sorted.{IsPermutation, IsSorted};
ghost use Rattle.std.specs.Cmp.Lexicographic.{slice_cmp};
ghost use Rattle.std.specs.Ordering.{nat_cmp};
ghost use Rattle.ud_passes.specs.names.NameTables.{names_in, row_cmp, row_line, table_text};
ghost use Rattle.ud_passes.specs.names.NameTables.{Tabulates};
ghost use Rattle.ud_passes.specs.names.RowViews.{as_count, AreCounts};
ghost use Rattle.ud_passes.specs.Passes.{AppendsSome};

use itoa::Buffer;
use std::alloc::{AllocError, Global};
use std::cmp::Ordering;
use ud_text::line_in;

/// The width of the table's counts, like in `uniq -c`.
const WIDTH: usize = 7;

/// A row of the table.
#[derive(Clone, Copy)]
pub(crate) struct Row<'a> {
    /// The number of times that the name occurs.
    count: usize,
    /// The name.
    name: &'a [u8],
}

/// Returns the names of a list, each a line.
///
/// # Errors
/// Fails if memory runs out.
fn names_in(alloc: Global, list: &[u8]) -> Result<Vec<&[u8]>, AllocError>
    ensures { IfOk result (λ names. map (λ n. n.now) names.items ≡ names_in list.now) }
{
    let mut names = Vec::new(alloc);
    let mut rest = list;
    while !rest.is_empty() {
        let line = line_in(rest, 1);
        names.push(line.body)?;
        rest = rest.split_at(line.body.len() + line.ending.len()).1;
    }
    Ok(names)
}

/// Returns how many names are `name` before the first different one.
fn leading(names: &[&[u8]], name: &[u8]) -> usize
    ensures within { result ≤ length names.now }
    ensures same { (k : ℕ) → k < result → (d : _) →
        bytes_eq (slice_index_or names.now k d).now name.now ≡ true }
    ensures other { result < length names.now → (d : _) →
        bytes_eq (slice_index_or names.now result d).now name.now ≡ false }
{
    for (at, other) in names.iter().enumerate() {
        if *other != name {
            return at;
        }
    }
    names.len()
}

/// Returns a row for each name. The names are sorted.
///
/// # Errors
/// Fails if memory runs out.
fn rows_of<'a>(alloc: Global, names: &[&'a [u8]]) -> Result<Vec<Row<'a>>, AllocError>
    requires { IsSorted (λ x y. slice_cmp nat_cmp x.now y.now) names.now }
    ensures { IfOk result (λ rows.
        AreCounts (map (λ n. n.now) names.now) (map as_count rows.items)) }
{
    let mut rows = Vec::new(alloc);
    let mut start = 0;
    while start < names.len() {
        let name = names[start];
        let count = leading(&names[start..], name);
        rows.push(Row { count, name })?;
        start += count;
    }
    Ok(rows)
}

/// Returns which of two rows comes first.
fn row_order(a: &Row<'_>, b: &Row<'_>) -> Ordering
    ensures { result ≡ row_cmp (as_count a.now) (as_count b.now) }
{
    match b.count.cmp(&a.count) {
        Ordering::Equal => a.name.cmp(b.name),
        order => order,
    }
}

/// Sorts the rows.
///
/// # Errors
/// Fails if memory runs out.
fn sort_rows(rows: &mut Vec<Row<'_>>) -> Result<(), AllocError>
    ensures same { IsPermutation rows.old.items rows.new.items }
    ensures sorted { OnOk result
        (IsSorted (λ a b. row_cmp (as_count a) (as_count b)) rows.new.items) }
{
    rows.sort_by(|a, b| row_order(a, b))
}

/// Appends spaces.
///
/// # Errors
/// Fails if memory runs out.
fn append_spaces(count: usize, out: &mut Vec<u8>) -> Result<(), AllocError>
    ensures grows { AppendsSome out.old.items out.new.items }
    ensures spaces { OnOk result (out.new.items ≡ out.old.items ++ replicate count 32) }
{
    for _ in 0..count {
        out.push(b' ')?;
    }
    Ok(())
}

/// Appends the line of a row.
///
/// # Errors
/// Fails if memory runs out.
fn append_row(row: &Row<'_>, out: &mut Vec<u8>) -> Result<(), AllocError>
    ensures grows { AppendsSome out.old.items out.new.items }
    ensures line { OnOk result (out.new.items ≡ out.old.items ++ row_line (as_count row.now)) }
{
    let mut buffer = Buffer::new();
    let digits = buffer.format(row.count).as_bytes();
    append_spaces(WIDTH.saturating_sub(digits.len()), out)?;
    out.extend_from_slice(digits)?;
    out.extend_from_slice(b" ")?;
    out.extend_from_slice(row.name)?;
    out.extend_from_slice(b"\n")
}

/// Appends the lines of rows.
///
/// # Errors
/// Fails if memory runs out.
fn append_rows(rows: &[Row<'_>], out: &mut Vec<u8>) -> Result<(), AllocError>
    ensures grows { AppendsSome out.old.items out.new.items }
    ensures lines { OnOk result
        (out.new.items ≡ out.old.items ++ table_text (map as_count rows.now)) }
{
    for row in rows {
        append_row(row, out)?;
    }
    Ok(())
}

/// Appends the table of the names of a list.
///
/// # Errors
/// Fails if memory runs out. Part of the table may have been appended.
pub(crate) fn append_table(alloc: Global, list: &[u8], out: &mut Vec<u8>) -> Result<(), AllocError>
    ensures grows { AppendsSome out.old.items out.new.items }
    ensures table { OnOk result (Tabulates (names_in list.now) out.old.items out.new.items) }
{
    let mut names = names_in(alloc, list)?;
    names.sort()?;
    let mut rows = rows_of(alloc, names.as_slice())?;
    sort_rows(&mut rows)?;
    append_rows(rows.as_slice(), out)
}
