// The table in which an instance is found by its number.
ghost use Rattle.std.specs.Prelude.{◌≡◌, ◌≤◌, length, IfOk, IfSome};
ghost use Rattle.sb_step.specs.Records.Table.{place_of, form_of};
ghost use Rattle.sb_step.specs.Records.Rows.{row_of, numbered_from, Rises, IsTable, IsDoubledIn, IsLast, IsRowOf, Finds};

use crate::step_file::records::{Form, Record};
use std::alloc::{AllocError, Global};

/// How many rows a table has at most, one for each number.
const ROWS: usize = 1 << 32;

/// Where the keyword of an instance stands. That of a complex record, which has none, would end
/// before it begins, so that a place is two words and no more.
#[derive(Clone, Copy)]
pub(crate) struct Place {
    pub start: usize,
    pub keyword_end: usize,
}

/// A row of the table: a number, and which instance of the file has it.
#[derive(Clone, Copy)]
pub(crate) struct Row {
    pub number: u32,
    pub at: u32,
}

/// The place of a record.
pub(crate) fn keyword_place(body: Record) -> Place
    ensures { result ≡ place_of body }
{
    match body.form {
        Form::Simple(keyword_end) => Place {
            start: body.start,
            keyword_end,
        },
        Form::Complex => Place {
            start: 1,
            keyword_end: 0,
        },
    }
}

/// The form that a place tells.
pub(crate) fn form(place: Place) -> Form
    ensures { result ≡ form_of place }
{
    if place.keyword_end < place.start {
        Form::Complex
    } else {
        Form::Simple(place.keyword_end)
    }
}

/// The numbers in order, each with its place in the file. A search by halving has no bad case, and
/// the sort has none either.
pub(crate) fn table(alloc: Global, numbers: &[u32]) -> Result<Vec<Row>, AllocError>
    ensures { IfOk result (λ t. IsTable numbers.now t.items) }
{
    let mut rows = numbered(alloc, numbers)?;
    rows.sort_unstable_by_key(|row| row.number);
    Ok(rows)
}

/// The numbers in file order, each with its place there. More of them than rows are not all apart,
/// and then their places serve for nothing.
fn numbered(alloc: Global, numbers: &[u32]) -> Result<Vec<Row>, AllocError>
    ensures { IfOk result (λ rows. rows.items ≡ numbered_from 0 numbers.now) }
{
    let mut rows = Vec::with_capacity(alloc, numbers.len())?;
    'numbers: for at in 0..numbers.len() {
        rows.push(new_row(numbers[at], at))?;
    }
    Ok(rows)
}

#[inline(always)]
fn new_row(number: u32, at: usize) -> Row
    ensures { result ≡ row_of number at }
{
    Row {
        number,
        at: (at % ROWS) as u32,
    }
}

/// The least number that stands in two rows.
pub(crate) fn least_doubled(rows: &[Row]) -> Option<u32>
    requires { Rises rows.now }
    ensures { IsDoubledIn result rows.now }
{
    'rows: for at in 1..rows.len() {
        if rows[at - 1].number == rows[at].number {
            return Some(rows[at].number);
        }
    }
    None
}

/// The number of the last row, and 0 where there is none.
pub(crate) fn last_number(rows: &[Row]) -> u32
    ensures { IsLast result rows.now }
{
    match rows.last() {
        Some(row) => row.number,
        None => 0,
    }
}

/// Which instance of the file has the number. It is looked for where few numbers left out would have
/// it, and if it is not there in the whole table.
pub(crate) fn find(rows: &[Row], number: u32) -> Option<u32>
    requires { Rises rows.now }
    ensures { Finds rows.now number result }
{
    match nearby(rows, number) {
        Some(at) => Some(at),
        None => searched(rows, number),
    }
}

/// Rows that stand together: from the first, up to before the end.
#[derive(Clone, Copy)]
struct Window {
    from: usize,
    end: usize,
}

/// Where a number stands if none stands twice: it is as far above the first number as its row is
/// behind the first row, less at most as many as the numbers that are left out.
fn window_of(rows: &[Row], number: u32) -> Window
    ensures within { result.end ≤ length rows.now }
    ensures apart { result.from ≤ result.end }
{
    let (Some(first), Some(last)) = (rows.first(), rows.last()) else {
        return Window { from: 0, end: 0 };
    };
    let above = number.saturating_sub(first.number) as usize;
    let highest = last.number.saturating_sub(first.number) as usize;
    let left_out = (highest + 1).saturating_sub(rows.len());
    let end = (above + 1).min(rows.len());
    Window {
        from: above.saturating_sub(left_out).min(end),
        end,
    }
}

/// Which instance has the number, if its row is in its window.
fn nearby(rows: &[Row], number: u32) -> Option<u32>
    ensures { IfSome result (IsRowOf rows.now number) }
{
    let window = window_of(rows, number);
    let near = &rows[window.from..window.end];
    match near.binary_search_by_key(&number, |row| row.number) {
        Ok(at) => Some(near[at].at),
        Err(_) => None,
    }
}

/// The same by halving, which has no bad case.
fn searched(rows: &[Row], number: u32) -> Option<u32>
    requires { Rises rows.now }
    ensures { Finds rows.now number result }
{
    match rows.binary_search_by_key(&number, |row| row.number) {
        Ok(at) => Some(rows[at].at),
        Err(_) => None,
    }
}
