//! Finding a name among the rows of a table.

ghost use Rattle.std.specs.Prelude.{◌≡◌, ◌+◌, ◌*◌, ◌<◌, ◌≤◌, ◌^◌, IfOk, OnOk};
ghost use Rattle.std.specs.Ordering.{is_lt};
ghost use Rattle.gx_model.specs.Texts.{byte_cmp};
ghost use Rattle.gx_rows.specs.Rows.{EndsFront, FindsIn, FrontsIn, HasRows, StandsAsRow};

use crate::block::Block;
use crate::guess::Span;
use crate::row::{Row, Table};
use gx_at::ReadAt;
use gx_text::Failed;

/// The row of a name: its number, and the place that it stands for.
#[derive(Clone, Copy, Debug, PartialEq, Eq, Drop)]
pub struct Found {
    pub row: u64,
    pub place: u64,
}

/// How many rows stand before a name, and the two that follow.
#[derive(Clone, Copy, Debug, PartialEq, Eq, Drop)]
pub struct Front {
    pub count: u64,
    pub first: Option<Row>,
    pub second: Option<Row>,
}

/// The row of a name in a table; none where no row has it.
///
/// `Failed` where a read fails, or the text ends before the rows do. Any bytes may stand there: it ends, and a row that
/// is found has the name; that none is found holds where the rows are in the order of names.
/// Cost: where names are spread evenly, as those of objects are, one read of 4,088 bytes in a table of up to 5,000 rows, and in a
/// larger one two, of 28 and of 4,088 bytes, seldom three; at most as many as twelve and the binary digits of the number of rows.
/// Takes no memory.
pub fn find_row<S: ReadAt>(
    source: &S,
    table: Table,
    name: &[u8; 20],
) -> Result<Option<Found>, Failed>
    requires { table.at + 28 * table.count < 2 ^ 64 }
    ensures { IfOk result (FindsIn (S.text source.now) table.at table.count name.now) }
{
    let mut block = Block::empty();
    let row = end_of_front(source, table, &mut block, name)?;
    let Some(held) = row_at(source, table, &mut block, row)? else {
        return Ok(None);
    };
    if held.name != *name {
        return Ok(None);
    }
    Ok(Some(Found {
        row,
        place: held.place,
    }))
}

/// How many rows of a table stand before a name, and the two rows that follow: of those that aren't before the name the
/// least two, where the rows are in the order of names.
///
/// `Failed` and the cost are those of `find_row`.
pub fn first_from<S: ReadAt>(source: &S, table: Table, name: &[u8; 20]) -> Result<Front, Failed>
    requires { table.at + 28 * table.count < 2 ^ 64 }
    ensures { IfOk result (FrontsIn (S.text source.now) table.at table.count name.now) }
{
    let mut block = Block::empty();
    let count = end_of_front(source, table, &mut block, name)?;
    let first = row_at(source, table, &mut block, count)?;
    let second = row_at(source, table, &mut block, count + 1)?;
    Ok(Front {
        count,
        first,
        second,
    })
}

/// The row of this number, where the table has so many.
fn row_at<S: ReadAt>(
    source: &S,
    table: Table,
    block: &mut Block,
    row: u64,
) -> Result<Option<Row>, Failed>
    requires table { table.at + 28 * table.count < 2 ^ 64 }
    requires rows { HasRows (S.text source.now) table.at block.old }
    ensures rows { OnOk result (HasRows (S.text source.now) table.at block.new) }
    ensures row { IfOk result (StandsAsRow (S.text source.now) table.at table.count row) }
{
    if row < table.count {
        Ok(Some(block.row(source, table, row)?))
    } else {
        Ok(None)
    }
}

/// How many rows of a table stand before a name.
fn end_of_front<S: ReadAt>(
    source: &S,
    table: Table,
    block: &mut Block,
    name: &[u8; 20],
) -> Result<u64, Failed>
    requires table { table.at + 28 * table.count < 2 ^ 64 }
    requires rows { HasRows (S.text source.now) table.at block.old }
    ensures rows { OnOk result (HasRows (S.text source.now) table.at block.new) }
    ensures within { IfOk result (λ n. n ≤ table.count) }
    ensures front { IfOk result (EndsFront (S.text source.now) table.at table.count name.now) }
{
    let front = front_of(name);
    let mut span = Span {
        low: 0,
        high: table.count,
        least: 0,
        most: u32::MAX,
        tries: 0,
    };
    while span.low < span.high {
        let middle = span.guess(front);
        let row = block.row(source, table, middle)?;
        if is_before(&row.name, name) {
            span = span.above(middle, front_of(&row.name));
        } else {
            span = span.below(middle, front_of(&row.name));
        }
    }
    Ok(span.low)
}

/// The first four bytes of a name, as a number.
fn front_of(name: &[u8; 20]) -> u32 {
    u32::from_be_bytes([name[0], name[1], name[2], name[3]])
}

/// Whether a name stands before another.
fn is_before(left: &[u8; 20], right: &[u8; 20]) -> bool
    ensures { result ≡ is_lt (byte_cmp left.now right.now) }
{
    left.as_slice().cmp(right.as_slice()).is_lt()
}
