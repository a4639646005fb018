//! Rows that are read together.

ghost use Rattle.std.specs.Prelude.{◌≡◌, ◌+◌, ◌*◌, ◌<◌, ◌≤◌, ◌^◌, ℕ, OnOk, IfOk, Option};
ghost use Rattle.gx_model.specs.Texts.{Bytes};
ghost use Rattle.gx_rows.specs.Rows.{HasRows, IsRow};

use crate::row::{ROW, Row, Table};
use gx_at::{ReadAt, fill_at};
use gx_text::Failed;

/// How many rows are read together: as many as 4,096 bytes have.
const ROWS: u64 = 146;

/// The rows of a table of which a first guess is mostly so near that those read around it have the one that is looked for.
const FEW: u64 = 5_000;

/// Rows of a table that stand one behind the other.
#[derive(Drop)]
pub(crate) struct Block {
    bytes: [u8; 4088],
    first: u64,
    count: u64,
}

impl Block {
    /// No rows.
    pub(crate) fn empty() -> Block
        ensures { (told : Option Bytes) (at : ℕ) → HasRows told at result }
    {
        Block {
            bytes: [0; 4088],
            first: 0,
            count: 0,
        }
    }

    /// A row of a table, read with those around it where it isn't there.
    pub(crate) fn row<S: ReadAt>(
        &mut self,
        source: &S,
        table: Table,
        row: u64,
    ) -> Result<Row, Failed>
        requires within { row < table.count }
        requires table { table.at + 28 * table.count < 2 ^ 64 }
        requires rows { HasRows (S.text source.now) table.at self.old }
        ensures rows { OnOk result (HasRows (S.text source.now) table.at self.new) }
        ensures row { IfOk result (IsRow (S.text source.now) table.at row) }
    {
        self.bring(source, table, row)?;
        let start = (row - self.first) as usize * ROW;
        Ok(Row::read(&self.bytes[start..start + ROW]))
    }

    /// Reads a row of a table and those around it, where it isn't there.
    fn bring<S: ReadAt>(&mut self, source: &S, table: Table, row: u64) -> Result<(), Failed>
        requires within { row < table.count }
        requires table { table.at + 28 * table.count < 2 ^ 64 }
        requires rows { HasRows (S.text source.now) table.at self.old }
        ensures rows { OnOk result (HasRows (S.text source.now) table.at self.new) }
        ensures first { OnOk result (self.new.first ≤ row) }
        ensures last { OnOk result (row < self.new.first + self.new.count) }
    {
        if self.first <= row && row - self.first < self.count {
            return Ok(());
        }
        let rows = self.rows_at_once(table);
        let first = row.saturating_sub(rows / 2);
        let count = rows.min(table.count - first);
        let room = &mut self.bytes[..count as usize * ROW];
        fill_at(source, table.at + 28 * first, room)?;
        self.first = first;
        self.count = count;
        Ok(())
    }

    /// How many rows of a table are read at once. The first of a large one is read alone: it only tells where to read next.
    fn rows_at_once(&self, table: Table) -> u64
        ensures some { 0 < result }
        ensures few { result ≤ 146 }
    {
        if self.count == 0 && table.count > FEW {
            1
        } else {
            ROWS
        }
    }
}
