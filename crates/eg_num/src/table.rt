// Tables of two axes.
ghost use Rattle.std.specs.Prelude.{◌≡◌, ◌*◌, ◌+◌, ◌^◌, ◌<◌, All, length, SomeIff};
ghost use Rattle.eg_num.specs.Interpolation.{Grid, IsGrid, IsGridValueAt, IsLocated, cell, grid_at, row_at};

use crate::Axis;
use arrayvec::ArrayVec;
use std::marker::Model;

/// A table of two axes: a value at each crossing of a row and a column, kept row by row, and values between
/// them (docs/CONCEPT.md, "Interpolation"). Contracts see its `Grid`.
#[derive(Drop)]
pub struct Table2 {
    rows: Axis,
    columns: Axis,
    values: ArrayVec<u16, 256>,
}

impl Model for Table2 {
    ghost use Rattle.eg_num.specs.Interpolation.{Grid, IsGrid};

    ghost Value = { Grid };

    ghost view = { λ t. record { rows = t.rows; columns = t.columns; values = t.values.items } };

    ghost invariant = { λ t. IsGrid (record {
      rows = t.rows;
      columns = t.columns;
      values = t.values.items;
    }) };
}

impl Table2 {
    /// The table of these values, row by row, or None where they aren't as many as the crossings.
    pub fn new(rows: Axis, columns: Axis, values: &[u16]) -> Option<Table2>
        ensures { SomeIff result (length values.now ≡ length rows * length columns)
            (record { rows = rows; columns = columns; values = values.now }) }
    {
        if values.len() != rows.points().len() * columns.points().len() {
            return None;
        }
        let values = ArrayVec::try_from(values).ok()?;
        Some(Table2 {
            rows,
            columns,
            values,
        })
    }

    /// How many rows it has.
    pub fn height(&self) -> usize
        ensures height { result ≡ length self.now.rows }
        ensures grid { IsGrid self.now }
    {
        self.rows.points().len()
    }

    /// How many columns it has.
    pub fn width(&self) -> usize
        ensures width { result ≡ length self.now.columns }
        ensures grid { IsGrid self.now }
    {
        self.columns.points().len()
    }

    /// The values, row by row. All are words.
    pub fn values(&self) -> &[u16]
        ensures values { result.now ≡ self.now.values }
        ensures words { All (λ value. value < 2 ^ 16) self.now.values }
        ensures grid { IsGrid self.now }
    {
        let values = self.values.as_slice();
        values
    }

    /// The value at the crossing of row `i` and column `j`.
    pub fn value(&self, i: usize, j: usize) -> u16
        requires row { i < length self.now.rows }
        requires column { j < length self.now.columns }
        ensures { result ≡ cell self.now i j }
    {
        self.values[i * self.columns.points().len() + j]
    }

    /// The value at a place of both axes: each of the two neighbouring rows is read along the columns first.
    pub fn at(&self, row: u16, column: u16) -> u16
        ensures value { result ≡ grid_at self.now row column }
        ensures neighbours { IsGridValueAt self.now row column result }
    {
        let i = self.rows.locate(row);
        let j = self.columns.locate(column);
        let low = self.along(i, j, column);
        let high = self.along(i + 1, j, column);
        self.rows.between(i, low, high, row)
    }

    /// An equal table. It takes no memory.
    pub fn copy(&self) -> Table2
        ensures { result ≡ self.now }
    {
        let mut values = ArrayVec::new();
        match values.try_extend_from_slice(self.values.as_slice()) {
            Ok(()) => Table2 {
                rows: self.rows.copy(),
                columns: self.columns.copy(),
                values,
            },
            Err(_) => unreachable!(),
        }
    }

    /// The value of row `i` at a place of the columns, which lies between columns `j` and `j + 1`, or past an
    /// end.
    fn along(&self, i: usize, j: usize, column: u16) -> u16
        requires row { i < length self.now.rows }
        requires located { IsLocated self.now.columns column j }
        ensures { result ≡ row_at self.now column i }
    {
        // Called for its clause alone: there are at most 16 columns, so that `j + 1` is a `usize`.
        let _width = self.width();
        let low = self.value(i, j);
        let high = self.value(i, j + 1);
        self.columns.between(j, low, high, column)
    }
}
