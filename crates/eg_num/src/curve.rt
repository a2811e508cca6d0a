// Tables of one axis.
ghost use Rattle.std.specs.Prelude.{◌≡◌, length, slice_index, SomeIff};
ghost use Rattle.eg_num.specs.Interpolation.{Curve, IsCurve, IsValueAt, curve_at};

use crate::Axis;
use arrayvec::ArrayVec;
use std::marker::Model;

/// A table of one axis: a value at each point, and values between them (docs/CONCEPT.md, "Interpolation").
/// Contracts see its `Curve`.
#[derive(Drop)]
pub struct Table1 {
    axis: Axis,
    values: ArrayVec<u16, 16>,
}

impl Model for Table1 {
    ghost use Rattle.eg_num.specs.Interpolation.{Curve, IsCurve};

    ghost Value = { Curve };

    ghost view = { λ t. record { axis = t.axis; values = t.values.items } };

    ghost invariant = { λ t. IsCurve (record { axis = t.axis; values = t.values.items }) };
}

impl Table1 {
    /// The table of these values, or None where they aren't as many as the points.
    pub fn new(axis: Axis, values: &[u16]) -> Option<Table1>
        ensures { SomeIff result (length values.now ≡ length axis)
            (record { axis = axis; values = values.now }) }
    {
        if values.len() != axis.points().len() {
            return None;
        }
        let values = ArrayVec::try_from(values).ok()?;
        Some(Table1 { axis, values })
    }

    /// Its values, one a point.
    pub fn values(&self) -> &[u16]
        ensures values { result.now ≡ self.now.values }
        ensures curve { IsCurve self.now }
    {
        self.values.as_slice()
    }

    /// The value at a place of the axis.
    pub fn at(&self, x: u16) -> u16
        ensures value { result ≡ curve_at self.now x }
        ensures neighbours { IsValueAt self.now.axis (slice_index self.now.values) x result }
    {
        let i = self.axis.locate(x);
        self.axis.between(i, self.values[i], self.values[i + 1], x)
    }

    /// An equal table. It takes no memory.
    pub fn copy(&self) -> Table1
        ensures { result ≡ self.now }
    {
        let mut values = ArrayVec::new();
        match values.try_extend_from_slice(self.values.as_slice()) {
            Ok(()) => Table1 {
                axis: self.axis.copy(),
                values,
            },
            Err(_) => unreachable!(),
        }
    }
}
