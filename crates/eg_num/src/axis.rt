// The points of a table's axis.
ghost use Rattle.std.specs.Prelude.{◌≡◌, ◌↔◌, ℕ, ◌+◌, ◌<◌, SomeIff, IsTrue};
ghost use Rattle.std.specs.List.Sorted.{IsStrictlyIncreasing};
ghost use Rattle.eg_num.specs.Interpolation.{IsAxis, IsLocated, value_at};

use crate::lerp_floor;
use arrayvec::ArrayVec;
use std::marker::Model;

/// The points of a table's axis: 2 to 16, strictly rising (docs/CONCEPT.md, "Interpolation"). Contracts see
/// the list of the points.
#[derive(Drop)]
pub struct Axis {
    points: ArrayVec<u16, 16>,
}

impl Model for Axis {
    ghost use Rattle.std.specs.Prelude.{ℕ, List};
    ghost use Rattle.eg_num.specs.Interpolation.{IsAxis};

    ghost Value = { List ℕ };

    ghost view = { λ a. a.points.items };

    ghost invariant = { λ a. IsAxis a.points.items };
}

impl Axis {
    /// The axis of these points, or None where they are fewer than 2, more than 16, or don't strictly rise.
    pub fn new(points: &[u16]) -> Option<Axis>
        ensures { SomeIff result (IsAxis points.now) points.now }
    {
        if points.len() < 2 || !is_rising(points) {
            return None;
        }
        let points = ArrayVec::try_from(points).ok()?;
        Some(Axis { points })
    }

    /// The points, in their order.
    pub fn points(&self) -> &[u16]
        ensures points { result.now ≡ self.now }
        ensures axis { IsAxis self.now }
    {
        self.points.as_slice()
    }

    /// The greatest index up to the last but one whose point is at most `x`, and 0 where there is none.
    pub fn locate(&self, x: u16) -> usize
        ensures { IsLocated self.now x result }
    {
        let points = self.points.as_slice();
        let mut index = 0;
        for i in 1..points.len() - 1 {
            if points[i] <= x {
                index = i;
            }
        }
        index
    }

    /// An equal axis. It takes no memory.
    pub fn copy(&self) -> Axis
        ensures { result ≡ self.now }
    {
        let mut points = ArrayVec::new();
        match points.try_extend_from_slice(self.points.as_slice()) {
            Ok(()) => Axis { points },
            Err(_) => unreachable!(),
        }
    }

    /// The value at `x`, which lies between the points `i` and `i + 1`, or past an end: they have these
    /// values.
    pub(crate) fn between(&self, i: usize, low: u16, high: u16, x: u16) -> u16
        requires { IsLocated self.now x i }
        ensures { (value : ℕ → ℕ) → value i ≡ low → value (i + 1) ≡ high →
            result ≡ value_at self.now value x }
    {
        let points = self.points();
        if x <= points[i] {
            low
        } else if points[i + 1] <= x {
            high
        } else {
            lerp_floor(points[i], low, points[i + 1], high, x)
        }
    }
}

fn is_rising(points: &[u16]) -> bool
    ensures { IsTrue result ↔ IsStrictlyIncreasing points.now }
{
    points.windows(2).all(|pair| pair[0] < pair[1])
}
