// The lists of numbers and of truth values that a fault goes through.
ghost use Rattle.std.specs.Prelude.{◌≡◌, ◌≤◌, All, length, SomeIff};

use arrayvec::ArrayVec;
use std::marker::Model;

/// 1 to 64 numbers (docs/CONCEPT.md, "Faults"). Contracts see the list of them.
#[derive(Drop)]
pub struct Script {
    values: ArrayVec<u16, 64>,
}

impl Model for Script {
    ghost use Rattle.std.specs.Prelude.{ℕ, List, ◌≤◌, length};

    ghost Value = { List ℕ };

    ghost view = { λ s. s.values.items };

    ghost invariant = { λ s. (1 ≤ length s.values.items) × (length s.values.items ≤ 64) };
}

impl Script {
    /// The script of these numbers, or None where they aren't 1 to 64.
    pub fn new(values: &[u16]) -> Option<Script>
        ensures { SomeIff result ((1 ≤ length values.now) × (length values.now ≤ 64)) values.now }
    {
        if values.is_empty() {
            return None;
        }
        let values = ArrayVec::try_from(values).ok()?;
        Some(Script { values })
    }

    /// An equal script. It takes no memory.
    pub fn copy(&self) -> Script
        ensures { result ≡ self.now }
    {
        let mut values = ArrayVec::new();
        match values.try_extend_from_slice(self.values.as_slice()) {
            Ok(()) => Script { values },
            Err(_) => unreachable!(),
        }
    }

    /// The numbers, in their order.
    pub fn values(&self) -> &[u16]
        ensures values { result.now ≡ self.now }
        ensures least { 1 ≤ length self.now }
        ensures most { length self.now ≤ 64 }
        ensures words { All (λ value. value ≤ 65535) self.now }
    {
        let values = self.values.as_slice();
        values
    }
}

/// 1 to 64 truth values (docs/CONCEPT.md, "Faults"). Contracts see the list of them.
#[derive(Drop)]
pub struct Opens {
    values: ArrayVec<bool, 64>,
}

impl Model for Opens {
    ghost use Rattle.std.specs.Prelude.{Bool, List, ◌≤◌, length};

    ghost Value = { List Bool };

    ghost view = { λ s. s.values.items };

    ghost invariant = { λ s. (1 ≤ length s.values.items) × (length s.values.items ≤ 64) };
}

impl Opens {
    /// These truth values, or None where they aren't 1 to 64.
    pub fn new(values: &[bool]) -> Option<Opens>
        ensures { SomeIff result ((1 ≤ length values.now) × (length values.now ≤ 64)) values.now }
    {
        if values.is_empty() {
            return None;
        }
        let values = ArrayVec::try_from(values).ok()?;
        Some(Opens { values })
    }

    /// Equal truth values. It takes no memory.
    pub fn copy(&self) -> Opens
        ensures { result ≡ self.now }
    {
        let mut values = ArrayVec::new();
        match values.try_extend_from_slice(self.values.as_slice()) {
            Ok(()) => Opens { values },
            Err(_) => unreachable!(),
        }
    }

    /// The truth values.
    pub fn values(&self) -> &[bool]
        ensures values { result.now ≡ self.now }
        ensures least { 1 ≤ length self.now }
        ensures most { length self.now ≤ 64 }
    {
        self.values.as_slice()
    }
}
