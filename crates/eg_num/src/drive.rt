// The rows of a drive trace.
ghost use Rattle.std.specs.Prelude.{◌≡◌, SomeIff};
ghost use Rattle.std.specs.Cmp.{partial_equiv_from_equiv};
ghost use Rattle.eg_num.specs.Drive.{DriveRow, IsDrive, is_same_row, is_same_row-equality};

use crate::pedal_word::PedalWord;
use std::marker::Model;

/// What a drive trace gives to one tick (docs/CONCEPT.md, "Units"): the pedal (0 to 1000 per mille), the
/// speed (0 to 8000 rpm), what raises the permitted torque (0 to 10,000 tenths of Nm), whether the unit is
/// reset at the tick, and whether the driver brakes. Contracts see its `DriveRow`. It takes six bytes.
#[derive(Clone, Copy)]
pub struct Drive {
    pedal_word: PedalWord,
    speed: u16,
    raise: u16,
}

impl Model for Drive {
    ghost use Rattle.eg_num.specs.Drive.{DriveRow, IsDrive};

    ghost Value = { DriveRow };

    ghost view = { λ d. record {
      pedal = d.pedal_word.pedal;
      speed = d.speed;
      raise = d.raise;
      reset = d.pedal_word.reset;
      brake = d.pedal_word.brake;
    } };

    ghost invariant = { λ d. IsDrive (record {
      pedal = d.pedal_word.pedal;
      speed = d.speed;
      raise = d.raise;
      reset = d.pedal_word.reset;
      brake = d.pedal_word.brake;
    }) };

    ghost inverse = { λ r. record {
      pedal_word = record { pedal = r.pedal; reset = r.reset; brake = r.brake };
      speed = r.speed;
      raise = r.raise;
    } };
}

impl Drive {
    /// This row, or None where one of the numbers is above its limit.
    pub fn new(pedal: u16, speed: u16, raise: u16, reset: bool, brake: bool) -> Option<Drive>
        ensures { let row : DriveRow = record {
          pedal = pedal;
          speed = speed;
          raise = raise;
          reset = reset;
          brake = brake;
        } in SomeIff result (IsDrive row) row }
    {
        if pedal <= 1000 && speed <= 8000 && raise <= 10_000 {
            Some(Drive {
                pedal_word: PedalWord::new(pedal, reset, brake),
                speed,
                raise,
            })
        } else {
            None
        }
    }

    /// The pedal, in per mille.
    pub fn pedal(&self) -> u16
        ensures pedal { result ≡ self.now.pedal }
        ensures drive { IsDrive self.now }
    {
        self.pedal_word.pedal()
    }

    /// The speed, in rpm.
    pub fn speed(&self) -> u16
        ensures speed { result ≡ self.now.speed }
        ensures drive { IsDrive self.now }
    {
        self.speed
    }

    /// What raises the permitted torque, in tenths of Nm.
    pub fn raise(&self) -> u16
        ensures raise { result ≡ self.now.raise }
        ensures drive { IsDrive self.now }
    {
        self.raise
    }

    /// Whether the unit is reset at the tick.
    pub fn reset(&self) -> bool
        ensures reset { result ≡ self.now.reset }
        ensures drive { IsDrive self.now }
    {
        self.pedal_word.reset()
    }

    /// Whether the driver brakes.
    pub fn brake(&self) -> bool
        ensures brake { result ≡ self.now.brake }
        ensures drive { IsDrive self.now }
    {
        self.pedal_word.brake()
    }
}

impl PartialEq for Drive {
    ghost eq = { is_same_row };

    ghost laws = { partial_equiv_from_equiv is_same_row-equality };

    fn eq(&self, other: &Drive) -> bool {
        self.pedal_word == other.pedal_word
            && self.speed == other.speed
            && self.raise == other.raise
    }
}

impl Eq for Drive {
    ghost laws = { is_same_row-equality };
}
