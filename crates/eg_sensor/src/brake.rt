// The brake: what its contacts say, and what counts while it is pressed.
ghost use Rattle.std.specs.Prelude.{◌≡◌};
ghost use Rattle.eg_sensor.specs.Brake.{sound_contacts, is_pressed, gated};

use crate::Readings;

/// What sound contacts of the brake read: 1 and 0 where it is pressed, else 0 and 1 (docs/CONCEPT.md, "The
/// brake").
pub fn contacts(pressed: bool) -> [u16; 2]
    ensures { result ≡ sound_contacts pressed }
{
    if pressed { [1, 0] } else { [0, 1] }
}

/// Whether the unit takes the brake as pressed: the first contact doesn't read 0, or the second reads 0
/// (docs/CONCEPT.md, "The brake").
pub fn pressed(contacts: [u16; 2]) -> bool
    ensures { result ≡ is_pressed contacts }
{
    contacts[0] != 0 || contacts[1] == 0
}

/// The readings gated, as they count while the brake is taken as pressed: pedal and raise read what sound
/// tracks read at 0, and all else is as it was (docs/CONCEPT.md, "The brake").
pub fn gate(r: &Readings) -> Readings
    ensures { result ≡ gated r.now }
{
    Readings {
        pedal: [0, 1000],
        raise: 0,
        raise_check: u16::MAX,
        ..*r
    }
}
