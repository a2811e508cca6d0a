// The ramp down which the permitted torque falls.
ghost use Rattle.std.specs.Prelude.{◌≡◌};
ghost use Rattle.eg_torque.specs.Ramp.{ramped};

/// The fall that stands for no ramp (docs/CONCEPT.md, "Torque"): what is permitted then falls at once.
pub const NO_RAMP: u16 = u16::MAX;

/// The permitted torque of a tick, in tenths of Nm (docs/CONCEPT.md, "Torque"): what the driver demands
/// (`demand`), or the permitted torque of the tick before less what it may fall by in a tick (`fall`), if
/// that is more.
#[inline]
pub fn ramped(fall: u16, before: u16, demand: u16) -> u16
    ensures { result ≡ ramped fall before demand }
{
    demand.max(before.saturating_sub(fall))
}
