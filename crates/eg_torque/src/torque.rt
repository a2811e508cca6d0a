// The torque estimate of a load, and its excess over the permitted torque.
ghost use Rattle.std.specs.Prelude.{◌≡◌, ℕ, ◌*◌, ◌≤◌, ◌<◌};
ghost use Rattle.eg_num.specs.Arithmetic.{estimate};
ghost use Rattle.eg_torque.specs.Excess.{is_excess};

/// The torque estimate of a load (0 to 1000) at full ignition efficiency, in tenths of Nm, where `kt` is the
/// torque of a load of 1000 (docs/CONCEPT.md, "Torque"). It is rounded up, and is at most 65,535.
pub fn actual(load: u16, kt: u16) -> u16
    ensures value { result ≡ estimate kt load }
    // Below 65,535 the estimate covers the torque of the load.
    ensures covers { result < 65535 → load * kt ≤ 1000 * result }
    // No smaller number covers that torque.
    ensures least { (n : ℕ) → load * kt ≤ 1000 * n → result ≤ n }
{
    let torque = (u32::from(load) * u32::from(kt)).div_ceil(1000);
    u16::try_from(torque).unwrap_or(u16::MAX)
}

/// Whether an estimate is more than the permitted torque and the threshold together, all in tenths of Nm.
/// A tie is no excess (docs/CONCEPT.md, "Torque").
pub fn excess(estimate: u16, permitted: u16, threshold: u16) -> bool
    ensures { result ≡ is_excess estimate permitted threshold }
{
    u32::from(estimate) > u32::from(permitted) + u32::from(threshold)
}
