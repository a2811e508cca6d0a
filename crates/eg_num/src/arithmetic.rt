// Rules on single numbers.
ghost use Rattle.std.specs.Prelude.{◌≡◌, ◌*◌, ◌<◌, ◌≤◌, length};
ghost use Rattle.std.specs.List.{sum};
ghost use Rattle.eg_num.specs.Arithmetic.{moved_toward};
ghost use Rattle.eg_num.specs.Interpolation.{lerp};

/// The value at `x` on the line through `(x0, y0)` and `(x1, y1)`, rounded down (docs/CONCEPT.md,
/// "Interpolation").
pub fn lerp_floor(x0: u16, y0: u16, x1: u16, y1: u16, x: u16) -> u16
    requires apart { x0 < x1 }
    requires from { x0 ≤ x }
    requires to { x ≤ x1 }
    ensures { result ≡ lerp x0 y0 x1 y1 x }
{
    let low = u32::from(y0) * u32::from(x1 - x);
    let high = u32::from(y1) * u32::from(x - x0);
    ((low + high) / u32::from(x1 - x0)) as u16
}

/// The value `now` moved toward `target` by at most `most`: the target itself where it lies within reach
/// (docs/CONCEPT.md, "Units").
pub fn toward(now: u16, target: u16, most: u16) -> u16
    ensures { result ≡ moved_toward now target most }
{
    if now <= target {
        if target - now <= most {
            target
        } else {
            now + most
        }
    } else if now - target <= most {
        target
    } else {
        now - most
    }
}

/// The sum of at most nine numbers.
pub fn total(numbers: &[u16]) -> u64
    requires { length numbers.now ≤ 9 }
    ensures sum { result ≡ sum numbers.now }
    ensures bound { result ≤ 9 * 65535 }
{
    let mut total = 0;
    for number in numbers {
        total += u64::from(*number);
    }
    total
}
