// The columns of a recording.
ghost use Rattle.std.specs.Prelude.{◌≡◌};
ghost use Rattle.eg_input.specs.Recording.{columns_of};

use crate::line::before_return;

/// The columns of a recording: ten of the sensors' readings, with the brake's contacts or without.
#[derive(Clone, Copy)]
pub enum Columns {
    /// pedal1, pedal2, plate1, plate2, load1, load2, speed1, speed2, raise, check
    WithoutBrake,
    /// The same, with brake1 and brake2 behind them.
    WithBrake,
}

/// The first line where the brake has no columns.
const HEADER: &[u8] = b"pedal1,pedal2,plate1,plate2,load1,load2,speed1,speed2,raise,check";

/// The first line where it has.
const HEADER_WITH_BRAKE: &[u8] =
    b"pedal1,pedal2,plate1,plate2,load1,load2,speed1,speed2,raise,check,brake1,brake2";

/// The columns that the first line of a recording names, without its line feed; None where it is no header.
///
/// Claim 50 (F13): A line is taken as a header of recorded readings, or as a line that writes readings,
/// exactly if docs/FORMATS.md says so, and its columns or readings are those that it says.
#[tactic(auto, unfolding(crate::specs::Recording::columns_of, crate::specs::Recording::header))]
pub fn columns_of(line: &[u8]) -> Option<Columns>
    ensures { result ≡ columns_of line.now }
{
    let named = before_return(line);
    if named == HEADER {
        return Some(Columns::WithoutBrake);
    }
    if named == HEADER_WITH_BRAKE {
        return Some(Columns::WithBrake);
    }
    None
}
