// Instructions whose targets aren't known yet.
ghost use Rattle.std.specs.Prelude.{◌+◌, ◌<◌};
ghost use Rattle.eg_asm.specs.Inner.Room.{room_of};

use crate::encoding::Jump;

/// An instruction as its line has it: its word without the target, in which there is room for the target, and
/// the target, if it has one.
#[derive(Clone, Copy)]
pub(crate) struct Instruction<'a> {
    pub(crate) word: u16,
    pub(crate) jump: Option<Jump<'a>>,
    ghost fits: { word + room_of jump < 65536 },
}
