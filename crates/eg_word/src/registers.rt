// The registers and the state of level 1's machine.
ghost use Rattle.std.specs.Prelude.{◌≡◌, true, false, slice_set, if◌then◌else◌};
ghost use Rattle.eg_word.specs.declared.registers.State.TheVariants.{Waiting, Trapped};
ghost use Rattle.eg_word.specs.Machine.{reg, next, beyond};
ghost use Rattle.eg_word.specs.World.{new_registers};

use crate::Register;

/// Why level 1's machine was trapped (docs/FORMATS.md, "Instructions").
#[derive(Clone, Copy, PartialEq, Eq)]
pub enum Trap {
    /// `pc` lies outside the code.
    Fetch,
    /// A load that isn't allowed.
    Load,
    /// A store that isn't allowed.
    Store,
    /// A word that is no instruction.
    Illegal,
}

/// Whether level 1's machine runs (docs/CONCEPT.md, "Level 1").
#[derive(Clone, Copy, PartialEq, Eq)]
pub enum State {
    /// The machine does the instruction at `pc` next.
    Running,
    /// The machine waits for its next slice.
    Waiting,
    /// The machine was stopped, to the end of the span.
    Trapped(Trap),
}

/// The machine that runs level 1 (docs/CONCEPT.md, "Level 1"). Its memory isn't a part of it.
#[derive(Clone, Copy, PartialEq, Eq)]
pub struct Registers {
    /// The address of the instruction that is done next. The field stands before the registers, so that the
    /// compiler sees that writing to a register doesn't change it.
    pub pc: u16,
    /// Whether it runs.
    pub state: State,
    /// The eight registers.
    pub r: [u16; 8],
}

impl Registers {
    /// A machine at its start: all registers and `pc` are 0, and it runs.
    #[tactic(auto, unfolding(crate::specs::World::new_registers))]
    pub fn new() -> Registers
        ensures { result ≡ new_registers }
    {
        Registers {
            pc: 0,
            state: State::Running,
            r: [0; 8],
        }
    }

    /// The word in a register.
    #[inline]
    #[tactic(auto, unfolding(crate::specs::Machine::reg))]
    pub(crate) fn get(&self, register: Register) -> u16
        ensures { result ≡ reg self.now register }
    {
        self.r[register.index()]
    }

    /// The address behind that of the instruction at `pc`.
    #[inline]
    #[tactic(auto, unfolding(crate::specs::Machine::next))]
    pub(crate) fn next(&self) -> u16
        ensures { result ≡ next self.now }
    {
        self.pc.wrapping_add(1)
    }

    /// The address at this distance from the next instruction.
    #[inline]
    #[tactic(auto, unfolding(crate::specs::Machine::beyond))]
    pub(crate) fn beyond(&self, distance: i16) -> u16
        ensures { result ≡ beyond self.now distance }
    {
        self.next().wrapping_add_signed(distance)
    }

    /// Puts a word into a register, and goes to the next instruction. This function and those below answer
    /// whether the machine runs on.
    #[inline]
    #[tactic(auto, unfolding(crate::specs::Machine::next))]
    pub(crate) fn set(&mut self, register: Register, word: u16) -> bool
        ensures runs { result ≡ true }
        ensures set { self.new
            ≡ record self.old { r = slice_set self.old.r register word; pc = next self.old } }
    {
        self.r[register.index()] = word;
        self.pc = self.next();
        true
    }

    /// Goes to the instruction at this address.
    #[inline]
    pub(crate) fn jump(&mut self, address: u16) -> bool
        ensures runs { result ≡ true }
        ensures jumps { self.new ≡ record self.old { pc = address } }
    {
        self.pc = address;
        true
    }

    /// Goes to the address at this distance from the next instruction where the condition holds, else to the
    /// next instruction.
    #[inline]
    pub(crate) fn jump_if(&mut self, condition: bool, distance: i16) -> bool
        ensures runs { result ≡ true }
        ensures jumps { self.new
            ≡ record self.old { pc = if condition then beyond self.old distance else next self.old } }
    {
        self.pc = if condition {
            self.beyond(distance)
        } else {
            self.next()
        };
        true
    }

    /// Waits for the next slice, at the next instruction.
    #[inline]
    #[tactic(auto, unfolding(crate::specs::Machine::next))]
    pub(crate) fn wait(&mut self) -> bool
        ensures ends { result ≡ false }
        ensures waits { self.new ≡ record self.old { state = Waiting; pc = next self.old } }
    {
        self.state = State::Waiting;
        self.pc = self.next();
        false
    }

    /// Stops the machine; registers and `pc` stay.
    #[inline]
    pub(crate) fn trap(&mut self, trap: Trap) -> bool
        ensures ends { result ≡ false }
        ensures traps { self.new ≡ record self.old { state = Trapped trap } }
    {
        self.state = State::Trapped(trap);
        false
    }
}
