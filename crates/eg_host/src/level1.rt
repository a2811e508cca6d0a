// Level 1 with the program of its code.
ghost use Rattle.std.specs.Prelude.{◌≡◌, ◌≤◌, length};
ghost use Rattle.eg_guard.specs.declared.regions.TheConstants.{DATA as CODE_END};
ghost use Rattle.eg_word.specs.declared.registers.State.TheVariants.{Waiting};
ghost use Rattle.eg_word.specs.Program.{IsProgramOf};
ghost use Rattle.eg_word.specs.World.{new_registers};
ghost use Rattle.eg_host.specs.Slices.{IsSlice};
ghost use Rattle.eg_host.specs.Level1.{RestsBeyond};

use crate::Host;
use eg_base::NoMemory;
use eg_guard::Guarded;
use eg_word::{Program, Registers, State, step_alone};
use std::marker::Model;

/// That no rest is known: no budget is greater.
const UNKNOWN: u16 = u16::MAX;

/// How many slices in a span may be looked at in vain for a rest, so that an image without one pays for few.
const TRIES: u8 = 8;

/// How many steps are looked at for a rest.
const LONGEST: u16 = 64;

/// Level 1 as the unit keeps it: its machine, and the program of its code, so that a slice decodes no word
/// (docs/CONCEPT.md, "Level 1"). Once a slice is seen to have changed nothing and to have needed no memory,
/// later slices of as many steps are passed over; so are those of a machine that is seen to be trapped.
///
/// Contracts see the machine and the program.
#[derive(Drop)]
pub struct Level1 {
    host: Host,
    /// A slice of more steps than these changes nothing.
    rest: u16,
    /// How many more slices of the span may be looked at in vain for a rest.
    tries: u8,
    program: Program,
}

impl Model for Level1 {
    ghost use Rattle.eg_host.specs.Level1.{Level1Parts, RestsBeyond};

    ghost Value = { Level1Parts };

    ghost view = { λ l. record { registers = l.host.registers; program = l.program } };

    ghost invariant = { λ l. RestsBeyond l.rest l.program l.host.registers };
}

impl Level1 {
    /// Level 1 at its start, with an image of at most 1,024 words.
    pub fn new(image: &[u16]) -> Level1
        requires { length image.now ≤ CODE_END }
        ensures registers { result.registers ≡ new_registers }
        ensures program { IsProgramOf image.now result.program }
    {
        Level1 {
            host: Host::new(),
            rest: UNKNOWN,
            tries: TRIES,
            program: Program::new(image),
        }
    }

    /// Puts level 1 at its start, with another image of at most 1,024 words, in the place of this one.
    pub fn reload(&mut self, image: &[u16])
        requires { length image.now ≤ CODE_END }
        ensures registers { self.new.registers ≡ new_registers }
        ensures program { IsProgramOf image.now self.new.program }
    {
        self.rest = UNKNOWN;
        self.program.load(image);
        self.restart();
    }

    /// Its machine.
    pub fn registers(&self) -> &Registers
        ensures { result.now ≡ self.now.registers }
    {
        &self.host.registers
    }

    /// Level 1 as a span begins: its machine is new, and its program stays.
    pub fn restart(&mut self)
        ensures { self.new ≡ record self.old { registers = new_registers } }
    {
        self.host = Host::new();
        self.rest = UNKNOWN;
        self.tries = TRIES;
    }

    /// An equal level 1. It takes no memory.
    pub fn copy(&self) -> Level1
        ensures { result ≡ self.now }
    {
        Level1 {
            host: self.host,
            rest: self.rest,
            tries: self.tries,
            program: self.program.copy(),
        }
    }

    /// A slice, as `Host::slice` does it, over a memory whose code is the program's.
    ///
    /// Claim 25 (C22, C23): Whatever the image, no slice changes a word outside level 1's data and outputs,
    /// even if memory runs out in it.
    #[inline(always)]
    pub fn slice<M: Guarded>(&mut self, memory: &mut M, budget: u16) -> Result<(), NoMemory>
        requires { IsProgramOf (M.shows memory.old).words self.old.program }
        ensures slice { IsSlice budget self.old.registers self.new.registers
            (M.shows memory.old) (M.shows memory.new) result }
        ensures program { self.new.program ≡ self.old.program }
    {
        if self.rest < budget {
            return Ok(());
        }
        if self.tries == 0 {
            return self.run(memory, budget);
        }
        self.run_and_look(memory, budget)
    }

    /// A slice of a machine that may not be at rest. It isn't compiled into each caller.
    #[inline(never)]
    fn run<M: Guarded>(&mut self, memory: &mut M, budget: u16) -> Result<(), NoMemory>
        requires { IsProgramOf (M.shows memory.old).words self.old.program }
        ensures slice { IsSlice budget self.old.registers self.new.registers
            (M.shows memory.old) (M.shows memory.new) result }
        ensures program { self.new.program ≡ self.old.program }
    {
        self.rest = UNKNOWN;
        self.host.run(memory, Some(&self.program), budget)
    }

    /// A slice of a machine that may not be at rest, and a look whether it rests then. It isn't compiled into
    /// each caller, so that a machine at which nothing is looked for any more doesn't pay for it.
    #[inline(never)]
    fn run_and_look<M: Guarded>(&mut self, memory: &mut M, budget: u16) -> Result<(), NoMemory>
        requires { IsProgramOf (M.shows memory.old).words self.old.program }
        ensures slice { IsSlice budget self.old.registers self.new.registers
            (M.shows memory.old) (M.shows memory.new) result }
        ensures program { self.new.program ≡ self.old.program }
    {
        let before = self.host.registers;
        self.run(memory, budget)?;
        match self.host.registers.state {
            State::Running => {}
            State::Waiting => self.look(&before),
            State::Trapped(_) => self.rest = 0,
        }
        Ok(())
    }

    /// Looks for a rest of a machine that waits, if the slice has led to the registers with which it began.
    fn look(&mut self, before: &Registers)
        requires { self.old.registers.state ≡ Waiting }
        ensures { self.new ≡ self.old }
    {
        if self.host.registers != *before {
            return;
        }
        self.rest = rest_of(&self.program, &self.host.registers);
        if self.rest == UNKNOWN {
            self.tries = self.tries.saturating_sub(1);
        }
    }
}

/// A number of steps beyond which this machine, which waits, is at rest over this program.
fn rest_of(program: &Program, registers: &Registers) -> u16
    requires { registers.now.state ≡ Waiting }
    ensures { RestsBeyond result program.now registers.now }
{
    let mut now = *registers;
    now.state = State::Running;
    for done in 0..LONGEST {
        let Some(next) = step_alone(&now, program) else {
            return UNKNOWN;
        };
        if next == *registers {
            return done;
        }
        let State::Running = next.state else {
            return UNKNOWN;
        };
        now = next;
    }
    UNKNOWN
}
