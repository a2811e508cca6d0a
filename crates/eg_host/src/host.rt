// Level 1's machine, and the slices in which it runs.
ghost use Rattle.std.specs.Prelude.{◌≡◌, ◌↔◌, IsTrue};
ghost use Rattle.std.specs.Option.{option_copied, ForSome};
ghost use Rattle.eg_word.specs.declared.registers.State.TheVariants.{Running};
ghost use Rattle.eg_word.specs.Program.{IsProgramOf};
ghost use Rattle.eg_word.specs.World.{new_registers};
ghost use Rattle.eg_host.specs.Slices;
ghost use Rattle.eg_host.specs.Slices.{IsSlice};

use eg_base::NoMemory;
use eg_guard::Guarded;
use eg_word::{Program, Registers, State, step_on};

/// Level 1, which runs in slices (docs/CONCEPT.md, "Level 1").
#[derive(Clone, Copy)]
pub struct Host {
    /// Its machine.
    pub registers: Registers,
}

impl Host {
    /// Level 1 at its start.
    pub fn new() -> Host
        ensures { result.registers ≡ new_registers }
    {
        Host {
            registers: Registers::new(),
        }
    }

    /// A slice: wakes a machine that waits, and then does at most `budget` steps. NoMemory ends the slice
    /// early; the steps before it stand (docs/CONCEPT.md, "Level 1").
    pub fn slice<M: Guarded>(&mut self, memory: &mut M, budget: u16) -> Result<(), NoMemory>
        ensures { IsSlice budget self.old.registers self.new.registers
            (M.shows memory.old) (M.shows memory.new) result }
    {
        self.run(memory, None, budget)
    }

    /// A slice with or without a program. It is inlined, so that it is compiled once for each of these.
    #[inline(always)]
    pub(crate) fn run<M: Guarded>(
        &mut self,
        memory: &mut M,
        program: Option<&Program>,
        budget: u16,
    ) -> Result<(), NoMemory>
        requires { ForSome (option_copied program) (IsProgramOf (M.shows memory.old).words) }
        ensures { IsSlice budget self.old.registers self.new.registers
            (M.shows memory.old) (M.shows memory.new) result }
    {
        self.registers.state = wake(self.registers.state);
        if !is_running(self.registers.state) {
            return Ok(());
        }
        for _done in 0..budget {
            if !step_on(&mut self.registers, memory, program)? {
                break;
            }
        }
        Ok(())
    }
}

/// The state in which a slice begins.
#[tactic(auto, unfolding(crate::specs::Slices::wake))]
fn wake(state: State) -> State
    ensures { result ≡ Slices.wake state }
{
    match state {
        State::Waiting => State::Running,
        other => other,
    }
}

/// Whether a machine in that state does instructions.
fn is_running(state: State) -> bool
    ensures { IsTrue result ↔ (state ≡ Running) }
{
    matches!(state, State::Running)
}
