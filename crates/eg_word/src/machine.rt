// One step of level 1's machine over a guarded memory.
ghost use Rattle.std.specs.Prelude.{◌≡◌, ◌≢◌, ℕ, Option, IsTrue, IsFalse, IfOk};
ghost use Rattle.std.specs.Option.{option_copied, ForSome};
ghost use Rattle.eg_word.specs.declared.instruction.Instruction.TheVariants.{Ld, St};
ghost use Rattle.eg_word.specs.declared.registers.State.TheVariants.{Running, Trapped};
ghost use Rattle.eg_word.specs.Alone;
ghost use Rattle.eg_word.specs.Alone.{alone};
ghost use Rattle.eg_word.specs.Machine.{effect, no_store, load_into, store_at, step as one_step};
ghost use Rattle.eg_word.specs.Memory.{load_from};
ghost use Rattle.eg_word.specs.Program.{IsProgramOf};
ghost use Rattle.eg_word.specs.Steps.{Makes, IsOneStep};

use crate::program::loaded_at;
use crate::{Instruction, Program, Register, Registers, State, Trap};
use eg_base::NoMemory;
use eg_guard::{Guarded, StoreRefusal, Who};

/// One step of level 1's machine over a guarded memory: the instruction at `pc` is done
/// (docs/CONCEPT.md, "Level 1"). NoMemory changes nothing.
///
/// Claim 27 (C21, F43; `step`): A step of level 1 does what the table of instructions says, and nothing else.
#[tactic(auto, using(crate::proofs::StepLaws::step_laws))]
pub fn step<M: Guarded>(registers: &mut Registers, memory: &mut M) -> Result<(), NoMemory>
    // The call makes one step of the table of instructions, and of level 1's private world.
    ensures step { IsOneStep registers.old registers.new (M.shows memory.old) (M.shows memory.new) result }

    // A machine that doesn't run stays as it is, and changes nothing.
    ensures idle { registers.old.state ≢ Running → registers.new ≡ registers.old }
    ensures idle_words { registers.old.state ≢ Running
        → (M.shows memory.new).words ≡ (M.shows memory.old).words }

    // A trap leaves registers, pc and memory.
    ensures trap { (trap : Trap) → registers.new.state ≡ Trapped trap
        → registers.new ≡ record registers.old { state = Trapped trap } }
    ensures trap_words { (trap : Trap) → registers.new.state ≡ Trapped trap
        → (M.shows memory.new).words ≡ (M.shows memory.old).words }
{
    advance(registers, memory)
}

/// One step of a machine that runs, as `step` does it (docs/CONCEPT.md, "Level 1"). It answers whether the
/// machine runs on, so that a caller who makes many steps needn't look at the state before each. Where the
/// caller hands over the program of the memory's code, no word is decoded. NoMemory changes nothing.
#[inline]
#[tactic(auto, using(crate::proofs::StepLaws::step_laws))]
pub fn step_on<M: Guarded>(
    registers: &mut Registers,
    memory: &mut M,
    program: Option<&Program>,
) -> Result<bool, NoMemory>
    requires running { registers.old.state ≡ Running }
    requires program { ForSome (option_copied program) (IsProgramOf (M.shows memory.old).words) }
    ensures step { IsOneStep registers.old registers.new (M.shows memory.old) (M.shows memory.new) result }

    // The machine runs on exactly if the answer is true.
    ensures runs { IfOk result (λ runs. IsTrue runs → registers.new.state ≡ Running) }
    ensures ends { IfOk result (λ runs. IsFalse runs → registers.new.state ≢ Running) }
{
    fetch(registers, memory, program)
}

/// One step of a machine that runs, over its program alone, or None where the step loads or stores, or leaves
/// the code.
#[tactic(auto, unfolding(crate::specs::Alone::after_alone, crate::specs::Alone::needs_memory))]
pub fn step_alone(registers: &Registers, program: &Program) -> Option<Registers>
    ensures { result ≡ alone program.now registers.now }
{
    let instruction = program.instruction_at(registers.pc)?;
    if needs_memory(instruction) {
        return None;
    }
    let mut next = *registers;
    compute(instruction, &mut next);
    Some(next)
}

/// Whether an instruction loads or stores.
#[tactic(auto, unfolding(crate::specs::Alone::needs_memory))]
fn needs_memory(instruction: &Instruction) -> bool
    ensures { result ≡ Alone.needs_memory instruction.now }
{
    matches!(
        *instruction,
        Instruction::Ld { .. } | Instruction::St { .. }
    )
}

/// `step`, said by the table of instructions alone: does the instruction at `pc`, where the machine runs.
#[inline]
#[tactic(auto, unfolding(crate::specs::Machine::step_in, crate::specs::Memory::load_from))]
fn advance<M: Guarded>(registers: &mut Registers, memory: &mut M) -> Result<(), NoMemory>
    ensures { Makes (one_step (load_from (M.shows memory.old).words) registers.old) registers.old
        registers.new (M.shows memory.old) (M.shows memory.new) result }
{
    let State::Running = registers.state else {
        return Ok(());
    };
    fetch(registers, memory, None)?;
    Ok(())
}

/// Does the instruction at `pc`, and tells whether the machine runs on.
#[inline]
fn fetch<M: Guarded>(
    registers: &mut Registers,
    memory: &mut M,
    program: Option<&Program>,
) -> Result<bool, NoMemory>
    requires running { registers.old.state ≡ Running }
    requires program { ForSome (option_copied program) (IsProgramOf (M.shows memory.old).words) }
    ensures makes { Makes (one_step (load_from (M.shows memory.old).words) registers.old) registers.old
        registers.new (M.shows memory.old) (M.shows memory.new) result }
    ensures runs { IfOk result (λ runs. IsTrue runs → registers.new.state ≡ Running) }
    ensures ends { IfOk result (λ runs. IsFalse runs → registers.new.state ≢ Running) }
{
    match program {
        Some(program) => fetch_decoded(registers, memory, program),
        None => fetch_loaded(registers, memory),
    }
}

/// `fetch` with the program of the memory's code.
#[inline]
#[tactic(auto, using(crate::proofs::ProgramLemmas::code_loaded), unfolding(crate::specs::Machine::step_in))]
fn fetch_decoded<M: Guarded>(
    registers: &mut Registers,
    memory: &mut M,
    program: &Program,
) -> Result<bool, NoMemory>
    requires running { registers.old.state ≡ Running }
    requires program { IsProgramOf (M.shows memory.old).words program.now }
    ensures makes { Makes (one_step (load_from (M.shows memory.old).words) registers.old) registers.old
        registers.new (M.shows memory.old) (M.shows memory.new) result }
    ensures runs { IfOk result (λ runs. IsTrue runs → registers.new.state ≡ Running) }
    ensures ends { IfOk result (λ runs. IsFalse runs → registers.new.state ≢ Running) }
{
    let Ok(instruction) = program.decoded_at(memory, registers.pc) else {
        return Ok(registers.trap(Trap::Fetch));
    };
    execute(instruction, registers, memory)
}

/// `fetch` without a program: decodes the word that stands in the memory.
#[inline]
#[tactic(auto, using(crate::proofs::ProgramLemmas::code_loaded), unfolding(crate::specs::Machine::step_in))]
fn fetch_loaded<M: Guarded>(registers: &mut Registers, memory: &mut M) -> Result<bool, NoMemory>
    requires running { registers.old.state ≡ Running }
    ensures makes { Makes (one_step (load_from (M.shows memory.old).words) registers.old) registers.old
        registers.new (M.shows memory.old) (M.shows memory.new) result }
    ensures runs { IfOk result (λ runs. IsTrue runs → registers.new.state ≡ Running) }
    ensures ends { IfOk result (λ runs. IsFalse runs → registers.new.state ≢ Running) }
{
    let Ok(instruction) = loaded_at(memory, registers.pc) else {
        return Ok(registers.trap(Trap::Fetch));
    };
    execute(&instruction, registers, memory)
}

// What an instruction does, and whether the machine runs on. A caller says what becomes of loads and stores.
// By a macro each of the two callers has one table to jump by.
macro_rules! perform {
    ($instruction:ident, $registers:ident, $($memory:tt)*) => {
        match *$instruction {
            $($memory)*
            Instruction::Nop => $registers.jump($registers.next()),
            Instruction::Ldi { a, n } => $registers.set(a, n),
            Instruction::Ldx { a, n } => {
                $registers.set(a, $registers.get(a).wrapping_mul(128).wrapping_add(n % 128))
            }
            Instruction::Mov { a, b } => $registers.set(a, $registers.get(b)),
            Instruction::Add { a, b, c } => {
                $registers.set(a, $registers.get(b).wrapping_add($registers.get(c)))
            }
            Instruction::Sub { a, b, c } => {
                $registers.set(a, $registers.get(b).wrapping_sub($registers.get(c)))
            }
            Instruction::And { a, b, c } => $registers.set(a, $registers.get(b) & $registers.get(c)),
            Instruction::Or { a, b, c } => $registers.set(a, $registers.get(b) | $registers.get(c)),
            Instruction::Xor { a, b, c } => $registers.set(a, $registers.get(b) ^ $registers.get(c)),
            Instruction::Shr { a, b, n } => $registers.set(a, $registers.get(b).wrapping_shr(n.into())),
            Instruction::Mul { a, b, c } => {
                $registers.set(a, $registers.get(b).wrapping_mul($registers.get(c)))
            }
            Instruction::Jz { a, d } => $registers.jump_if($registers.get(a) == 0, d),
            Instruction::Jlt { a, b, d } => $registers.jump_if(
                $registers.get(a) < $registers.get(b),
                i16::from(d),
            ),
            Instruction::Wait => $registers.wait(),
            Instruction::Jr { a } => $registers.jump($registers.get(a)),
            Instruction::Illegal => $registers.trap(Trap::Illegal),
        }
    };
}

/// Does an instruction, and tells whether the machine runs on.
#[inline(always)]
#[tactic(auto, using(crate::proofs::MachineLemmas::loads_stored), unfolding(crate::specs::Machine::effect))]
fn execute<M: Guarded>(
    instruction: &Instruction,
    registers: &mut Registers,
    memory: &mut M,
) -> Result<bool, NoMemory>
    ensures makes { Makes (effect (load_from (M.shows memory.old).words) registers.old instruction.now)
        registers.old registers.new (M.shows memory.old) (M.shows memory.new) result }
    ensures runs { IfOk result (λ runs. IsTrue runs → registers.new.state ≡ registers.old.state) }
    ensures ends { IfOk result (λ runs. IsFalse runs → registers.new.state ≢ Running) }
{
    let runs = perform!(instruction, registers,
        Instruction::Ld { a, b, n } => {
            let address = registers.get(b).wrapping_add(u16::from(n));
            load(registers, memory, a, address)
        }
        Instruction::St { a, b, n } => {
            let address = registers.get(b).wrapping_add(u16::from(n));
            return store(registers, memory, address, registers.get(a));
        }
    );
    Ok(runs)
}

/// Does an instruction that needs no memory.
#[tactic(auto, unfolding(crate::specs::Machine::effect))]
fn compute(instruction: &Instruction, registers: &mut Registers)
    requires no_load { (a b n : ℕ) → instruction.now ≢ Ld a b n }
    requires no_store { (a b n : ℕ) → instruction.now ≢ St a b n }
    ensures { (load : ℕ → Option ℕ)
        → effect load registers.old instruction.now ≡ no_store registers.new }
{
    let _runs =
        perform!(instruction, registers, Instruction::Ld { .. } | Instruction::St { .. } => unreachable!(),);
}

/// Puts the word at that address into a register, or traps where level 1 may not load it. Tells whether the
/// machine runs on.
#[inline]
#[tactic(auto, unfolding(crate::specs::Machine::load_into, crate::specs::Memory::load_from))]
fn load<M: Guarded>(registers: &mut Registers, memory: &M, a: Register, address: u16) -> bool
    ensures registers { registers.new
        ≡ (load_into registers.old a (load_from (M.shows memory.now).words address)).registers }
    ensures runs { IsTrue result → registers.new.state ≡ registers.old.state }
    ensures ends { IsFalse result → registers.new.state ≢ Running }
{
    match memory.load(Who::Level1, address) {
        Ok(word) => registers.set(a, word),
        Err(_) => registers.trap(Trap::Load),
    }
}

/// Stores a word at that address, or traps where level 1 may not store there. Tells whether the machine
/// runs on.
#[inline]
#[tactic(auto, unfolding(crate::specs::Machine::store_at))]
fn store<M: Guarded>(
    registers: &mut Registers,
    memory: &mut M,
    address: u16,
    word: u16,
) -> Result<bool, NoMemory>
    ensures makes { Makes (store_at registers.old address word) registers.old registers.new
        (M.shows memory.old) (M.shows memory.new) result }
    ensures runs { IfOk result (λ runs. IsTrue runs → registers.new.state ≡ registers.old.state) }
    ensures ends { IfOk result (λ runs. IsFalse runs → registers.new.state ≢ Running) }
{
    let runs = match memory.store(Who::Level1, address, word) {
        Ok(()) => registers.jump(registers.next()),
        Err(StoreRefusal::Refused) => registers.trap(Trap::Store),
        Err(StoreRefusal::Memory) => return Err(NoMemory),
    };
    Ok(runs)
}
