// Out of memory: over a memory that refuses one store, in a step, in a slice and in level 2.

use eg_guard::{Guarded, StingyMemory, Who};
use eg_host::Host;
use eg_level2::{Level2, Phase};
use eg_values::reference;
use eg_word::{Registers, State, step};

#[test]
fn a_step_that_is_refused_changes_nothing(rt: HostRuntime) {
    let mut memory = StingyMemory::new(1);
    assert!(rt; memory.store(Who::Board, 0, 0xc642).is_ok());
    let start = Registers {
        r: [0, 1022, 0, 0x1234, 0, 0, 0, 0],
        pc: 0,
        state: State::Running,
    };
    let mut registers = start;
    assert!(rt; step(&mut registers, &mut memory).is_err() && registers == start);
    assert!(rt; memory.load(Who::Level1, 1024) == Ok(0));
    assert!(rt; step(&mut registers, &mut memory).is_ok() && registers.pc == 1);
    assert!(rt; memory.load(Who::Level1, 1024) == Ok(0x1234));
}

/// An image that stores 77 at the first word of the data, and waits.
const IMAGE: [u16; 5] = [0x1208, 0x2200, 0x144d, 0xc440, 0xf000];

#[test]
fn a_slice_ends_at_a_step_that_is_refused(rt: HostRuntime) {
    let mut memory = StingyMemory::new(5);
    for address in 0..5u16 {
        let word = IMAGE[usize::from(address)];
        assert!(rt; memory.store(Who::Board, address, word).is_ok());
    }
    let mut host = Host::new();
    assert!(rt; host.slice(&mut memory, 5).is_err());
    assert!(rt; host.registers.state == State::Running && host.registers.pc == 3);
    assert!(rt; host.slice(&mut memory, 5).is_ok());
    assert!(rt; host.registers.state == State::Waiting && host.registers.pc == 5);
    assert!(rt; memory.load(Who::Level1, 1024) == Ok(77));
}

#[test]
fn level_2_keeps_what_was_stored_before_a_refusal(rt: HostRuntime) {
    let calibration = reference();
    let level2 = Level2::new(calibration.rules().copy(), calibration.questions().copy());
    // The reset takes 32 stores. Without the last of them the complement of the flow is there, and that of
    // the fold isn't.
    let mut memory = StingyMemory::new(31);
    assert!(rt; level2.reset(&mut memory).is_err());
    assert!(rt; memory.load(Who::Level2, 2120) == Ok(65280));
    assert!(rt; memory.load(Who::Level2, 2122) == Ok(0));
    let mut memory = StingyMemory::new(32);
    assert!(rt; level2.reset(&mut memory).is_ok());
    assert!(rt; level2.module(0, &mut memory, 0, Phase::Quiet, 0).is_err());
    assert!(rt; level2.module(0, &mut memory, 0, Phase::Quiet, 0).is_ok());
}
