// Which faults are valid, just beyond the ranges of each class. (Accepted files say which are valid within.)
use eg_fault::{Class, Fault, Script};
use std::test::Fail;

fn is_valid(onset: u32, class: Class) -> bool {
    Fault { onset, class }.valid()
}

/// Whether a lapse at one tick of the list is valid.
fn takes_lapse(after: &[u16], every: u16) -> Result<bool, Fail> {
    let after = Script::new(after).ok_or("no script")?;
    Ok(is_valid(0, Class::Lapse { after, every }))
}

#[test]
fn faults_beyond_their_ranges_are_not_valid(rt: HostRuntime) -> Result<(), Fail> {
    let values = Script::new(&[0]).ok_or("no script")?;
    assert!(rt; !is_valid(0, Class::Script { track: 10, values }));
    assert!(rt;
        !takes_lapse(&[20_000], 0)? && !takes_lapse(&[3, 3], 0)? && !takes_lapse(&[3], 20_001)?
    );
    assert!(rt; is_valid(19_999, Class::Halt) && !is_valid(20_000, Class::Halt));
    for (track, add) in [(10, 1), (9, 0), (9, 65_536), (9, -65_536)] {
        assert!(rt; !is_valid(0, Class::Offset { track, add }));
    }
    for (module, mask) in [(0, 1), (6, 1), (1, 0)] {
        assert!(rt; !is_valid(0, Class::Disturb { module, mask }));
    }
    for (word, mask) in [(32, 1), (31, 0)] {
        assert!(rt; !is_valid(0, Class::Flip { word, mask }));
    }
    for path in [0, 3] {
        assert!(rt; !is_valid(0, Class::PathOpen { path }));
    }
    assert!(rt; !is_valid(0, Class::Bus { mask: 0 }) && !is_valid(0, Class::Plate { at: 1001 }));
    assert!(rt;
        !is_valid(0, Class::Skip { module: 8 }) && !is_valid(0, Class::Timing { offset: 100 })
    );
    Ok(())
}
