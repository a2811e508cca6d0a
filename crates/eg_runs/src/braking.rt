// Runs with a brake, worked out from the definitions. None of these functions does anything when it runs.
ghost use Rattle.std.specs.Prelude.{◌≡◌, pos, negsuc, true, false, [], ◌∷◌, map, Some, None};
ghost use Rattle.eg_fault.specs.declared.class.Class.TheVariants.{Script, Offset, Bus};
ghost use Rattle.eg_record.specs.declared.watch.Watch.TheVariants as found;
ghost use Rattle.eg_model.specs.Examples.{idle, full, raise_reader, fault_from, run_of, report_on, reported, moments_in_time, rows_in_time};
ghost use Rattle.eg_runs.specs.Braking.{braking_run, pressed, row_told, told_under, seen_under, held_throttle_drive};

/// One tick with the pedal pressed right down at 800 rpm and a raise of 600. Where the driver brakes and the
/// brake counts, level 2 uses the pedal 0, and level 2 and the drive row both permit 200, also where the
/// first contact reads 0. Where the second contact reads 0 though nobody brakes, level 2 permits 200 and the
/// drive row 2000. Where nobody brakes, or the brake doesn't count, both permit 2000.
pub fn braking_ticks()
    ensures braked { rows_in_time (braking_run idle None (pressed true ∷ [])) ≡ row_told true 200 0 200 ∷ [] }
    ensures one_contact { told_under (Script 8 (0 ∷ [])) true ≡ row_told true 200 0 200 ∷ [] }
    ensures falsely { told_under (Script 9 (0 ∷ [])) false ≡ row_told false 2000 0 200 ∷ [] }
    ensures free { rows_in_time (braking_run idle None (pressed false ∷ []))
        ≡ row_told false 2000 1000 2000 ∷ [] }
    ensures without_brake { rows_in_time (run_of idle None (pressed true ∷ []))
        ≡ row_told true 2000 1000 2000 ∷ [] }
{}

/// Contacts that read other numbers than 0 and 1. The first one says "pressed" where it reads 5. The second
/// one doesn't say so where it reads 5 or 6, but does where an offset takes it down to 0. Gating comes after
/// what faults do to the pedal's tracks and to the raise, and level 1 reads the gated raise.
pub fn contacts_and_gates()
    ensures first { seen_under (Offset 8 (pos 5)) false ≡ (0 ∷ 200 ∷ 100 ∷ 0 ∷ 0 ∷ []) ∷ [] }
    ensures second { seen_under (Offset 9 (pos 5)) true ≡ (0 ∷ 200 ∷ 100 ∷ 0 ∷ 0 ∷ []) ∷ [] }
    ensures second_free { seen_under (Offset 9 (pos 5)) false ≡ (1000 ∷ 2000 ∷ 100 ∷ 0 ∷ 0 ∷ []) ∷ [] }
    ensures second_down { seen_under (Offset 9 (negsuc 0)) false ≡ (0 ∷ 200 ∷ 100 ∷ 0 ∷ 0 ∷ []) ∷ [] }
    ensures track { seen_under (Script 1 (500 ∷ [])) true ≡ (0 ∷ 200 ∷ 100 ∷ 0 ∷ 0 ∷ []) ∷ [] }
    ensures bus { map (λ m. m.world.throttle) (moments_in_time
        (braking_run raise_reader (fault_from 0 (Bus 1)) (pressed true ∷ []))) ≡ 0 ∷ [] }
    ensures bus_free { map (λ m. m.world.throttle) (moments_in_time
        (braking_run raise_reader (fault_from 0 (Bus 1)) (pressed false ∷ []))) ≡ 601 ∷ [] }
{}

/// Level 1 holds full throttle, and from tick 20 on the driver brakes: the torque of 2000 and more exceeds
/// the 100 that are permitted from then on, and is cut one tick after the fifth tick of excess, also where
/// the first contact is stuck at 0. Where the brake doesn't count nothing is found.
pub fn held_throttle_run()
    ensures cut { report_on (braking_run full None held_throttle_drive)
        ≡ reported (Some (found.Torque, 24)) (Some 25) None (Some 24) }
    ensures one_contact { report_on (braking_run full (fault_from 0 (Script 8 (0 ∷ []))) held_throttle_drive)
        ≡ reported (Some (found.Torque, 24)) (Some 25) None (Some 24) }
    ensures without_brake { report_on (run_of full None held_throttle_drive) ≡ reported None None None None }
{}
