// Runs that are worked out. The numbers were computed apart from the definitions. None of these functions
// does anything when it runs.
ghost use Rattle.std.specs.Prelude.{◌≡◌, ◌%◌, pos, false, [], ◌∷◌, ◌++◌, replicate, take, drop, None};
ghost use Rattle.eg_fault.specs.declared.class.Class.TheVariants as classes;
ghost use Rattle.eg_draw.specs.Draws.{next, draw};
ghost use Rattle.eg_draw.specs.Runs.{drawn_run, state_after};
ghost use Rattle.eg_draw.specs.Examples.{row, from_tick, ends};

/// The first run of the number 1: level 1 waits for ever, and from tick 1654 on a track reads four values in
/// turn.
pub fn the_first_run()
    ensures state { next 1 ≡ 1015568748 }
    ensures drawn { draw 1 ≡ 15496 }
    ensures kind { draw 1 % 4 ≡ 0 }
    ensures image { (drawn_run 1).image ≡ 0xf000 ∷ 0xd1fe ∷ [] }
    ensures begins { take 101 (drawn_run 1).drive
        ≡ replicate 100 (row 176 2640 195) ++ row 309 4212 274 ∷ [] }
    ensures stops { drop 1999 (drawn_run 1).drive ≡ row 622 4193 60 ∷ [] }
    ensures fault { (drawn_run 1).fault ≡ from_tick 1654 (classes.Script 1 (1 ∷ 105 ∷ 731 ∷ 10 ∷ [])) }
    ensures after { state_after 1 ≡ 131922181 }
{}

/// An image of each kind but the first.
pub fn images_of_each_kind()
    ensures full { (drawn_run 2).image
        ≡ 0x1210 ∷ 0x2210 ∷ 0x1407 ∷ 0x2468 ∷ 0xc440 ∷ 0xc441 ∷ 0xf000 ∷ 0xd1fe ∷ [] }
    ensures any { take 4 (drawn_run 8).image ≡ 275 ∷ 19477 ∷ 63176 ∷ 46911 ∷ [] }
    ensures any_last { drop 252 (drawn_run 8).image ≡ 36431 ∷ 1976 ∷ 62800 ∷ 7634 ∷ [] }
    ensures changed { (drawn_run 3).image
        ≡ 0x1210 ∷ 0x2210 ∷ 0x1401 ∷ 0x2428 ∷ 0xc440 ∷ 0xc441 ∷ 0xf000 ∷ 0xd1fe ∷ [] }
{}

/// A fault of each class, and none, with the state after the run.
pub fn faults_of_each_class()
    ensures script { ends 0 ≡ (from_tick 1660 (classes.Script 4 (933 ∷ 941 ∷ 654 ∷ 188 ∷ [])), 733971828) }
    ensures offset { ends 16 ≡ (from_tick 1223 (classes.Offset 3 (pos 471)), 2848906351) }
    ensures bus { ends 43 ≡ (from_tick 21 (classes.Bus 37996), 2490058709) }
    ensures plate { ends 13 ≡ (from_tick 1309 (classes.Plate 103), 2040432205) }
    ensures skip { ends 11 ≡ (from_tick 745 (classes.Skip 6), 3186537803) }
    ensures disturb { ends 8 ≡ (from_tick 965 (classes.Disturb 5 52751), 3457074439) }
    ensures flip { ends 10 ≡ (from_tick 1395 (classes.Flip 17 46905), 3073903137) }
    ensures halt { ends 24 ≡ (from_tick 994 classes.Halt, 589445277) }
    ensures timing { ends 26 ≡ (from_tick 1594 (classes.Timing 8), 1673066396) }
    ensures wild { ends 7 ≡ (from_tick 1482 (classes.Wild (35587 ∷ 48620 ∷ []) (false ∷ [])), 3186401530) }
    ensures path_1_closed { ends 21 ≡ (from_tick 1080 classes.Path1Closed, 595087182) }
    ensures path_2_closed { ends 5 ≡ (from_tick 1539 classes.Path2Closed, 625177342) }
    ensures path_open { ends 3 ≡ (from_tick 1064 (classes.PathOpen 1), 1073014125) }
    ensures lapse { ends 9 ≡ (from_tick 1630 (classes.Lapse (0 ∷ 1 ∷ 2 ∷ 3 ∷ 4 ∷ 5 ∷ 6 ∷ []) 0), 856074083) }
    ensures none { ends 12 ≡ (None, 1373246796) }
{}
