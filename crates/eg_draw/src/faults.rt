// The faults of drawn runs.
ghost use Rattle.std.specs.Prelude.{◌≡◌, ◌≤◌, ◌<◌, ◌%◌, pos, false, [], ◌∷◌, length};
ghost use Rattle.eg_sensor.specs.declared.tracks.TheConstants.{PAIRED_TRACKS};
ghost use Rattle.eg_answer.specs.declared.modules.TheConstants.{PAIRS};
ghost use Rattle.eg_answer.specs.declared.words.TheConstants.{STORED_WORDS};
ghost use Rattle.eg_fault.specs.declared.class.Class.TheVariants as classes;
ghost use Rattle.eg_draw.specs.Draws.{next, draw, after, draws};
ghost use Rattle.eg_draw.specs.Runs.{one_of, drawn_mask, four_values, first_ticks, class_of, class_draws, fault_of, fault_draws};

use crate::Generator;
use eg_answer::{MODULES, PAIRS, STORED_WORDS};
use eg_fault::{Class, Fault, Opens, PATH_2, Script};
use eg_sensor::PAIRED_TRACKS;

/// The ticks of the longest lapse.
const TICKS: [u16; 8] = [0, 1, 2, 3, 4, 5, 6, 7];

impl Generator {
    /// Draws a fault, or none.
    #[tactic(auto, using(crate::proofs::DrawLemmas::faults), unfolding(crate::specs::Runs::fault_of))]
    pub(crate) fn fault(&mut self) -> Option<Fault>
        ensures fault { result ≡ fault_of (draw self.old % 15) (next self.old) }
        ensures state { self.new ≡ after (fault_draws (draw self.old % 15)) (next self.old) }
    {
        let class = self.below(15);
        if class == 14 {
            return None;
        }
        Some(self.fault_of_class(class))
    }

    /// Draws the onset of a fault, and the numbers of its class.
    fn fault_of_class(&mut self, class: u16) -> Fault
        requires { class < 14 }
        ensures onset { result.onset ≡ draw self.old % 2000 }
        ensures class { result.class ≡ class_of class (next self.old) }
        ensures state { self.new ≡ after (class_draws class) (next self.old) }
    {
        let onset = u32::from(self.below(2000));
        let class = self.class(class);
        Fault { onset, class }
    }

    /// Draws the numbers of a class, 0 to 13.
    #[tactic(auto, using(crate::proofs::DrawLemmas::single), unfolding(crate::specs::Runs::class_of))]
    fn class(&mut self, class: u16) -> Class
        requires { class < 14 }
        ensures class { result ≡ class_of class self.old }
        ensures state { self.new ≡ after (class_draws class) self.old }
    {
        match class {
            0 => self.script(),
            1 => self.offset(),
            2 => Class::Bus { mask: self.mask() },
            3 => Class::Plate {
                at: self.below(1001),
            },
            4 => Class::Skip {
                module: self.below(u16::from(MODULES)) as u8,
            },
            5 => self.disturb(),
            6 => self.flip(),
            7 => Class::Halt,
            8 => Class::Timing {
                offset: self.below(10),
            },
            9 => self.wild(),
            10 => Class::Path1Closed,
            11 => Class::Path2Closed,
            12 => Class::PathOpen {
                path: self.one_of(u16::from(PATH_2)) as u8,
            },
            _ => self.lapse(),
        }
    }

    /// Draws a number from 1 to this one.
    #[tactic(auto, unfolding(crate::specs::Runs::one_of))]
    fn one_of(&mut self, n: u16) -> u16
        requires { 0 < n }
        ensures drawn { result ≡ one_of n self.old }
        ensures least { 1 ≤ result }
        ensures most { result ≤ n }
        ensures state { self.new ≡ next self.old }
    {
        1 + self.below(n)
    }

    /// Draws bits of a word, at least one of them.
    #[tactic(auto, unfolding(crate::specs::Runs::drawn_mask))]
    fn mask(&mut self) -> u16
        ensures drawn { result ≡ drawn_mask self.old }
        ensures state { self.new ≡ next self.old }
    {
        self.one_of(65_535)
    }

    /// Draws a track of a pair, and four values that it reads in turn.
    #[tactic(auto, using(crate::proofs::DrawLemmas::single))]
    fn script(&mut self) -> Class
        ensures class { result ≡
            classes.Script (draw self.old % PAIRED_TRACKS) (four_values (next self.old)) }
        ensures state { self.new ≡ after 5 self.old }
    {
        let track = self.below(u16::from(PAIRED_TRACKS)) as u8;
        let first = self.below(1001);
        let second = self.below(1001);
        let third = self.below(1001);
        let fourth = self.below(1001);
        let values = script_of(&[first, second, third, fourth]);
        Class::Script { track, values }
    }

    /// Draws a track of a pair, and what it reads too much.
    #[tactic(auto, using(crate::proofs::DrawLemmas::single))]
    fn offset(&mut self) -> Class
        ensures class { result ≡
            classes.Offset (draw self.old % PAIRED_TRACKS) (pos (one_of 500 (next self.old))) }
        ensures state { self.new ≡ after 2 self.old }
    {
        let track = self.below(u16::from(PAIRED_TRACKS)) as u8;
        let add = i32::from(self.one_of(500));
        Class::Offset { track, add }
    }

    /// Draws one of the modules that give a signal, and the bits that are mixed into its results.
    #[tactic(auto, using(crate::proofs::DrawLemmas::single))]
    fn disturb(&mut self) -> Class
        ensures class { result ≡ classes.Disturb (one_of PAIRS self.old) (drawn_mask (next self.old)) }
        ensures state { self.new ≡ after 2 self.old }
    {
        let module = self.one_of(u16::from(PAIRS)) as u8;
        let mask = self.mask();
        Class::Disturb { module, mask }
    }

    /// Draws a word of level 2, and the bits of it that are flipped.
    #[tactic(auto, using(crate::proofs::DrawLemmas::single))]
    fn flip(&mut self) -> Class
        ensures class { result ≡ classes.Flip (draw self.old % STORED_WORDS) (drawn_mask (next self.old)) }
        ensures state { self.new ≡ after 2 self.old }
    {
        let word = self.below(u16::from(STORED_WORDS)) as u8;
        let mask = self.mask();
        Class::Flip { word, mask }
    }

    /// Draws two questions of a wild monitoring module, which never orders path 2 open.
    #[tactic(auto, using(crate::proofs::DrawLemmas::single))]
    fn wild(&mut self) -> Class
        ensures class { result ≡ classes.Wild (draws 2 self.old) (false ∷ []) }
        ensures state { self.new ≡ after 2 self.old }
    {
        let first = self.draw();
        let second = self.draw();
        let questions = script_of(&[first, second]);
        let opens = opens_of(&[false]);
        Class::Wild { questions, opens }
    }

    /// Draws at how many ticks from the onset on level 2 is left out.
    #[tactic(auto, using(crate::proofs::DrawLemmas::single), unfolding(crate::specs::Runs::first_ticks))]
    fn lapse(&mut self) -> Class
        ensures class { result ≡ classes.Lapse (first_ticks self.old) 0 }
        ensures state { self.new ≡ after 1 self.old }
    {
        let count = usize::from(self.one_of(8));
        let after = script_of(&TICKS[..count]);
        Class::Lapse { after, every: 0 }
    }
}

/// The script of these numbers.
fn script_of(values: &[u16]) -> Script
    requires some { 1 ≤ length values.now }
    requires few { length values.now ≤ 64 }
    ensures { result ≡ values.now }
{
    match Script::new(values) {
        Some(script) => script,
        None => unreachable!(),
    }
}

/// These truth values in turn.
fn opens_of(values: &[bool]) -> Opens
    requires some { 1 ≤ length values.now }
    requires few { length values.now ≤ 64 }
    ensures { result ≡ values.now }
{
    match Opens::new(values) {
        Some(opens) => opens,
        None => unreachable!(),
    }
}
