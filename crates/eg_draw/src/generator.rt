// Numbers that are drawn one after another.
ghost use Rattle.std.specs.Prelude.{◌≡◌, ◌<◌, ◌%◌};
ghost use Rattle.eg_draw.specs.Draws.{next, draw};

use std::marker::Model;

/// Draws numbers, one after another, and runs from them (docs/CONCEPT.md, "The generator of `soak`"). What it
/// draws follows from the number that it begins with. Contracts see its state.
#[derive(Drop)]
pub struct Generator {
    state: u32,
}

impl Model for Generator {
    ghost use Rattle.std.specs.Prelude.{ℕ};

    ghost Value = { ℕ };

    ghost view = { λ g. g.state };
}

impl Generator {
    /// A generator that begins with this number.
    pub fn new(seed: u32) -> Generator
        ensures { result ≡ seed }
    {
        Generator { state: seed }
    }

    /// Draws a word.
    #[tactic(auto, unfolding(crate::specs::Draws::next, crate::specs::Draws::draw))]
    pub(crate) fn draw(&mut self) -> u16
        ensures drawn { result ≡ draw self.old }
        ensures state { self.new ≡ next self.old }
    {
        let next = (1_664_525 * u64::from(self.state) + 1_013_904_223) % 4_294_967_296;
        self.state = next as u32;
        (next / 65_536) as u16
    }

    /// Draws a number below this one.
    pub(crate) fn below(&mut self, n: u16) -> u16
        requires { 0 < n }
        ensures drawn { result ≡ draw self.old % n }
        ensures less { result < n }
        ensures state { self.new ≡ next self.old }
    {
        self.draw() % n
    }
}
