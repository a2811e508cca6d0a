// The images of drawn runs.
ghost use Rattle.std.specs.Prelude.{◌≡◌, ◌<◌, IfOk, OnOk};
ghost use Rattle.eg_draw.specs.Draws.{after, draws};
ghost use Rattle.eg_draw.specs.Runs.{full_with, image_of, image_draws};

use crate::Generator;
use eg_base::{Items, NoMemory};
use eg_word::{FULL, IDLE};
use std::alloc::Global;

impl Generator {
    /// Draws the image of a kind, 0 to 3.
    #[tactic(auto, using(crate::proofs::DrawLemmas::single), unfolding(crate::specs::Runs::image_of))]
    pub(crate) fn image(&mut self, alloc: Global, kind: u16) -> Result<Items<u16>, NoMemory>
        requires { kind < 4 }
        ensures image { IfOk result (λ words. words ≡ image_of kind self.old) }
        ensures state { OnOk result (self.new ≡ after (image_draws kind) self.old) }
    {
        match kind {
            0 => idle_image(alloc),
            1 => full_image(alloc),
            2 => self.any_image(alloc),
            _ => self.changed_image(alloc),
        }
    }

    /// Draws an image of any 256 words.
    #[tactic(auto, using(crate::proofs::DrawLemmas::steps))]
    fn any_image(&mut self, alloc: Global) -> Result<Items<u16>, NoMemory>
        ensures image { IfOk result (λ words. words ≡ draws 256 self.old) }
        ensures state { OnOk result (self.new ≡ after 256 self.old) }
    {
        let mut words = Vec::new(alloc);
        for _ in 0..256_u16 {
            words.push(self.draw())?;
        }
        Ok(Items::new(words))
    }

    /// Draws the image that sets both outputs to some number.
    #[tactic(auto, using(crate::proofs::DrawLemmas::single), unfolding(crate::specs::Runs::full_with))]
    fn changed_image(&mut self, alloc: Global) -> Result<Items<u16>, NoMemory>
        ensures image { IfOk result (λ words. words ≡ full_with self.old) }
        ensures state { self.new ≡ after 2 self.old }
    {
        let mut words = FULL;
        words[2] = 0x1400 + self.below(8);
        words[3] = 0x2400 + self.below(128);
        image_of_words(alloc, &words)
    }
}

/// The image that waits for ever.
fn idle_image(alloc: Global) -> Result<Items<u16>, NoMemory>
    ensures { IfOk result (λ words. words ≡ IDLE) }
{
    image_of_words(alloc, &IDLE)
}

/// The image that sets both outputs to 1000.
fn full_image(alloc: Global) -> Result<Items<u16>, NoMemory>
    ensures { IfOk result (λ words. words ≡ FULL) }
{
    image_of_words(alloc, &FULL)
}

/// The image of these words.
fn image_of_words(alloc: Global, words: &[u16]) -> Result<Items<u16>, NoMemory>
    ensures { IfOk result (λ copied. copied ≡ words.now) }
{
    let mut copied = Vec::new(alloc);
    copied.extend_from_slice(words)?;
    Ok(Items::new(copied))
}
