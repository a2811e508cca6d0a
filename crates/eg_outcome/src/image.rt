// The words of an image.
ghost use Rattle.std.specs.Prelude.{◌≡◌, ◌≤◌, length, IfOk};
ghost use Rattle.eg_input.specs.declared.image.TheConstants.{MOST_WORDS};
ghost use Rattle.eg_outcome.specs.Images.{image_end, image_or_refusal};
ghost use Rattle.eg_outcome.specs.Reads.{Says};

use crate::{Outcome, Refusal};
use eg_base::Items;
use eg_input::{ImageFault, read_image};
use std::alloc::Global;

/// The words that these bytes of the image of a run say, the first run being 1, or how the call ends without
/// them (docs/FORMATS.md, "Images"). An image that is of no run of a campaign has the number 0.
pub fn image_in(alloc: Global, run: u32, bytes: &[u8]) -> Result<Items<u16>, Outcome>
    ensures says { Says (image_or_refusal run) bytes.now result }
    ensures most { IfOk result (λ image. length image ≤ MOST_WORDS) }
{
    match read_image(alloc, bytes) {
        Ok(words) => Ok(Items::new(words)),
        Err(fault) => Err(image_end(run, fault)),
    }
}

/// How a call ends with a fault of the image of a run: Memory comes only where the reader says so
/// (docs/FORMATS.md, "Outcomes").
fn image_end(run: u32, fault: ImageFault) -> Outcome
    ensures { result ≡ image_end run fault }
{
    match fault {
        ImageFault::Memory => Outcome::Memory,
        fault => Outcome::Refused(Refusal::Image { run, fault }),
    }
}
