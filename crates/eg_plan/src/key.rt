// The keys of a campaign file, and why a file is refused.
ghost use Rattle.std.specs.Prelude.{◌≡◌};
ghost use Rattle.eg_plan.specs.declared.key.CampaignFault.TheVariants as fault;
ghost use Rattle.eg_plan.specs.Keys.{text_of};

use eg_fault::FaultKey;
use eg_toml::DocumentFault;
use std::alloc::{AllocError, AllocFailed};

/// A key of a campaign file (docs/FORMATS.md, "Campaign files"): of the file, of a run or of a fault.
#[derive(Clone, Copy, PartialEq, Eq)]
pub enum RunKey {
    /// `run`: the runs.
    Run,
    /// `name`: the name of a run.
    Name,
    /// `trace`: the file of its drive trace.
    Trace,
    /// `image`: the file of level 1's program.
    Image,
    /// `slices`: how many instructions level 1 may do.
    Slices,
    /// `engine`: which engine stands on the bench.
    Engine,
    /// `faults`: the fault, if there is one.
    Faults,
    /// `class`: the name of the fault's class.
    Class,
    /// `onset`: the first tick at which the fault acts.
    Onset,
    /// An own key of the fault's class.
    Own(FaultKey),
    /// A name that may not stand there.
    Unknown,
}

/// Why a campaign is refused (docs/FORMATS.md, "Campaign files"). Runs are numbered from 1 in the file's
/// order; 0 is the file as a whole.
#[derive(Clone, Copy, PartialEq, Eq)]
pub enum CampaignFault {
    /// There was no memory for the document or its runs, or the document weighs more than the reader takes.
    Memory,
    /// The bytes are no TOML document.
    Text,
    /// The key is missing, or holds something else than it may; at `Unknown` there is a name that no key has.
    Key { run: u32, key: RunKey },
    /// The run has more than one fault.
    TwoFaults { run: u32 },
    /// An earlier run has the name of this run.
    Name { run: u32 },
    /// There are more than 1,000 runs.
    Many,
    /// With this run the campaign has more than 1,000,000 ticks.
    Ticks { run: u32 },
}

impl From<DocumentFault> for CampaignFault {
    ghost use Rattle.eg_plan.specs.Refusals.{fault_of};

    ghost from_gives = { λ e f. f ≡ fault_of e };

    fn from(fault: DocumentFault) -> CampaignFault {
        match fault {
            DocumentFault::Memory => CampaignFault::Memory,
            DocumentFault::Text => CampaignFault::Text,
        }
    }
}

impl From<AllocError> for CampaignFault {
    ghost from_gives = { λ _ e. e ≡ fault.Memory };

    fn from(_error: AllocError) -> CampaignFault {
        CampaignFault::Memory
    }
}

impl<T: Drop> From<AllocFailed<T>> for CampaignFault {
    ghost from_gives = { λ _ e. e ≡ fault.Memory };

    fn from(_error: AllocFailed<T>) -> CampaignFault {
        CampaignFault::Memory
    }
}

impl RunKey {
    /// The key as it stands in the file, and as a note prints it (docs/FORMATS.md, "Notes"). `Unknown` is
    /// printed as `unknown`.
    pub fn text(&self) -> &str
        ensures { result.now ≡ text_of self.now }
    {
        match self {
            RunKey::Run => "run",
            RunKey::Name => "name",
            RunKey::Trace => "trace",
            RunKey::Image => "image",
            RunKey::Slices => "slices",
            RunKey::Engine => "engine",
            RunKey::Faults => "faults",
            RunKey::Class => "class",
            RunKey::Onset => "onset",
            RunKey::Own(key) => key.text(),
            RunKey::Unknown => "unknown",
        }
    }
}
