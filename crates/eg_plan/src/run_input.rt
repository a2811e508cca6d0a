// A run with what its files hold.
use crate::{RunPlan, SharedItems};
use eg_base::Items;
use eg_num::Drive;

/// A run of a campaign with what its files hold (docs/CONCEPT.md, "The record of a run").
#[derive(Drop)]
pub struct RunInput {
    /// What the campaign says of it.
    pub plan: RunPlan,
    /// Its drive: a row for each tick, 1 to 20,000 of them. Other runs may share it.
    pub drive: SharedItems<Drive>,
    /// The words of level 1's image, at most 1,024 of them.
    pub image: Items<u16>,
}
