// The engine of a run.
ghost use Rattle.std.specs.Prelude.{◌≡◌, unwrap_or};
ghost use Rattle.toml.specs.View.{view, table_view};
ghost use Rattle.eg_plant.specs.declared.engine_kind.EngineKind.TheVariants.{Gasoline};
ghost use Rattle.eg_plan.specs.declared.key.CampaignFault.TheVariants.{Key};
ghost use Rattle.eg_plan.specs.Keys.{text_of};
ghost use Rattle.eg_toml.specs.Refusals.{Checks, unless_some};
ghost use Rattle.eg_plan.specs.Contents.{engine_named, engine_in, engine_at};

use crate::{CampaignFault, RunKey};
use eg_plant::EngineKind;
use eg_toml::member;
use toml::{Table, Value};

/// The engine under a key of a table of this run, by its name: `gasoline` or `diesel`. Where the key is
/// absent, the gasoline engine.
pub(crate) fn engine(table: &Table, run: u32, key: RunKey) -> Result<EngineKind, CampaignFault>
    ensures { let read = engine_at (text_of key) (table_view table.now) in
        Checks (unless_some (Key run key) read) (unwrap_or read Gasoline) result }
{
    let Some(value) = member(table, key.text()) else {
        return Ok(EngineKind::Gasoline);
    };
    engine_in(value).ok_or(CampaignFault::Key { run, key })
}

/// The engine that a value names.
fn engine_in(value: &Value) -> Option<EngineKind>
    ensures { result ≡ engine_in (view value.now) }
{
    engine_named(value.as_str()?)
}

fn engine_named(name: &str) -> Option<EngineKind>
    ensures { result ≡ engine_named name.now }
{
    match name {
        "gasoline" => Some(EngineKind::Gasoline),
        "diesel" => Some(EngineKind::Diesel),
        _ => None,
    }
}
