// The fault of a run.
ghost use Rattle.std.specs.Prelude.{◌≡◌, ◌∷◌, codes, map};
ghost use Rattle.toml.specs.View.{table_view};
ghost use Rattle.eg_toml.specs.Names.{all_names, is_among};
ghost use Rattle.eg_toml.specs.Refusals.{Checks};
ghost use Rattle.eg_fault.specs.Names.{key_text, own_keys};
ghost use Rattle.eg_plan.specs.Classes.{class_in};
ghost use Rattle.eg_plan.specs.Faults.{TellsClass, fault_refusal, fault_of, names_with, has_own_names};

use crate::contents::{index, number, optional, shift, ticks, truths, words};
use crate::{CampaignFault, RunKey};
use eg_answer::{CHECK, PAIRS, PEDAL, REACT, STORED_WORDS};
use eg_fault::{Class, ClassName, Fault, FaultKey, PATH_1, PATH_2};
use eg_sensor::{BRAKE_2, PEDAL_1};
use eg_toml::member;
use toml::Table;

/// The fault that a table of this run says, or the refusal of its first key that has one
/// (docs/FORMATS.md, "Campaign files").
#[tactic(auto, unfolding(crate::specs::Faults::fault_refusal, crate::specs::Faults::fault_of))]
pub(crate) fn fault_in(table: &Table, run: u32) -> Result<Fault, CampaignFault>
    ensures { let ms = table_view table.now in Checks (fault_refusal run ms) (fault_of ms) result }
{
    let name = class_in(table).ok_or(CampaignFault::Key {
        run,
        key: RunKey::Class,
    })?;
    let onset = number(table, run, RunKey::Onset, 0, 19_999)?;
    let class = class_with(table, run, name)?;
    Ok(Fault {
        onset: u32::from(onset),
        class,
    })
}

/// What a table says under the keys of a class.
#[tactic(auto, unfolding(crate::specs::Checks::keys_refusal))]
fn class_with(table: &Table, run: u32, name: ClassName) -> Result<Class, CampaignFault>
    ensures { TellsClass run name (table_view table.now) result }
{
    match name {
        ClassName::Script => script(table, run),
        ClassName::Offset => offset(table, run),
        ClassName::Bus => bus(table, run),
        ClassName::Plate => plate(table, run),
        ClassName::Skip => skip(table, run),
        ClassName::Disturb => disturb(table, run),
        ClassName::Flip => flip(table, run),
        ClassName::Halt => Ok(Class::Halt),
        ClassName::Timing => timing(table, run),
        ClassName::Wild => wild(table, run),
        ClassName::Path1Closed => Ok(Class::Path1Closed),
        ClassName::Path2Closed => Ok(Class::Path2Closed),
        ClassName::PathOpen => path_open(table, run),
        ClassName::Lapse => lapse(table, run),
    }
}

#[tactic(auto, unfolding(crate::specs::Checks::keys_refusal))]
fn script(table: &Table, run: u32) -> Result<Class, CampaignFault>
    ensures { TellsClass run ClassName.Script (table_view table.now) result }
{
    let track = index(table, run, RunKey::Own(FaultKey::Track), PEDAL_1, BRAKE_2)?;
    let values = words(table, run, RunKey::Own(FaultKey::Values))?;
    Ok(Class::Script { track, values })
}

#[tactic(auto, unfolding(crate::specs::Checks::keys_refusal))]
fn offset(table: &Table, run: u32) -> Result<Class, CampaignFault>
    ensures { TellsClass run ClassName.Offset (table_view table.now) result }
{
    let track = index(table, run, RunKey::Own(FaultKey::Track), PEDAL_1, BRAKE_2)?;
    let add = shift(table, run, RunKey::Own(FaultKey::Add))?;
    Ok(Class::Offset { track, add })
}

#[tactic(auto, unfolding(crate::specs::Checks::keys_refusal))]
fn bus(table: &Table, run: u32) -> Result<Class, CampaignFault>
    ensures { TellsClass run ClassName.Bus (table_view table.now) result }
{
    let mask = number(table, run, RunKey::Own(FaultKey::Mask), 1, u16::MAX)?;
    Ok(Class::Bus { mask })
}

#[tactic(auto, unfolding(crate::specs::Checks::keys_refusal))]
fn plate(table: &Table, run: u32) -> Result<Class, CampaignFault>
    ensures { TellsClass run ClassName.Plate (table_view table.now) result }
{
    let at = number(table, run, RunKey::Own(FaultKey::At), 0, 1000)?;
    Ok(Class::Plate { at })
}

#[tactic(auto, unfolding(crate::specs::Checks::keys_refusal))]
fn skip(table: &Table, run: u32) -> Result<Class, CampaignFault>
    ensures { TellsClass run ClassName.Skip (table_view table.now) result }
{
    let module = index(table, run, RunKey::Own(FaultKey::Module), CHECK, REACT)?;
    Ok(Class::Skip { module })
}

#[tactic(auto, unfolding(crate::specs::Checks::keys_refusal))]
fn disturb(table: &Table, run: u32) -> Result<Class, CampaignFault>
    ensures { TellsClass run ClassName.Disturb (table_view table.now) result }
{
    let module = index(table, run, RunKey::Own(FaultKey::Module), PEDAL, PAIRS)?;
    let mask = number(table, run, RunKey::Own(FaultKey::Mask), 1, u16::MAX)?;
    Ok(Class::Disturb { module, mask })
}

#[tactic(auto, unfolding(crate::specs::Checks::keys_refusal))]
fn flip(table: &Table, run: u32) -> Result<Class, CampaignFault>
    ensures { TellsClass run ClassName.Flip (table_view table.now) result }
{
    let word = index(table, run, RunKey::Own(FaultKey::Word), 0, STORED_WORDS - 1)?;
    let mask = number(table, run, RunKey::Own(FaultKey::Mask), 1, u16::MAX)?;
    Ok(Class::Flip { word, mask })
}

#[tactic(auto, unfolding(crate::specs::Checks::keys_refusal))]
fn timing(table: &Table, run: u32) -> Result<Class, CampaignFault>
    ensures { TellsClass run ClassName.Timing (table_view table.now) result }
{
    let offset = number(table, run, RunKey::Own(FaultKey::Offset), 0, 99)?;
    Ok(Class::Timing { offset })
}

#[tactic(auto, unfolding(crate::specs::Checks::keys_refusal))]
fn wild(table: &Table, run: u32) -> Result<Class, CampaignFault>
    ensures { TellsClass run ClassName.Wild (table_view table.now) result }
{
    let questions = words(table, run, RunKey::Own(FaultKey::Questions))?;
    let opens = truths(table, run, RunKey::Own(FaultKey::Opens))?;
    Ok(Class::Wild { questions, opens })
}

#[tactic(auto, unfolding(crate::specs::Checks::keys_refusal))]
fn path_open(table: &Table, run: u32) -> Result<Class, CampaignFault>
    ensures { TellsClass run ClassName.PathOpen (table_view table.now) result }
{
    let path = index(table, run, RunKey::Own(FaultKey::Path), PATH_1, PATH_2)?;
    Ok(Class::PathOpen { path })
}

#[tactic(auto, unfolding(crate::specs::Checks::keys_refusal))]
fn lapse(table: &Table, run: u32) -> Result<Class, CampaignFault>
    ensures { TellsClass run ClassName.Lapse (table_view table.now) result }
{
    let after = ticks(table, run, RunKey::Own(FaultKey::After))?;
    let every = optional(table, run, RunKey::Own(FaultKey::Every), 20_000)?;
    Ok(Class::Lapse { after, every })
}

/// The class that a table of `faults` names, or None where it names none.
fn class_in(table: &Table) -> Option<ClassName>
    ensures { result ≡ class_in (table_view table.now) }
{
    ClassName::named(member(table, "class")?.as_str()?)
}

/// Whether a table with a class has no name but those of its class.
pub(crate) fn has_own_names(table: &Table) -> bool
    ensures { result ≡ has_own_names (table_view table.now) }
{
    has_names_of(table, class_in(table).unwrap_or(ClassName::Halt))
}

fn has_names_of(table: &Table, name: ClassName) -> bool
    ensures { result ≡ all_names (is_among (names_with (own_keys name))) (table_view table.now) }
{
    table.keys().all(|text| is_name_of(name, text.as_str()))
}

/// Whether a name may stand in the table of a fault of this class.
fn is_name_of(name: ClassName, text: &str) -> bool
    ensures { result ≡ is_among (names_with (own_keys name)) text.now }
{
    "class" == text || is_onset_or_own(name, text)
}

fn is_onset_or_own(name: ClassName, text: &str) -> bool
    ensures { result ≡ is_among (codes "onset" ∷ map key_text (own_keys name)) text.now }
{
    "onset" == text || is_own_key(name, text)
}

fn is_own_key(name: ClassName, text: &str) -> bool
    ensures { result ≡ is_among (map key_text (own_keys name)) text.now }
{
    name.own_keys().iter().any(|key| key.text() == text)
}
