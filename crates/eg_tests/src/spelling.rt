// How classes of faults are spelt.
ghost use Rattle.std.specs.Prelude.{◌≡◌};
ghost use Rattle.toml.specs.Data.{Members};
ghost use Rattle.eg_fault.specs.Names.{name_of};
ghost use Rattle.eg_fault.specs.declared.class_name.ClassName.{ClassName};
ghost use Rattle.eg_plan.specs.Classes.{class_of};

/// The class that a campaign names is told by that name, whatever its numbers are (docs/FORMATS.md, "Campaign
/// files"). It does nothing when it runs.
pub fn classes_are_told_as_they_are_read()
    ensures told { (name : ClassName) (keys : Members) → name_of (class_of name keys) ≡ name }
{}
