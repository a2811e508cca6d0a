// The names that a table has.
ghost use Rattle.std.specs.Prelude.{◌≡◌, map};
ghost use Rattle.toml.specs.View.{table_view};
ghost use Rattle.eg_toml.specs.Names.{all_names, is_among};

use toml::Table;

/// Whether each name of a table is one of the known names.
pub fn has_only_names(table: &Table, known: &[&str]) -> bool
    ensures { result ≡ all_names (is_among (map (λ k. k.now) known.now)) (table_view table.now) }
{
    table.keys().all(|name| is_among(known, name.as_str()))
}

fn is_among(known: &[&str], name: &str) -> bool
    ensures { result ≡ is_among (map (λ k. k.now) known.now) name.now }
{
    known.iter().any(|k| *k == name)
}
