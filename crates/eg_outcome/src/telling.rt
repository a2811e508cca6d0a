// How the runs of a campaign are told.

/// How the runs of a campaign are told (docs/FORMATS.md, "Commands").
#[derive(Clone, Copy)]
pub enum Telling {
    /// By the report of `run` (docs/FORMATS.md, "The report").
    Report,
    /// By a header, and a row with these columns for each.
    Rows(Columns),
}

/// What the columns of a run's row tell.
#[derive(Clone, Copy)]
pub enum Columns {
    /// What happened in the run (docs/FORMATS.md, "The rows of `table`").
    Table,
    /// How near it came to a cut (docs/FORMATS.md, "The rows of `margins`").
    Margins,
}
