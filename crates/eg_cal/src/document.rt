// What stands under a key of a calibration file, or the key's fault.
ghost use Rattle.std.specs.Prelude.{◌≡◌, ◌≤◌, [], false, IfOk, IfSome, All, map, ◌*◌, length, option_map, unwrap_or};
ghost use Rattle.toml.specs.View.{view, table_view};
ghost use Rattle.eg_num.specs.Interpolation.{Grid, Curve};
ghost use Rattle.eg_cal.specs.declared.key.CalFault.TheVariants.{Key};
ghost use Rattle.eg_toml.specs.Refusals.{Checks, unless_some};
ghost use Rattle.eg_cal.specs.Keys.{content_of, number, has_brake, has_fall, permit_keys};
ghost use Rattle.eg_cal.specs.Contents.{members_of, value_of, number_of, read_number, read_truth, read_numbers, read_rows, read_questions};
ghost use Rattle.eg_cal.specs.Checks.{fault_at, axis_fault};
ghost use Rattle.eg_cal.specs.Names.{top_names, names_of, has_names, is_all_known};
ghost use Rattle.eg_toml.specs.Values.{table_at};
ghost use Rattle.eg_toml.specs.Names.{all_names, is_among};

use crate::question::questions_in;
use crate::{CalFault, CalKey};
use eg_answer::Questions;
use eg_num::{Axis, Table1, Table2};
use eg_toml::{Numbers, has_only_names, member, number_in, numbers_in, rows_in, table_at};
use toml::{Table, Value};

/// The names at the top.
const TOP_NAMES: [&str; 7] = [
    "version", "question", "permit", "torque", "pairs", "plant", "answers",
];

/// The names in each table. The last two of `permit` came with version 2 and with version 3.
const PERMIT_NAMES: [&str; 6] = ["pedal", "speed", "table", "threshold", "brake", "fall"];

const TORQUE_NAMES: [&str; 4] = ["kt", "up", "down", "limit"];

const PAIRS_NAMES: [&str; 7] = ["pedal", "plate", "load", "speed", "up", "down", "limit"];

const PLANT_NAMES: [&str; 4] = ["slew", "fill", "angle", "charge"];

const ANSWERS_NAMES: [&str; 7] = ["period", "first", "last", "send", "up", "down", "limit"];

/// A calibration file as a TOML document.
#[derive(Drop)]
pub(crate) struct Document {
    pub(crate) root: Table,
}

impl Document {
    /// The number under a key that may hold one from `low` to `high`.
    pub(crate) fn number(&self, key: CalKey, low: u16, high: u16) -> Result<u16, CalFault>
        requires { content_of key ≡ number low high }
        ensures value { let ms = table_view self.now.root in
            Checks (fault_at ms key) (number_of ms key) result }
        ensures within { IfOk result (λ n. (low ≤ n) × (n ≤ high)) }
    {
        self.number_under(key, low, high)
            .ok_or(CalFault::Key { key })
    }

    /// The truth value under a key.
    pub(crate) fn truth(&self, key: CalKey) -> Result<bool, CalFault>
        ensures { let read = read_truth (table_view self.now.root) key in
            Checks (unless_some (Key key) read) (unwrap_or read false) result }
    {
        self.truth_under(key).ok_or(CalFault::Key { key })
    }

    /// The axis under a key, of points up to `high`.
    pub(crate) fn axis(&self, key: CalKey, high: u16) -> Result<Axis, CalFault>
        ensures { let read = read_numbers 2 16 high (table_view self.now.root) key in
            Checks (axis_fault key read) (unwrap_or read []) result }
    {
        let Some(points) = self.numbers_under(key, 2, 16, high) else {
            return Err(CalFault::Key { key });
        };
        match Axis::new(points.as_slice()) {
            Some(axis) => Ok(axis),
            None => Err(CalFault::Axis { key }),
        }
    }

    /// The table under a key that has a value, up to `high`, for each point of the axis.
    pub(crate) fn curve(&self, key: CalKey, axis: Axis, high: u16) -> Result<Table1, CalFault>
        ensures value { let count = length axis in
            let read = read_numbers count count high (table_view self.now.root) key in
            let curve : Curve = record { axis = axis; values = unwrap_or read [] } in
            Checks (unless_some (Key key) read) curve result }
        ensures within { IfOk result (λ curve. All (λ n. n ≤ high) curve.values) }
    {
        let count = axis.points().len();
        let Some(values) = self.numbers_under(key, count, count, high) else {
            return Err(CalFault::Key { key });
        };
        let Some(curve) = Table1::new(axis, values.as_slice()) else {
            unreachable!();
        };
        Ok(curve)
    }

    /// The table under a key that has a value, up to `high`, for each crossing of the axes.
    pub(crate) fn grid(
        &self,
        key: CalKey,
        rows: Axis,
        columns: Axis,
        high: u16,
    ) -> Result<Table2, CalFault>
        ensures { let read = read_rows (length rows) (length columns) high (table_view self.now.root) key in
            let grid : Grid = record { rows = rows; columns = columns; values = unwrap_or read [] } in
            Checks (unless_some (Key key) read) grid result }
    {
        let (tall, wide) = (rows.points().len(), columns.points().len());
        let Some(values) = self.rows_under(key, tall, wide, high) else {
            return Err(CalFault::Key { key });
        };
        let Some(grid) = Table2::new(rows, columns, values.as_slice()) else {
            unreachable!();
        };
        Ok(grid)
    }

    /// The questions under a key.
    pub(crate) fn questions(&self, key: CalKey) -> Result<Questions, CalFault>
        ensures value { let read = read_questions (table_view self.now.root) key in
            Checks (unless_some (Key key) read) (unwrap_or read []) result }
        ensures count { IfOk result (λ questions. 2 ≤ length questions) }
    {
        self.questions_under(key).ok_or(CalFault::Key { key })
    }

    /// Whether no name but those of the tables, and of the keys of this version, stands at the top and in the
    /// tables.
    #[tactic(auto, unfolding(crate::specs::Names::is_all_known))]
    pub(crate) fn is_all_known(&self, version: u16) -> bool
        ensures { result ≡ is_all_known version (table_view self.now.root) }
    {
        self.has_top_names()
            && self.has_names("permit", permit_names(version))
            && self.has_names("torque", &TORQUE_NAMES)
            && self.has_names("pairs", &PAIRS_NAMES)
            && self.has_names("plant", &PLANT_NAMES)
            && self.has_names("answers", &ANSWERS_NAMES)
    }

    fn has_top_names(&self) -> bool
        ensures { result ≡ all_names (is_among top_names) (table_view self.now.root) }
    {
        has_only_names(&self.root, &TOP_NAMES)
    }

    /// Whether each name in a table, if there is such a table, is one of these.
    fn has_names(&self, table: &str, known: &[&str]) -> bool
        ensures { let members = table_at table.now (table_view self.now.root) in
            result ≡ has_names (map (λ k. k.now) known.now) members }
    {
        match table_at(&self.root, table) {
            Some(table) => has_only_names(table, known),
            None => true,
        }
    }

    /// The table of that name, or the whole document where the name is empty.
    fn members(&self, name: &str) -> Option<&Table>
        ensures { option_map (λ t. table_view t.now) result ≡ members_of name.now (table_view self.now.root) }
    {
        if name.is_empty() {
            return Some(&self.root);
        }
        table_at(&self.root, name)
    }

    /// The value under a key.
    fn value(&self, key: CalKey) -> Option<&Value>
        ensures { option_map (λ v. view v.now) result ≡ value_of (table_view self.now.root) key }
    {
        member(self.members(key.table())?, key.name())
    }

    fn truth_under(&self, key: CalKey) -> Option<bool>
        ensures { result ≡ read_truth (table_view self.now.root) key }
    {
        self.value(key)?.as_bool()
    }

    fn number_under(&self, key: CalKey, low: u16, high: u16) -> Option<u16>
        ensures value { result ≡ read_number low high (table_view self.now.root) key }
        ensures within { IfSome result (λ n. (low ≤ n) × (n ≤ high)) }
    {
        number_in(self.value(key)?, low, high)
    }

    fn numbers_under(&self, key: CalKey, least: usize, most: usize, high: u16) -> Option<Numbers>
        requires { most ≤ 16 }
        ensures value { result ≡ read_numbers least most high (table_view self.now.root) key }
        ensures count { IfSome result (λ numbers. (least ≤ length numbers) × (length numbers ≤ most)) }
        ensures within { IfSome result (λ numbers. All (λ n. n ≤ high) numbers) }
    {
        numbers_in(self.value(key)?, least, most, high)
    }

    fn rows_under(&self, key: CalKey, tall: usize, wide: usize, high: u16) -> Option<Numbers>
        requires tall { tall ≤ 16 }
        requires wide { wide ≤ 16 }
        ensures value { result ≡ read_rows tall wide high (table_view self.now.root) key }
        ensures count { IfSome result (λ numbers. length numbers ≡ tall * wide) }
    {
        rows_in(self.value(key)?, tall, wide, high)
    }

    fn questions_under(&self, key: CalKey) -> Option<Questions>
        ensures value { result ≡ read_questions (table_view self.now.root) key }
        ensures count { IfSome result (λ questions. 2 ≤ length questions) }
    {
        questions_in(self.value(key)?)
    }
}

/// Whether files of this version say if the brake counts.
pub(crate) fn has_brake(version: u16) -> bool
    ensures { result ≡ has_brake version }
{
    version >= 2
}

/// Whether files of this version say by how much the permitted torque may fall in a tick.
pub(crate) fn has_fall(version: u16) -> bool
    ensures { result ≡ has_fall version }
{
    version >= 3
}

/// The names in `permit` of a file of this version.
fn permit_names(version: u16) -> &'static [&'static str]
    ensures { map (λ k. k.now) result.now ≡ names_of (permit_keys version) }
{
    if !has_brake(version) {
        &PERMIT_NAMES[..4]
    } else if !has_fall(version) {
        &PERMIT_NAMES[..5]
    } else {
        &PERMIT_NAMES
    }
}
