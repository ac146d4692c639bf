ghost use Rattle.std.specs.Prelude.{◌≡◌, ℕ, ◌<◌, ◌≤◌, min, ◌&&◌, if◌then◌else◌, ◌==◌, count_by, length, slice_index_or, slice_set, vec_len, MatchOption};
ghost use Rattle.std.specs.List.{list_any};
ghost use Rattle.calendar.specs.Week.{until};
ghost use Rattle.calendar.specs.Rows.{Kept, no_run, on_cell, tabled};
ghost use Rattle.plant.specs.Means.{link_hours, table_means};

use super::Timetable;
use calendar::hours::covers_hour;
use calendar::run::Run;

// Whether the row's run covers the cell.
fn row_on_cell(row: Run, link: u8, channel: u8, hour: u8) -> bool
    ensures { result ≡ on_cell row link channel hour }
{
    (link == row.link) & (channel == row.channel) & covers_hour(row.first, row.hours, hour)
}

// 1 for an empty row, 0 for another.
fn row_spare(row: Run) -> u32
    ensures { result ≡ (if row.hours == 0 then 1 else 0) }
{
    if row.hours == 0 { 1 } else { 0 }
}

// The hours that the row's run holds on the link.
fn row_hours_on(row: Run, link: u8) -> u8
    ensures { result ≡ (if row.link == link then row.hours else 0) }
{
    if row.link == link { row.hours } else { 0 }
}

// How many hours of the run come before one that the row's run covers: all, where it is on another channel.
pub(crate) fn row_free_hours(row: Run, run: Run) -> u8
    ensures { result ≡ (if run.link == row.link && run.channel == row.channel then min run.hours (until row.first row.hours run.first) else run.hours) }
{
    if run.link == row.link && run.channel == row.channel {
        run.hours_before(row.first, row.hours)
    } else {
        run.hours
    }
}

// Empties every row.
pub(crate) fn clear_rows(rows: &mut Vec<Run>)
    ensures len { vec_len rows.new ≡ vec_len rows.old }
    ensures empty { (j : ℕ) → j < length rows.new.items → (slice_index_or rows.new.items j no_run).hours ≡ 0 }
{
    rows.fill(Run::default());
}

// The first three go row by row in a plain loop, and look at a row by value: as chains (`any`; `filter` and `count`;
// `filter`, `map` and `sum`) they take 1.5 to 4 times as long over a thousand rows.
impl Timetable {
    // Whether some row's run covers the cell.
    pub(crate) fn some_row_on(&self, link: u8, channel: u8, hour: u8) -> bool
        ensures { result ≡ list_any (λ row. on_cell row link channel hour) self.now.rows.items }
    {
        for row in &self.rows {
            if row_on_cell(*row, link, channel, hour) {
                return true;
            }
        }
        false
    }

    // The cells of the link that the rows' runs hold.
    pub(crate) fn link_hours(&self, link: u8) -> u32
        ensures { result ≡ link_hours self.now.rows.items link }
    {
        let mut sum = 0;
        for row in &self.rows {
            sum += u32::from(row_hours_on(*row, link));
        }
        sum
    }

    // How many rows are empty.
    pub(crate) fn spare_rows(&self) -> u32
        ensures { result ≡ count_by (λ row. row.hours == 0) self.now.rows.items }
    {
        let mut count = 0;
        for row in &self.rows {
            count += row_spare(*row);
        }
        count
    }

    // An empty row, if there is one.
    pub(crate) fn spare_row(&self) -> Option<usize>
        ensures { MatchOption result ((k : ℕ) → k < length self.now.rows.items → 0 < (slice_index_or self.now.rows.items k no_run).hours) (λ i. (i < length self.now.rows.items) × ((slice_index_or self.now.rows.items i no_run).hours ≡ 0)) }
    {
        self.rows.iter().position(|row| row.hours == 0)
    }

    // The row of exactly this run, if it is live.
    pub(crate) fn row_of(&self, run: Run) -> Option<usize>
        ensures { MatchOption result ((k : ℕ) → k < length self.now.rows.items → ¬ (slice_index_or self.now.rows.items k no_run ≡ run)) (λ i. (i < length self.now.rows.items) × (slice_index_or self.now.rows.items i no_run ≡ run)) }
    {
        self.rows.iter().copied().position(|row| row == run)
    }

    // Writes one row.
    pub(crate) fn put_row(&mut self, i: usize, run: Run)
        requires row { i < length self.old.rows.items }
        requires kept { ∥ Kept (slice_set self.old.rows.items i run) self.old.links self.old.channels ∥₁ }
        ensures { table_means self.new ≡ tabled (slice_set self.old.rows.items i run) self.old.links self.old.channels }
    {
        self.rows[i] = run;
    }
}
