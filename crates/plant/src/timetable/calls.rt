ghost use Rattle.std.specs.Prelude.{◌≡◌, true, vec_len, MatchResult};
ghost use Rattle.calendar.specs.Making.{open_plant, table_number};
ghost use Rattle.calendar.specs.Meaning.{proper, free_hours};
ghost use Rattle.calendar.specs.Numbers.{making_number};
ghost use Rattle.calendar.proofs.Props.{rows_sound};
ghost use Rattle.plant.specs.Means.{table_means};

use super::rows::{clear_rows, row_free_hours};
use super::{RefusedRows, Timetable};
use crate::Plant;
use calendar::refusal::{MakingRefusal, PlantRefusal, Refused};
use calendar::run::{Run, Size, sizes_fit};

impl Timetable {
    // An empty and open timetable over the rows, or the rows back as they were.
    pub fn new(mut rows: Vec<Run>, links: u32, channels: u32) -> Result<Timetable, RefusedRows>
        ensures { MatchResult result
            (λ t. (table_number links channels (vec_len rows) ≡ 0) × (table_means t ≡ open_plant links channels (vec_len rows)))
            (λ e. (table_number links channels (vec_len rows) ≡ making_number e.why) × (e.memory.items ≡ rows.items)) }
    {
        if !sizes_fit(links, channels) {
            return Err(Refused {
                why: MakingRefusal::BadSizes,
                memory: rows,
            });
        }
        if rows.len() > 4096 {
            return Err(Refused {
                why: MakingRefusal::BadMemory,
                memory: rows,
            });
        }
        clear_rows(&mut rows);
        Ok(Timetable {
            rows,
            links: links as u8,
            channels: channels as u8,
        })
    }

    // Gives the memory back.
    pub fn into_rows(self) -> Vec<Run>
        ensures { result.items ≡ self.rows.items }
    {
        let Timetable { rows, .. } = self;
        rows
    }

    // Whether the timetable can have the run.
    fn fits(&self, run: Run) -> bool
        ensures { result ≡ proper (table_means self.now) run }
    {
        run.fits(self.size())
    }

    // How many hours of the run are free before one that is not.
    fn free_hours(&self, run: Run) -> u8
        requires { proper (table_means self.now) run ≡ true }
        ensures { result ≡ free_hours (table_means self.now) run }
    {
        self.rows
            .iter()
            .fold(run.hours, |free, row| row_free_hours(*row, run).min(free))
    }
}

impl Plant for Timetable {
    ghost meaning = { table_means };

    ghost sound = { λ s. rows_sound s.rows.items s.links s.channels s.kept };

    fn size(&self) -> Size {
        Size {
            links: self.links,
            channels: self.channels,
        }
    }

    fn room(&self) -> u32 {
        self.spare_rows()
    }

    fn closed(&self, link: u8, channel: u8, hour: u8) -> bool {
        !self.size().has_cell(link, channel, hour)
    }

    fn held(&self, link: u8, channel: u8, hour: u8) -> bool {
        self.some_row_on(link, channel, hour)
    }

    fn held_count(&self, link: u8) -> u32 {
        self.link_hours(link)
    }

    fn hold(&mut self, run: Run) -> Result<(), PlantRefusal> {
        if !self.fits(run) {
            return Err(PlantRefusal::OutOfRange);
        }
        if self.free_hours(run) < run.hours {
            return Err(PlantRefusal::CellHeld);
        }
        let i = self.spare_row().ok_or(PlantRefusal::NoRoom)?;
        self.put_row(i, run);
        Ok(())
    }

    fn release(&mut self, run: Run) -> Result<(), PlantRefusal> {
        if !self.fits(run) {
            return Err(PlantRefusal::OutOfRange);
        }
        let i = self.row_of(run).ok_or(PlantRefusal::NoSuchRun)?;
        self.put_row(i, Run::default());
        Ok(())
    }

    fn first_taken(&self, run: Run) -> Option<u8> {
        if !self.fits(run) {
            return Some(run.first);
        }
        run.hour_at(self.free_hours(run))
    }
}
