use calendar::run::Run;

#[derive(Clone, Copy, PartialEq, Eq)]
pub enum Cell {
    Free,
    Start,
    Later,
}

// A plant the plain way, to measure against: a byte for each cell, and every call goes hour by hour.
#[derive(Drop)]
pub struct HourTable {
    pub cells: Vec<Cell>,
    pub channels: usize,
}

// What the hour of a live run is.
fn of_run(j: u8) -> Cell {
    if j == 0 { Cell::Start } else { Cell::Later }
}

impl HourTable {
    fn place(&self, run: Run, j: u8) -> usize {
        let row = (run.link as usize).saturating_sub(1) * self.channels.min(16)
            + (run.channel as usize).saturating_sub(1);
        row * 168 + (run.first as usize + j as usize) % 168
    }

    fn cell(&self, run: Run, j: u8) -> Cell {
        let place = self.place(run, j);
        self.cells.get(place).copied().unwrap_or(Cell::Free)
    }

    fn write(&mut self, run: Run, j: u8, value: Cell) {
        let place = self.place(run, j);
        if let Some(cell) = self.cells.get_mut(place) {
            *cell = value;
        }
    }

    pub fn is_free(&self, run: Run) -> bool {
        (0..run.hours).all(|j| self.cell(run, j) == Cell::Free)
    }

    fn is_live(&self, run: Run) -> bool {
        (0..run.hours).all(|j| self.cell(run, j) == of_run(j))
            && (run.hours >= 168 || self.cell(run, run.hours) != Cell::Later)
    }

    pub fn hold(&mut self, run: Run) -> bool {
        let free = self.is_free(run);
        if free {
            for j in 0..run.hours {
                self.write(run, j, of_run(j));
            }
        }
        free
    }

    pub fn release(&mut self, run: Run) -> bool {
        let live = self.is_live(run);
        if live {
            for j in 0..run.hours {
                self.write(run, j, Cell::Free);
            }
        }
        live
    }
}
