use crate::hour_table::HourTable;
use calendar::run::Run;
use plant::Plant;

// What is measured.
pub trait Subject {
    fn hold(&mut self, run: Run) -> bool;

    fn release(&mut self, run: Run) -> bool;

    fn is_free(&self, run: Run) -> bool;
}

impl Subject for HourTable {
    fn hold(&mut self, run: Run) -> bool {
        HourTable::hold(self, run)
    }

    fn release(&mut self, run: Run) -> bool {
        HourTable::release(self, run)
    }

    fn is_free(&self, run: Run) -> bool {
        HourTable::is_free(self, run)
    }
}

impl<P: Plant> Subject for P {
    fn hold(&mut self, run: Run) -> bool {
        Plant::hold(self, run).is_ok()
    }

    fn release(&mut self, run: Run) -> bool {
        Plant::release(self, run).is_ok()
    }

    fn is_free(&self, run: Run) -> bool {
        self.first_taken(run).is_none()
    }
}
