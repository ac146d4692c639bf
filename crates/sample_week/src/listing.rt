use floor::report::Report;
use orders::call::{Accepted, Slot};
use orders::refusal::Refusal;
use orders::row::Row;
use std::{fmt, io};

// The line of the sample file on which its first order stands.
const FIRST_LINE: usize = 7;

// A: number, first channel, first hour, count of links, links.
#[derive(Clone, Copy)]
struct Accepts {
    row: Row,
}

// R: line, refusal, link, channel and hour.
#[derive(Clone, Copy)]
struct Refuses {
    line: usize,
    why: Refusal,
}

// T: channels used, floor, standing orders, channel-hours that they hold.
#[derive(Clone, Copy)]
struct Totals {
    report: Report,
}

impl fmt::Display for Accepts {
    fn fmt<W: fmt::Write>(&self, f: &mut fmt::Formatter<W>) -> fmt::Result {
        let order = self.row.order;
        let way = self.row.way;
        write!(
            f,
            "A{:>7}{:>7}{:>7}{:>7}",
            order.number,
            way.channel,
            order.first,
            way.path.count()
        )?;
        for link in way.path.links() {
            write!(f, "{link:>7}")?;
        }
        Ok(())
    }
}

impl fmt::Display for Refuses {
    fn fmt<W: fmt::Write>(&self, f: &mut fmt::Formatter<W>) -> fmt::Result {
        let place = self.why.place();
        write!(f, "R{:>7}{:>7}", self.line, self.why.number())?;
        write!(f, "{:>7}{:>7}{:>7}", place.link, place.channel, place.hour)
    }
}

impl fmt::Display for Totals {
    fn fmt<W: fmt::Write>(&self, f: &mut fmt::Formatter<W>) -> fmt::Result {
        let r = self.report;
        write!(
            f,
            "T{:>7}{:>7}{:>7}{:>7}",
            r.used, r.floor, r.orders, r.channel_hours
        )
    }
}

pub fn show_answers(rt: &HostRuntime, slots: &[Slot]) -> io::Result<()> {
    for (i, slot) in slots.iter().enumerate() {
        match slot.answer {
            Some(Ok(Accepted::Stands(row))) => println!(rt; "{}", Accepts { row })?,
            Some(Ok(Accepted::Cancelled(number))) => println!(rt; "A{number:>7}")?,
            Some(Err(why)) => println!(rt;
                "{}",
                Refuses {
                    line: FIRST_LINE.saturating_add(i),
                    why
                }
            )?,
            None => {}
        }
    }
    Ok(())
}

pub fn show_report(rt: &HostRuntime, report: Report) -> io::Result<()> {
    println!(rt; "{}", Totals { report })
}
