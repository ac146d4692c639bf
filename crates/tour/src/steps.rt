use calendar::refusal::PlantRefusal;
use calendar::run::Run;
use plant::Plant;
use std::io;

fn run(link: u8, channel: u8, first: u8, hours: u8) -> Run {
    Run {
        link,
        channel,
        first,
        hours,
    }
}

fn show_answer<P: Plant>(
    rt: &HostRuntime,
    plant: &P,
    link: u8,
    answer: Result<(), PlantRefusal>,
) -> io::Result<()> {
    match answer {
        Ok(()) => println!(rt;
            "done; link {link} now has {} held cells, and there is room for {} runs",
            plant.held_count(link),
            plant.room()
        ),
        Err(why) => println!(rt; "refused by {}, {why}", why.number()),
    }
}

fn hold<P: Plant>(rt: &HostRuntime, plant: &mut P, run: Run) -> io::Result<()> {
    print!(rt; "  hold {run}: ")?;
    let answer = plant.hold(run);
    show_answer(rt, plant, run.link, answer)
}

fn release<P: Plant>(rt: &HostRuntime, plant: &mut P, run: Run) -> io::Result<()> {
    print!(rt; "  release {run}: ")?;
    let answer = plant.release(run);
    show_answer(rt, plant, run.link, answer)
}

fn ask<P: Plant>(rt: &HostRuntime, plant: &P, run: Run) -> io::Result<()> {
    print!(rt; "  ask for {run}: ")?;
    match plant.first_taken(run) {
        Some(hour) => println!(rt; "hour {hour} is the first that is not free"),
        None => println!(rt; "free"),
    }
}

pub fn office_steps<P: Plant>(rt: &HostRuntime, plant: &mut P) -> io::Result<()> {
    hold(rt, plant, run(1, 1, 166, 4))?;
    hold(rt, plant, run(1, 1, 1, 1))?;
    hold(rt, plant, run(1, 1, 2, 164))?;
    hold(rt, plant, run(2, 1, 22, 1))?;
    hold(rt, plant, run(5, 1, 0, 1))?;
    ask(rt, plant, run(2, 1, 10, 168))?;
    release(rt, plant, run(1, 1, 166, 2))?;
    release(rt, plant, run(1, 1, 166, 4))
}

pub fn rack_steps<P: Plant>(rt: &HostRuntime, plant: &mut P) -> io::Result<()> {
    hold(rt, plant, run(1, 2, 6, 5))?;
    hold(rt, plant, run(1, 2, 10, 1))?;
    hold(rt, plant, run(2, 1, 167, 168))?;
    hold(rt, plant, run(2, 2, 0, 1))?;
    hold(rt, plant, run(3, 1, 5, 1))?;
    hold(rt, plant, run(1, 1, 168, 1))?;
    ask(rt, plant, run(1, 2, 0, 6))?;
    release(rt, plant, run(1, 2, 6, 4))?;
    release(rt, plant, run(1, 2, 6, 5))
}
