use crate::list_plant::ListPlant;
use calendar::refusal::PlantRefusal;
use calendar::run::{Run, Size};
use dice::Dice;
use plant::Plant;
use std::alloc::AllocError;

// A call of a plant, with its arguments.
#[derive(Clone, Copy)]
pub enum Call {
    Size,
    Room,
    Closed(Run),
    Held(Run),
    HeldCount(u8),
    Hold(Run),
    Release(Run),
    FirstTaken(Run),
}

// What a plant answers to it.
#[derive(Clone, Copy, Debug, PartialEq, Eq)]
pub enum Answer {
    Size(Size),
    Count(u32),
    Yes(bool),
    Done(Result<(), PlantRefusal>),
    Found(Option<u8>),
}

pub fn proved_answer<P: Plant>(plant: &mut P, call: Call) -> Answer {
    match call {
        Call::Size => Answer::Size(plant.size()),
        Call::Room => Answer::Count(plant.room()),
        Call::Closed(run) => Answer::Yes(plant.closed(run.link, run.channel, run.first)),
        Call::Held(run) => Answer::Yes(plant.held(run.link, run.channel, run.first)),
        Call::HeldCount(link) => Answer::Count(plant.held_count(link)),
        Call::Hold(run) => Answer::Done(plant.hold(run)),
        Call::Release(run) => Answer::Done(plant.release(run)),
        Call::FirstTaken(run) => Answer::Found(plant.first_taken(run)),
    }
}

// What the plain plant answers.
pub fn plain_answer(plant: &mut ListPlant, call: Call) -> Result<Answer, AllocError> {
    Ok(match call {
        Call::Size => Answer::Size(plant.size()),
        Call::Room => Answer::Count(plant.room()),
        Call::Closed(run) => Answer::Yes(plant.closed(run.link, run.channel, run.first)),
        Call::Held(run) => Answer::Yes(plant.held(run.link, run.channel, run.first)),
        Call::HeldCount(link) => Answer::Count(plant.held_count(link)),
        Call::Hold(run) => Answer::Done(plant.hold(run)?),
        Call::Release(run) => Answer::Done(plant.release(run)),
        Call::FirstTaken(run) => Answer::Found(plant.first_taken(run)),
    })
}

pub fn run(link: u8, channel: u8, first: u8, hours: u8) -> Run {
    Run {
        link,
        channel,
        first,
        hours,
    }
}

// A first hour: mostly one of the week, with its edges often, and now and then one outside.
fn some_first(dice: &mut Dice) -> u8 {
    match dice.roll(10) {
        0 => 167,
        1 => 0,
        2 => 168,
        3 => dice.small(255),
        _ => dice.small(168),
    }
}

// A number of hours: mostly few, with the edges 0, 1, 167, 168 and 169 now and then.
fn some_hours(dice: &mut Dice) -> u8 {
    match dice.roll(24) {
        0 => 0,
        1 => 168,
        2 => 169,
        3 => 167,
        4 => dice.small(255),
        5..=9 => 1,
        _ => dice.small(12),
    }
}

// A run near the edges of the sizes, inside or just outside.
pub fn some_run(dice: &mut Dice, links: u8, channels: u8) -> Run {
    run(
        dice.small(links.saturating_add(2)),
        dice.small(channels.saturating_add(2)),
        some_first(dice),
        some_hours(dice),
    )
}

// A run to release: mostly one that is live.
fn some_live(dice: &mut Dice, plant: &ListPlant) -> Run {
    let stray = some_run(dice, plant.links, plant.channels);
    if dice.roll(4) == 0 {
        return stray;
    }
    let at = dice.roll(plant.runs.len() as u64) as usize;
    plant.runs.get(at).copied().unwrap_or(stray)
}

// A call to make next.
pub fn some_call(dice: &mut Dice, plant: &ListPlant) -> Call {
    let run = some_run(dice, plant.links, plant.channels);
    match dice.roll(16) {
        0 => Call::Size,
        1 => Call::Room,
        2 => Call::Closed(run),
        3 => Call::Held(run),
        4 => Call::HeldCount(run.link),
        5..=6 => Call::FirstTaken(run),
        7..=10 => Call::Release(some_live(dice, plant)),
        _ => Call::Hold(run),
    }
}
