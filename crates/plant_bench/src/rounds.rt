use crate::subject::Subject;
use calendar::run::Run;

// The run of the round's step: each link and channel in turn, from a first hour that moves on.
fn step_run(step: u32, round: u32, hours: u8) -> Run {
    Run {
        link: (step / 16 % 40 + 1) as u8,
        channel: (step % 16 + 1) as u8,
        first: ((step % 168 * 7 + round % 168 * 5) % 168) as u8,
        hours,
    }
}

// Makes the call for the run of each step, one on every link and channel; how many were done.
fn count_done<F: FnMut(Run) -> bool>(round: u32, hours: u8, call: F) -> u64
    requires { (state : F) (run : _) → F.pre state run }
{
    (0..640u32)
        .map(|step| step_run(step, round, hours))
        .map(call)
        .filter(|done| *done)
        .count() as u64
}

// Asks whether every run is free, holds them, and releases what was held.
fn one_round<S: Subject>(subject: &mut S, round: u32, hours: u8) -> u64 {
    let free = count_done(round, hours, |run| subject.is_free(run));
    let held = count_done(round, hours, |run| subject.hold(run));
    let released = count_done(round, hours, |run| subject.release(run));
    free.saturating_add(held).saturating_add(released)
}

// Makes 1,920 calls a round, and counts those that were done or found a free run: all of them.
pub fn all_rounds<S: Subject>(subject: &mut S, count: u32, hours: u8) -> u64 {
    (0..count)
        .map(|round| one_round(subject, round, hours))
        .fold(0, u64::saturating_add)
}
