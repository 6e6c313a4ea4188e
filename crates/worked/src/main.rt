// Runs worked sessions of a day and says of each whether all that was seen of it is what the rules give.
#![tactic(auto)]

mod call_by_call;
mod compare;
mod examples;
mod faults;
mod few_lines;
mod full_roll;
mod lent;
mod pauses;
mod questions;
mod replays;
mod seen;
mod sessions;
mod single_calls;
mod steps;

use crate::examples::EXAMPLES;
use crate::pauses::PAUSES;
use crate::replays::{show, show_narrow};
use crate::sessions::{MISASKED, MISTOLD, NARROW, Row, SESSIONS, Session};
use std::io;

// Nothing trades while the roll fills.
fn full<'a>(name: &'a str, rows: &'a [Row]) -> Session<'a> {
    Session {
        name,
        rows,
        by_time: &[],
        by_turns: &[],
        asked: &[],
    }
}

fn show_replays(rt: &impl Print, sessions: &[Session<'_>]) -> io::Result<()> {
    for session in sessions {
        show(rt, session)?;
    }
    Ok(())
}

fn show_full_rolls(rt: &impl Print) -> io::Result<()> {
    show(rt, &full("512 orders loaded", &full_roll::loaded()))?;
    show(rt, &full("512 orders entered", &full_roll::entered()))
}

fn show_examples(rt: &impl Print) -> io::Result<()> {
    show_replays(rt, &EXAMPLES)?;
    show_replays(rt, &PAUSES)?;
    show_replays(rt, &MISTOLD)
}

fn show_all_replays(rt: &impl Print) -> io::Result<()> {
    show_replays(rt, &SESSIONS)?;
    show_full_rolls(rt)?;
    show_narrow(rt, &NARROW)?;
    single_calls::show(rt)?;
    show_examples(rt)
}

fn show_call_by_call(rt: &impl Print, sessions: &[Session<'_>]) -> io::Result<()> {
    for session in sessions {
        call_by_call::show(rt, session)?;
    }
    Ok(())
}

fn show_full_rolls_call_by_call(rt: &impl Print) -> io::Result<()> {
    call_by_call::show(rt, &full("512 orders loaded", &full_roll::loaded()))?;
    call_by_call::show(rt, &full("512 orders entered", &full_roll::entered()))
}

fn show_examples_call_by_call(rt: &impl Print) -> io::Result<()> {
    show_call_by_call(rt, &EXAMPLES)?;
    show_call_by_call(rt, &PAUSES)?;
    few_lines::show(rt)
}

fn show_all_call_by_call(rt: &impl Print) -> io::Result<()> {
    show_call_by_call(rt, &SESSIONS)?;
    show_full_rolls_call_by_call(rt)?;
    call_by_call::show_narrow(rt, &NARROW)?;
    show_examples_call_by_call(rt)?;
    show_call_by_call(rt, &MISTOLD)?;
    show_call_by_call(rt, &MISASKED)
}

fn main(rt: HostRuntime) -> io::Result<()> {
    show_all_replays(&rt)?;
    show_all_call_by_call(&rt)
}
