// A session is replayed under both rules and with both stop files, and a line is printed of it.
ghost use Rattle.playback.specs.Fitting.{SameLent};
ghost use Rattle.worked.specs.Alike.{Alike, SameSpace};

use crate::compare::{is_as_expected, is_same, prints_alike};
use crate::lent::{MOST_CALLS, Memory, NO_LINE, NO_STOP, calls_of};
use crate::sessions::Session;
use playback::call::Call;
use playback::places::Places;
use playback::two_days;
use playback::whole_day::replay_into;
use sharing::rotation::Rotation;
use sharing::rule::ShareOut;
use sharing::time_priority::TimePriority;
use std::io;
use stops::arrival::ArrivalFile;
use stops::tables::PriceFile;

// The lines suffice for any call. Whatever the rule and the calls, the same is noted with either file.
fn replay_both<R: ShareOut + Copy + Drop>(
    rule: R,
    calls: &[Call],
    arrival: &mut Places<'_>,
    price: &mut Places<'_>,
)
    ensures alike { SameSpace arrival.old price.old → Alike arrival.new price.new }
    ensures same { SameLent arrival.old arrival.new × SameLent price.old price.new }
{
    let mut slots = [NO_STOP; 512];
    let mut lines = [NO_LINE; 2049];
    arrival.clear();
    price.clear();
    let by_arrival = ArrivalFile::new(&mut slots);
    let by_price = PriceFile::new();
    two_days::replay_both(
        rule, by_arrival, by_price, calls, calls, &mut lines, arrival, price,
    );
}

// How the two rules compare: orders that traded are filled alike, or others are filled by the same prints.
fn rules_compared(time: &Places<'_>, turns: &Places<'_>) -> &'static str {
    if is_same(time, turns) {
        "rules alike"
    } else if prints_alike(time, turns) {
        "prints alike, fills differ"
    } else {
        "prints differ"
    }
}

pub(crate) fn verdict(good: bool) -> &'static str {
    if good { "as expected" } else { "DIFFERS" }
}

// Calls, lines and the numbers of the refusals.
fn print_counts(rt: &impl Print, name: &str, noted: &Places<'_>) -> io::Result<()> {
    print!(rt;
        "{name}: {} calls, {} lines, refused",
        noted.replies().len(),
        noted.tape().len()
    )?;
    for reply in noted.replies() {
        if let Err(refusal) = reply {
            print!(rt; " {}", refusal.number())?;
        }
    }
    Ok(())
}

pub(crate) fn show(rt: &impl Print, session: &Session<'_>) -> io::Result<()> {
    let mut calls = [Call::Open; MOST_CALLS];
    let calls = calls_of(session.rows, &mut calls);
    let mut first = Memory::new();
    let mut second = Memory::new();
    let mut time = Places::new(&mut first.replies, &mut first.views, &mut first.tape);
    let mut other = Places::new(&mut second.replies, &mut second.views, &mut second.tape);
    replay_both(TimePriority, calls, &mut time, &mut other);
    let by_time = is_as_expected(&time, session.rows, session.by_time) && is_same(&time, &other);
    let mut third = Memory::new();
    let mut turns = Places::new(&mut third.replies, &mut third.views, &mut third.tape);
    replay_both(Rotation, calls, &mut turns, &mut other);
    let by_turns = is_as_expected(&turns, session.rows, session.by_turns)
        && is_same(&turns, &other);
    let rules = rules_compared(&time, &turns);
    print_counts(rt, session.name, &time)?;
    println!(rt;
        "; stop files alike, {rules}: {}",
        verdict(by_time && by_turns)
    )
}

// With few slots for stops and few lines, by arrival alone: the file by price has room for 512 stops.
pub(crate) fn show_narrow(rt: &impl Print, session: &Session<'_>) -> io::Result<()> {
    let mut calls = [Call::Open; MOST_CALLS];
    let mut slots = [NO_STOP; 2];
    let mut lines = [NO_LINE; 11];
    let mut memory = Memory::new();
    let mut noted = Places::new(&mut memory.replies, &mut memory.views, &mut memory.tape);
    let calls = calls_of(session.rows, &mut calls);
    let file = ArrivalFile::new(&mut slots);
    replay_into(TimePriority, file, calls, &mut lines, &mut noted);
    let good = is_as_expected(&noted, session.rows, session.by_time);
    print_counts(rt, session.name, &noted)?;
    println!(rt; ": {}", verdict(good))
}
