// Replays the days of one input, each behind a line of its name that begins with '#', and prints what comes of each behind its name.
#![tactic(auto)]

use session::day::replay_day;
use std::io;
use std::io::Read;
use streams::kept::Kept;
use streams::sink::Sink;

fn main(rt: HostRuntime) -> io::Result<()> {
    let mut input: Vec<u8> = Vec::new(rt.alloc());
    let _ = rt.stdin().read_to_end(&mut input)?;
    let mut out = Kept::new(rt.stdout());
    for case in input.as_slice().split(|byte| *byte == b'#').skip(1) {
        let end = case.iter().position(|byte| *byte == b'\n');
        let (name, day) = case.split_at(end.map_or(case.len(), |n| n + 1));
        out.put(b"#");
        out.put(name);
        replay_day(day, &mut out);
    }
    out.finish();
    out.check()
}
