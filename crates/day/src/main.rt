// Replays a day file, given on standard input, and prints what comes of it.
#![tactic(auto)]

use session::day::replay_stream;
use std::io;
use streams::kept::Kept;

fn main(rt: HostRuntime) -> io::Result<()> {
    replay_stream(&mut Kept::new(rt.stdin()), &mut Kept::new(rt.stdout()))
}
