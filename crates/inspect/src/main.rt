// Shows a day file, given on standard input, line by line: what was read, and which lines are refused and why.
#![tactic(auto)]

use std::io;
use streams::kept::Kept;
use text::inspection::inspect_stream;

fn main(rt: HostRuntime) -> io::Result<()> {
    inspect_stream(&mut Kept::new(rt.stdin()), &mut Kept::new(rt.stdout()))
}
