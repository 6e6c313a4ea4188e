// What a program shows of what it reads.
ghost use Rattle.std.specs.Prelude.{◌≡◌, ℕ, List, [], false, is_ok, length};
ghost use Rattle.streams.specs.Sinks.{Took};
ghost use Rattle.streams.specs.Relays.{Relayed, Passed};

use crate::buffered::Buffered;
use crate::fill::fill;
use crate::kept::Kept;
use crate::sink::Sink;
use crate::source::Source;
use core::mem::replace_with;
use std::io;
use std::io::{Read, Write};

pub trait Show {
    // what is shown of a text
    ghost shown: { Self → List ℕ → List ℕ };

    fn show<K: Sink>(&mut self, text: &[u8], sink: &mut K)
        ensures { Took (K.state sink.old) (K.state sink.new) (shown self.old text.now) };
}

// How many bytes wait in front of a writer.
const WAITING: usize = 8_192;

// Shows a text by way of some room, and passes all of it on.
fn show_all<S: Show, K: Sink>(view: &mut S, text: &[u8], sink: K) -> K
    ensures { Passed (K.state sink) (K.state result) (S.shown view.old text.now) }
{
    let mut room = [0; WAITING];
    let mut out = Buffered::new(&mut room, sink);
    view.show(text, &mut out);
    out.close()
}

// Reads until the input is full or nothing is left, and shows what came. Where reading failed, nothing is shown.
pub fn relay<S: Show, R: Read, W: Write>(
    view: &mut S,
    source: &mut Kept<R>,
    sink: &mut Kept<W>,
    input: &mut [u8],
) -> io::Result<()>
    ensures { Relayed (S.shown view.old) (length input.old) (⟦<Kept<R> as Source>⟧.state source.old) (⟦<Kept<R> as Source>⟧.state source.new) (⟦<Kept<W> as Sink>⟧.state sink.old) (⟦<Kept<W> as Sink>⟧.state sink.new) (is_ok result) }
{
    let end = fill(source, input);
    source.check()?;
    replace_with(sink, &input[..end], |old: Kept<W>, text: &[u8]| {
        (show_all(view, text, old), ())
    });
    sink.check()
}
