// The transcripts of two texts under one rule, each for a day of its own with a stop file of its own kind.
ghost use Rattle.std.specs.Prelude.{◌≡◌, length};
ghost use Rattle.streams.specs.Sinks.{Took};
ghost use Rattle.text.specs.Printed.{bytes_of};
ghost use Rattle.session.specs.Laws.{Unseen, TextLaws};
ghost use Rattle.session.specs.Transcripts.{transcript, lines_after};

use crate::transcript::transcript;
use market::words::TapeLine;
use sharing::rule::ShareOut;
use stops::stop_file::StopFile;
use streams::sink::Sink;

// Of stops that differ between the texts in price and shares alone, nobody can tell from what is printed as long as they are elected on neither
// day, but by the shares of their own cancellation and by the totals.
pub fn transcript_both<R, F, G, K, L>(
    rule: R,
    file: F,
    other: G,
    lines: &mut [TapeLine],
    text: &[u8],
    other_text: &[u8],
    sink: &mut K,
    other_sink: &mut L,
)
where
    R: ShareOut + Copy,
    F: StopFile + Drop,
    G: StopFile + Drop,
    K: Sink,
    L: Sink,
    ensures first { Took (K.state sink.old) (K.state sink.new) (bytes_of (transcript (R.ShareOut.gifts rule) (F.StopFile.room file) (length lines.old) text.now)) }
    ensures second { Took (L.state other_sink.old) (L.state other_sink.new) (bytes_of (transcript (R.ShareOut.gifts rule) (G.StopFile.room other) (length lines.old) other_text.now)) }
    ensures unseen { F.StopFile.room file ≡ G.StopFile.room other → Unseen (R.ShareOut.gifts rule) (F.StopFile.room file) (G.StopFile.room other) (length lines.old) text.now other_text.now }
    ensures lines { lines.new ≡ lines_after (R.ShareOut.gifts rule) (G.StopFile.room other) (length lines.old) other_text.now (lines_after (R.ShareOut.gifts rule) (F.StopFile.room file) (length lines.old) text.now lines.old) }
    ensures laws { TextLaws (R.ShareOut.gifts rule) (F.StopFile.room file) (length lines.old) text.now × TextLaws (R.ShareOut.gifts rule) (G.StopFile.room other) (length lines.old) other_text.now }
{
    transcript(rule, file, lines, text, sink);
    transcript(rule, other, lines, other_text, other_sink);
}
