// The replay of two lists under one rule, each on a day of its own with a stop file of its own kind.
ghost use Rattle.std.specs.Prelude.{◌≡◌, ℕ, Bool, map, length};
ghost use Rattle.std.specs.List.{AllZip};
ghost use Rattle.replay.specs.Days.{new_day};
ghost use Rattle.replay.specs.Calls.{after_calls};
ghost use Rattle.replay.specs.History.{bare};
ghost use Rattle.replay.specs.StopsUnseen.{Pairs, Unelected};
ghost use Rattle.playback.specs.Alike.{Alike};
ghost use Rattle.playback.specs.Stages.{call_of};
ghost use Rattle.playback.specs.ReachedDays.{day_at, rule_at, file_at};
ghost use Rattle.playback.specs.Lent.{lent};
ghost use Rattle.playback.specs.Laws.{ListLaws};
ghost use Rattle.playback.specs.Seen.{Follows, seen};

use crate::call::Call;
use crate::notes::Notes;
use crate::reached::ReachedDay;
use crate::whole_day::replay;
use market::words::TapeLine;
use sharing::rule::ShareOut;
use stops::stop_file::StopFile;

// Of stops that differ between the lists in price and shares alone, nobody can tell as long as they are elected on neither day: what is noted
// of each call is then the same, but for the shares of their own cancellation.
pub fn replay_both<R: ShareOut + Copy, F: StopFile, G: StopFile, N: Notes, M: Notes>(
    rule: R,
    file: F,
    other: G,
    calls: &[Call],
    others: &[Call],
    lines: &mut [TapeLine],
    first: &mut N,
    second: &mut M,
) -> (ReachedDay<R, F>, ReachedDay<R, G>)
    ensures first { Follows N.notes first.old (seen (R.ShareOut.gifts rule) (F.StopFile.room file) new_day (map (call_of (length lines.old)) calls.now)) first.new }
    ensures second { Follows M.notes second.old (seen (R.ShareOut.gifts rule) (G.StopFile.room other) new_day (map (call_of (length lines.old)) others.now)) second.new }
    ensures unseen { (D : ℕ → Bool) → F.StopFile.room file ≡ G.StopFile.room other
        → Pairs (R.ShareOut.gifts rule) D (F.StopFile.room file) new_day new_day (map (call_of (length lines.old)) calls.now) (map (call_of (length lines.old)) others.now)
        → Unelected D (after_calls (R.ShareOut.gifts rule) (F.StopFile.room file) new_day (map (call_of (length lines.old)) calls.now))
        → Unelected D (after_calls (R.ShareOut.gifts rule) (G.StopFile.room other) new_day (map (call_of (length lines.old)) others.now))
        → AllZip (Alike D) (seen (R.ShareOut.gifts rule) (F.StopFile.room file) new_day (map (call_of (length lines.old)) calls.now)) (seen (R.ShareOut.gifts rule) (G.StopFile.room other) new_day (map (call_of (length lines.old)) others.now)) }
    ensures days { (day_at result.0 ≡ bare (after_calls (R.ShareOut.gifts rule) (F.StopFile.room file) new_day (map (call_of (length lines.old)) calls.now))) × (day_at result.1 ≡ bare (after_calls (R.ShareOut.gifts rule) (G.StopFile.room other) new_day (map (call_of (length lines.old)) others.now))) }
    ensures lines { lines.new ≡ lent (R.ShareOut.gifts rule) (G.StopFile.room other) new_day (map (call_of (length lines.old)) others.now) (lent (R.ShareOut.gifts rule) (F.StopFile.room file) new_day (map (call_of (length lines.old)) calls.now) lines.old) }
    ensures laws { ListLaws (R.ShareOut.gifts rule) (F.StopFile.room file) (map (call_of (length lines.old)) calls.now) × ListLaws (R.ShareOut.gifts rule) (G.StopFile.room other) (map (call_of (length lines.old)) others.now) }
    ensures keeps { (F.StopFile.room (file_at result.0) ≡ F.StopFile.room file) × (G.StopFile.room (file_at result.1) ≡ G.StopFile.room other) × (rule_at result.0 ≡ rule) × (rule_at result.1 ≡ rule) }
{
    let day = replay(rule, file, calls, lines, first);
    let other_day = replay(rule, other, others, lines, second);
    (day, other_day)
}
