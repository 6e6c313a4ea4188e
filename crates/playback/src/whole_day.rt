// The replay of a whole list of calls on a new day.
ghost use Rattle.std.specs.Prelude.{◌≡◌, map, length};
ghost use Rattle.replay.specs.Days.{new_day};
ghost use Rattle.replay.specs.Calls.{after_calls};
ghost use Rattle.replay.specs.History.{bare, joined};
ghost use Rattle.replay.specs.SharesAddUp.{brought_in};
ghost use Rattle.playback.specs.Fitting.{Holds};
ghost use Rattle.playback.specs.Stages.{call_of};
ghost use Rattle.playback.specs.ReachedDays.{day_at, rule_at, file_at};
ghost use Rattle.playback.specs.Lent.{lent};
ghost use Rattle.playback.specs.Laws.{ListLaws};
ghost use Rattle.playback.specs.Seen.{Follows, seen, lines_seen};
ghost use Rattle.playback.specs.Sums.{AddsUp};

use crate::call::Call;
use crate::notes::Notes;
use crate::places::Places;
use crate::reached::ReachedDay;
use crate::reply::{Reply, View};
use market::words::TapeLine;
use sharing::rule::ShareOut;
use stops::stop_file::StopFile;

// Begins a new day with a rule and a stop file, puts each call to it with the same free lines each time, and notes what came of it. A call
// that is refused alters nothing, and the next one follows: all calls of the list are performed or refused, in order.
pub fn replay<R: ShareOut, F: StopFile, N: Notes>(
    rule: R,
    file: F,
    calls: &[Call],
    lines: &mut [TapeLine],
    notes: &mut N,
) -> ReachedDay<R, F>
    ensures told { Follows N.notes notes.old (seen (R.ShareOut.gifts rule) (F.StopFile.room file) new_day (map (call_of (length lines.old)) calls.now)) notes.new }
    ensures day { day_at result ≡ bare (after_calls (R.ShareOut.gifts rule) (F.StopFile.room file) new_day (map (call_of (length lines.old)) calls.now)) }
    ensures lines { lines.new ≡ lent (R.ShareOut.gifts rule) (F.StopFile.room file) new_day (map (call_of (length lines.old)) calls.now) lines.old }
    ensures sums { AddsUp (day_at result) (joined (lines_seen (seen (R.ShareOut.gifts rule) (F.StopFile.room file) new_day (map (call_of (length lines.old)) calls.now)))) (brought_in (R.ShareOut.gifts rule) (F.StopFile.room file) new_day (map (call_of (length lines.old)) calls.now)) }
    ensures tape { joined (lines_seen (seen (R.ShareOut.gifts rule) (F.StopFile.room file) new_day (map (call_of (length lines.old)) calls.now))) ≡ (after_calls (R.ShareOut.gifts rule) (F.StopFile.room file) new_day (map (call_of (length lines.old)) calls.now)).tape }
    ensures laws { ListLaws (R.ShareOut.gifts rule) (F.StopFile.room file) (map (call_of (length lines.old)) calls.now) }
    ensures keeps { (F.StopFile.room (file_at result) ≡ F.StopFile.room file) × (rule_at result ≡ rule) }
{
    let mut day = ReachedDay::begin(rule, file);
    for call in calls {
        let reply = day.put(*call, lines);
        let used = reply.map_or(0, Reply::lines);
        notes.note(reply, View::of(day.board()), &lines[0..used]);
    }
    day
}

// The same, noted in lent places, whatever was noted there before.
pub fn replay_into<R: ShareOut, F: StopFile>(
    rule: R,
    file: F,
    calls: &[Call],
    lines: &mut [TapeLine],
    places: &mut Places<'_>,
) -> ReachedDay<R, F>
    ensures holds { Holds places.old (seen (R.ShareOut.gifts rule) (F.StopFile.room file) new_day (map (call_of (length lines.old)) calls.now)) places.new }
    ensures day { day_at result ≡ bare (after_calls (R.ShareOut.gifts rule) (F.StopFile.room file) new_day (map (call_of (length lines.old)) calls.now)) }
    ensures lines { lines.new ≡ lent (R.ShareOut.gifts rule) (F.StopFile.room file) new_day (map (call_of (length lines.old)) calls.now) lines.old }
    ensures sums { AddsUp (day_at result) (joined (lines_seen (seen (R.ShareOut.gifts rule) (F.StopFile.room file) new_day (map (call_of (length lines.old)) calls.now)))) (brought_in (R.ShareOut.gifts rule) (F.StopFile.room file) new_day (map (call_of (length lines.old)) calls.now)) }
    ensures tape { joined (lines_seen (seen (R.ShareOut.gifts rule) (F.StopFile.room file) new_day (map (call_of (length lines.old)) calls.now))) ≡ (after_calls (R.ShareOut.gifts rule) (F.StopFile.room file) new_day (map (call_of (length lines.old)) calls.now)).tape }
    ensures laws { ListLaws (R.ShareOut.gifts rule) (F.StopFile.room file) (map (call_of (length lines.old)) calls.now) }
    ensures keeps { (F.StopFile.room (file_at result) ≡ F.StopFile.room file) × (rule_at result ≡ rule) }
{
    places.clear();
    replay(rule, file, calls, lines, places)
}
