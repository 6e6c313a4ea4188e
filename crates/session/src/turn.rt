// A line is put to a day: its call is performed, or it is refused by one of the layers.
ghost use Rattle.std.specs.Prelude.{◌≡◌, ◌&&◌, not};
ghost use Rattle.replay.specs.Days.{Loading, Closed};
ghost use Rattle.replay.specs.Calls.{is_phase};
ghost use Rattle.playback.specs.ReachedDays.{day_at, rule_at, file_at};
ghost use Rattle.session.specs.Turns.{Came};

use crate::fault::Cause;
use crate::hearing::call_for;
use market::words::TapeLine;
use playback::phase::Phase;
use playback::reached::ReachedDay;
use playback::reply::Reply;
use sharing::rule::ShareOut;
use stops::stop_file::StopFile;
use text::read::Fault;
use text::record::Record;

fn is_loading<R: ShareOut, F: StopFile>(day: &ReachedDay<R, F>) -> bool
    ensures { result ≡ is_phase Loading (day_at day.now).phase }
{
    matches!(day.phase(), Phase::Loading)
}

pub(crate) fn is_closed<R: ShareOut, F: StopFile>(day: &ReachedDay<R, F>) -> bool
    ensures { result ≡ is_phase Closed (day_at day.now).phase }
{
    matches!(day.phase(), Phase::Closed)
}

// Whether a day has just closed, which was not closed before.
pub(crate) fn just_closed<R: ShareOut, F: StopFile>(
    was_closed: bool,
    day: &ReachedDay<R, F>,
) -> bool
    ensures { result ≡ (is_phase Closed (day_at day.now).phase && not was_closed) }
{
    is_closed(day) && !was_closed
}

// Puts what a line says to the day. A line at fault alters nothing.
pub(crate) fn put_line<R: ShareOut, F: StopFile>(
    day: &mut ReachedDay<R, F>,
    read: Result<Record, Fault>,
    lines: &mut [TapeLine],
) -> Result<Reply, Cause>
    ensures came { Came (R.ShareOut.gifts (rule_at day.old)) (F.StopFile.room (file_at day.old)) (day_at day.old) read result (day_at day.new) lines.old lines.new }
    ensures keeps { (F.StopFile.room (file_at day.new) ≡ F.StopFile.room (file_at day.old)) × (rule_at day.new ≡ rule_at day.old) }
{
    let record = read?;
    Ok(day.put(call_for(is_loading(day), record), lines)?)
}
