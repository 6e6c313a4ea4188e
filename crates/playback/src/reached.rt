// A day that a list of calls has reached.
ghost use Rattle.playback.specs.Stages.{day_in, rule_in, file_in};
ghost use Rattle.playback.specs.Reached.{IsReached};

use crate::stage::Stage;
use sharing::rule::ShareOut;
use stops::stop_file::StopFile;

pub mod calls;

// A day in whichever phase it is. Nobody can make one but from a new day, by calls: so the laws of every list of calls hold of it.
#[derive(Drop)]
pub struct ReachedDay<R: ShareOut, F: StopFile> {
    pub(crate) stage: Stage<R, F>,
    pub ghost reached: { ∥ IsReached (R.ShareOut.gifts (rule_in stage)) (F.StopFile.room (file_in stage)) (day_in stage) ∥₁ },
}
