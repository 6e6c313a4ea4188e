// A stop goes into the stop file before it is on the roll.
ghost use Rattle.std.specs.Prelude.{◌≡◌, ◌<◌, true, length, Ok, MatchResult};
ghost use Rattle.replay.specs.Rolls.{is_stop};
ghost use Rattle.orderbook.specs.Trades.{next};
ghost use Rattle.trading.specs.Boards.{orders_of};
ghost use Rattle.stops.specs.Stops.{adding, after_adding};
ghost use Rattle.trading.specs.Deeds.{Filed, with_stop, when_added};

use crate::board::Board;
use market::refusal::Refusal;
use market::words::{Kind, Stop};
use orderbook::ticket::Ticket;
use stops::stop_file::StopFile;

// Adds the stop that a ticket asks for; a ticket of another kind leaves the file as it is. A file that takes no more refuses it.
pub(crate) fn file_stop<F: StopFile>(
    file: &mut F,
    board: &Board,
    ticket: &Ticket,
) -> Result<(), Refusal>
    ensures listed { MatchResult result (λ _. F.StopFile.stops file.new ≡ with_stop ticket.now.kind (next ticket.now (orders_of board.now)) (F.StopFile.stops file.old)) (λ _. F.StopFile.stops file.new ≡ F.StopFile.stops file.old) }
    ensures added { Filed (F.StopFile.stops file.old) board.now → (is_stop ticket.now.kind ≡ true → length (F.StopFile.stops file.old) < F.StopFile.room file.old) → result ≡ Ok tt }
    ensures keeps { F.StopFile.room file.new ≡ F.StopFile.room file.old }
{
    match ticket.kind {
        Kind::Limit | Kind::Market | Kind::ImmediateOrCancel => Ok(()),
        Kind::Stop => add_stop(file, board.next_stop(ticket)),
    }
}

fn add_stop<F: StopFile>(file: &mut F, stop: Stop) -> Result<(), Refusal>
    ensures value { result ≡ when_added (adding (F.StopFile.room file.old) stop (F.StopFile.stops file.old)) }
    ensures listed { F.StopFile.stops file.new ≡ after_adding (adding (F.StopFile.room file.old) stop (F.StopFile.stops file.old)) stop (F.StopFile.stops file.old) }
    ensures keeps { F.StopFile.room file.new ≡ F.StopFile.room file.old }
{
    file.add(stop).map_err(|_| Refusal::StopFileFull)
}
