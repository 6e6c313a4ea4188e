// The rules of a trading day stand in specs/ as definitions that compute. Each function here carries one law over every day,
// every lawful share-out rule, every capacity of the stop file and every list of calls: without its proof the crate is refused.
#![tactic(auto)]

ghost use Rattle.replay.specs.Accounts.{Accounts};
ghost use Rattle.replay.specs.BookInOrder.{BookInOrder};
ghost use Rattle.replay.specs.Bounds.{NumbersInBounds};
ghost use Rattle.replay.specs.Elections.{ElectedByFirst, StopsAreFiled};
ghost use Rattle.replay.specs.Examples.{Examples};
ghost use Rattle.replay.specs.Givers.{BookGives};
ghost use Rattle.replay.specs.History.{HistoryUnread};
ghost use Rattle.replay.specs.Lines.{NeverShort, TapeSuffices, WorkedOff};
ghost use Rattle.replay.specs.Placed.{OpenHasPlace};
ghost use Rattle.replay.specs.Matches.{PrintsMatch};
ghost use Rattle.replay.specs.OnlyFiled.{ElectedOnce, OnlyFiledElected};
ghost use Rattle.replay.specs.Pauses.{PauseStays, RunsPause};
ghost use Rattle.replay.specs.RangeStays.{RangeBegins, RangeStays};
ghost use Rattle.replay.specs.RefusalsGiven.{RefusalsGiven};
ghost use Rattle.replay.specs.RollHolds.{RollHolds};
ghost use Rattle.replay.specs.SharesAddUp.{SharesAddUp};
ghost use Rattle.replay.specs.Starts.{RunsFollow};
ghost use Rattle.replay.specs.StopsUnseen.{StopsUnseen};
ghost use Rattle.replay.specs.TapeGrows.{TapeGrows};
ghost use Rattle.replay.specs.TwoRules.{BothRules};

// Days worked out by hand come out as they should.
pub fn examples_hold()
    ensures { Examples }
{}

// Price and shares of stops that are never elected change nothing that anybody sees.
pub fn unelected_stops_are_invisible()
    ensures { StopsUnseen }
{}

// Limits and ranges are kept, the best bid is below the best offer, and nobody waits unless trading is paused.
pub fn book_in_order()
    ensures { BookInOrder }
{}

// A filed stop is elected by the first print or floor trade that reaches it, and by nothing else.
pub fn elected_by_the_first()
    ensures { ElectedByFirst }
{}

// After its own call a stop is in the file.
pub fn filed_at_once()
    ensures { StopsAreFiled }
{}

// Shares add up, order by order, over the day and against the tape.
pub fn shares_add_up()
    ensures { SharesAddUp }
{}

// After every call the line is worked off, or trading is paused.
pub fn line_is_worked_off()
    ensures { WorkedOff }
{}

// A call writes no more lines than it asks for.
pub fn lines_fit_the_need()
    ensures { TapeSuffices }
{}

// With 2,049 free lines no call is refused for want of lines.
pub fn never_short_of_lines()
    ensures { NeverShort }
{}

// A range in force stays through a call, and its prints show it and lie within it.
pub fn range_stays()
    ensures { RangeStays }
{}

// Where no range is in force, the first run that prints shows 0 and 0; then the range stands round its last print, for all others.
pub fn range_begins()
    ensures { RangeBegins }
{}

// Time priority and rotation are lawful.
pub fn both_rules_are_lawful()
    ensures { BothRules }
{}

// The orders of a day are numbered in turn, and the roll holds 512 of them.
pub fn roll_holds_512()
    ensures { RollHolds }
{}

// No rule looks at the tape: calls on a day without its history give the same answers and lines.
pub fn history_is_not_read()
    ensures { HistoryUnread }
{}

// Prices, members, class, last sale and range stay within what the market takes.
pub fn numbers_in_bounds()
    ensures { NumbersInBounds }
{}

// What a call hands over follows what the tape had.
pub fn tape_grows()
    ensures { TapeGrows }
{}

// 43, 46 and 32 are given for their own causes alone; with room for 512 stops and 2,049 free lines there is no 46 and no 44.
pub fn refusals_have_causes()
    ensures { RefusalsGiven }
{}

// Open shares have a place: on the book, in line, or in the stop file.
pub fn open_has_place()
    ensures { OpenHasPlace }
{}

// Every order has whole lots: accepted, filled, cancelled and open.
pub fn orders_have_whole_lots()
    ensures { Accounts }
{}

// A performed call is its own start, and then the line worked off.
pub fn runs_follow()
    ensures { RunsFollow }
{}

// An E line is that of a stop which was in the file before the call, and which an earlier line of the call reached.
pub fn only_filed_are_elected()
    ensures { OnlyFiledElected }
{}

// No order is elected twice in a day.
pub fn elected_once()
    ensures { ElectedOnce }
{}

// What a P line gives its order, limit orders of the other side give together.
pub fn prints_match()
    ensures { PrintsMatch }
{}

// A run pauses trading exactly when shares of its order are left with an order of the other side within its limit; then the call is over.
pub fn runs_pause_trading()
    ensures { RunsPause }
{}

// A pause stays until a performed floor trade or Resume ends it, and nobody runs in it.
pub fn pause_stays()
    ensures { PauseStays }
{}

// Who gives to a run rested on the other side of the book when the run began.
pub fn book_gives()
    ensures { BookGives }
{}
