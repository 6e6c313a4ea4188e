// The sweep again, by the single calls of a day, with questions about an order and the totals.
use market::refusal::Refusal;
use market::words::{Kind, Order, Place, PricedOrder, Side, TapeLine};
use orderbook::book::totals::Totals;
use orderbook::ticket::Ticket;
use sharing::time_priority::TimePriority;
use std::io;
use stops::tables::PriceFile;
use trading::day::LoadingDay;
use trading::loading::begin;

type Loading = LoadingDay<TimePriority, PriceFile>;

fn offer(day: &mut Loading, price: u32, shares: u32) -> Result<u32, Refusal> {
    day.load_limit(PricedOrder {
        side: Side::Sell,
        member: 1,
        price,
        shares,
    })
}

fn loaded() -> Result<Loading, Refusal> {
    let mut day = begin(TimePriority, PriceFile::new());
    day.set(2, 'L', 2010)?;
    offer(&mut day, 2012, 300)?;
    offer(&mut day, 2013, 500)?;
    offer(&mut day, 2015, 400)?;
    offer(&mut day, 2030, 1000)?;
    Ok(day)
}

fn buy(shares: u32) -> Ticket {
    Ticket {
        kind: Kind::Market,
        side: Side::Buy,
        member: 2,
        price: 0,
        shares,
    }
}

// The order that waits once trading is paused, and the totals in the end.
#[derive(Clone, Copy)]
struct Outcome {
    waiting: Order,
    paused: bool,
    totals: Totals,
}

fn sweep() -> Result<Outcome, Refusal> {
    let mut lines = [TapeLine::Elect { order: 0 }; 64];
    let mut day = loaded()?.open();
    day.enter(buy(1000), &mut lines)?;
    let receipt = day.enter(buy(500), &mut lines)?;
    let waiting = day.board().order(receipt.number)?;
    let paused = day.board().is_paused();
    day.floor_trade(2028, 100, &mut lines)?;
    let totals = day.close().board().totals();
    Ok(Outcome {
        waiting,
        paused,
        totals,
    })
}

fn is_expected(outcome: &Outcome) -> bool {
    let Outcome {
        waiting,
        paused,
        totals,
    } = *outcome;
    paused
        && waiting.place == Place::Line
        && waiting.open == 300
        && waiting.filled == 200
        && totals.accepted == 3700
        && totals.printed == 1500
        && totals.cancelled == 0
        && totals.open == 700
}

pub(crate) fn show(rt: &impl Print) -> io::Result<()> {
    match sweep() {
        Err(refusal) => println!(rt; "single calls: refused {}: DIFFERS", refusal.number()),
        Ok(outcome) => println!(rt;
            "single calls: {} shares wait, then {} are printed, {} open: {}",
            outcome.waiting.open,
            outcome.totals.printed,
            outcome.totals.open,
            if is_expected(&outcome) {
                "as expected"
            } else {
                "DIFFERS"
            }
        ),
    }
}
