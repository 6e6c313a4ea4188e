// Drives the stop file by arrival and the one by price through the same calls, and says whether they agree.
#![tactic(auto)]

mod calls;
mod drive;

use crate::calls::{Mix, Random};
use crate::drive::drive;
use market::words::{Side, Stop};
use std::io;
use stops::arrival::ArrivalFile;
use stops::stop_file::StopFile;
use stops::tables::PriceFile;

const PHASES: [Mix; 5] = [
    Mix {
        calls: 300,
        adds: 50,
        removes: 20,
    },
    Mix {
        calls: 900,
        adds: 95,
        removes: 3,
    },
    Mix {
        calls: 400,
        adds: 30,
        removes: 30,
    },
    Mix {
        calls: 900,
        adds: 2,
        removes: 8,
    },
    Mix {
        calls: 300,
        adds: 60,
        removes: 10,
    },
];

fn main(rt: HostRuntime) -> io::Result<()> {
    let blank = Stop {
        number: 0,
        side: Side::Buy,
        price: 0,
        shares: 0,
    };
    let mut slots = [blank; 512];
    let mut arrival = ArrivalFile::new(&mut slots);
    let mut price = PriceFile::new();
    let mut random = Random::new(2003);
    let mut last = 0;
    let mut same = true;
    for mix in PHASES {
        let t = drive(&mut arrival, &mut price, mix, &mut random, &mut last);
        same = same && t.same;
        let left = arrival.count();
        println!(rt;
            "calls {}: added {}, removed {}, taken {}, idle {}, left {}",
            mix.calls, t.added, t.removed, t.taken, t.idle, left
        )?;
    }
    println!(rt; "{}", if same { "same" } else { "different" })
}
