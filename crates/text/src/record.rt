// The records that day lines hold.
ghost use Rattle.std.specs.Prelude.{◌≡◌};

use market::words::{Column, PricedOrder, Side};

#[derive(Clone, Copy)]
pub enum Record {
    Set {
        class: u32,
        column: Column,
        last_sale: u32,
    },
    Limit(PricedOrder),
    ImmediateOrCancel(PricedOrder),
    Stop(PricedOrder),
    Market {
        side: Side,
        member: u32,
        shares: u32,
    },
    Cancel {
        member: u32,
        number: u32,
    },
    FloorTrade {
        price: u32,
        shares: u32,
    },
    Resume,
    Open,
    Close,
}

// Which record a line holds, as its letter says.
#[derive(Clone, Copy)]
pub(crate) enum RecordKind {
    Set,
    Limit,
    ImmediateOrCancel,
    Stop,
    Market,
    Cancel,
    FloorTrade,
    Resume,
    Open,
    Close,
}

impl Record {
    ghost use Rattle.text.specs.Written.{kind_for};

    pub(crate) fn kind(self) -> RecordKind
        ensures { result ≡ kind_for self }
    {
        match self {
            Record::Set { .. } => RecordKind::Set,
            Record::Limit(_) => RecordKind::Limit,
            Record::ImmediateOrCancel(_) => RecordKind::ImmediateOrCancel,
            Record::Stop(_) => RecordKind::Stop,
            Record::Market { .. } => RecordKind::Market,
            Record::Cancel { .. } => RecordKind::Cancel,
            Record::FloorTrade { .. } => RecordKind::FloorTrade,
            Record::Resume => RecordKind::Resume,
            Record::Open => RecordKind::Open,
            Record::Close => RecordKind::Close,
        }
    }
}
