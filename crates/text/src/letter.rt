// Values that a line writes as one letter.
ghost use Rattle.std.specs.Prelude.{◌≡◌, ℕ, Option as Maybe};
ghost use Rattle.text.specs.Spelling.{IsSpelling};
ghost use Rattle.text.specs.Letters.{kind_of, side_of, column_of, kind_letter, side_letter, column_letter, fields_of};
ghost use Rattle.text.specs.Spelled.{kind_spelling, side_spelling, column_spelling};

use crate::record::RecordKind;
use market::words::{Column, Side};

pub(crate) trait Lettered: Copy {
    ghost letter: { Self → ℕ };

    ghost meaning: { ℕ → Maybe Self };

    // Reading and writing undo each other.
    ghost spelling: { IsSpelling meaning letter };

    fn letter(self) -> u8
        ensures { result ≡ letter self };

    fn from_letter(byte: u8) -> Option<Self>
        ensures { result ≡ meaning byte };
}

impl Lettered for Side {
    ghost letter = { side_letter };

    ghost meaning = { side_of };

    ghost spelling = { side_spelling };

    fn letter(self) -> u8 {
        match self {
            Side::Buy => b'B',
            Side::Sell => b'S',
        }
    }

    fn from_letter(byte: u8) -> Option<Side> {
        match char::from(byte) {
            'B' => Some(Side::Buy),
            'S' => Some(Side::Sell),
            _ => None,
        }
    }
}

impl Lettered for Column {
    ghost letter = { column_letter };

    ghost meaning = { column_of };

    ghost spelling = { column_spelling };

    fn letter(self) -> u8 {
        match self {
            Column::Lower => b'L',
            Column::Higher => b'H',
        }
    }

    fn from_letter(byte: u8) -> Option<Column> {
        match char::from(byte) {
            'L' => Some(Column::Lower),
            'H' => Some(Column::Higher),
            _ => None,
        }
    }
}

impl Lettered for RecordKind {
    ghost letter = { kind_letter };

    ghost meaning = { kind_of };

    ghost spelling = { kind_spelling };

    fn letter(self) -> u8 {
        match self {
            RecordKind::Set => b'G',
            RecordKind::Limit => b'N',
            RecordKind::ImmediateOrCancel => b'I',
            RecordKind::Stop => b'T',
            RecordKind::Market => b'M',
            RecordKind::Cancel => b'C',
            RecordKind::FloorTrade => b'F',
            RecordKind::Resume => b'R',
            RecordKind::Open => b'O',
            RecordKind::Close => b'Z',
        }
    }

    fn from_letter(byte: u8) -> Option<RecordKind> {
        match char::from(byte) {
            'G' => Some(RecordKind::Set),
            'N' => Some(RecordKind::Limit),
            'I' => Some(RecordKind::ImmediateOrCancel),
            'T' => Some(RecordKind::Stop),
            'M' => Some(RecordKind::Market),
            'C' => Some(RecordKind::Cancel),
            'F' => Some(RecordKind::FloorTrade),
            'R' => Some(RecordKind::Resume),
            'O' => Some(RecordKind::Open),
            'Z' => Some(RecordKind::Close),
            _ => None,
        }
    }
}

impl RecordKind {
    // How many fields a line of this kind has, its letter counted.
    pub(crate) fn field_count(self) -> usize
        ensures { result ≡ fields_of self }
    {
        match self {
            RecordKind::Limit | RecordKind::ImmediateOrCancel | RecordKind::Stop => 5,
            RecordKind::Set | RecordKind::Market => 4,
            RecordKind::Cancel | RecordKind::FloorTrade => 3,
            RecordKind::Resume | RecordKind::Open | RecordKind::Close => 1,
        }
    }
}
