// Writing a line of the tape at the start of a buffer.
ghost use Rattle.std.specs.Prelude.{◌≡◌, ◌≤◌, [], ◌∷◌, ◌++◌, length, Ok};
ghost use Rattle.text.specs.Written.{text_of, put_length, put_buffer};
ghost use Rattle.text.specs.Tape.{tape_bytes};

use crate::line::Line;
use crate::refusal::Refusal;
use market::words::TapeLine;

// The line without its end.
fn fields_of(line: TapeLine) -> Line
    ensures text { text_of result ≡ tape_bytes line }
    ensures within { length (text_of result) ≤ 56 }
{
    match line {
        TapeLine::Print {
            order,
            price,
            shares,
            low,
            high,
        } => {
            let mut text = Line::new(b'P');
            text.field(order);
            text.field(price);
            text.field(shares);
            text.field(low);
            text.field(high);
            text
        }
        TapeLine::Cancel { order, shares } => {
            let mut text = Line::new(b'X');
            text.field(order);
            text.field(shares);
            text
        }
        TapeLine::Elect { order } => {
            let mut text = Line::new(b'E');
            text.field(order);
            text
        }
        TapeLine::Floor { price, shares } => {
            let mut text = Line::new(b'F');
            text.field(price);
            text.field(shares);
            text
        }
    }
}

// The line with its end.
fn tape_line(line: TapeLine) -> Line
    ensures text { text_of result ≡ tape_bytes line ++ 10 ∷ [] }
    ensures within { length (tape_bytes line) ≤ 56 }
{
    let mut text = fields_of(line);
    text.end();
    text
}

// Puts the line and its end at the buffer's start, and answers how many bytes that are.
pub fn write_tape_line(line: TapeLine, buffer: &mut [u8]) -> Result<usize, Refusal>
    ensures answer { result ≡ put_length (Ok (tape_bytes line ++ 10 ∷ [])) buffer.old }
    ensures buffer { buffer.new ≡ put_buffer (Ok (tape_bytes line ++ 10 ∷ [])) buffer.old }
    ensures within { length (tape_bytes line) ≤ 56 }
{
    tape_line(line).copy_to(buffer)
}
