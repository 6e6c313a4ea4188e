// The lines of the tape that a call was lent: it writes from the first and leaves the others.
ghost use Rattle.std.specs.Prelude.{◌≡◌, ◌+◌, ◌≤◌, [], ◌∷◌, ◌++◌, length};

use market::words::TapeLine;

#[derive(Drop)]
pub(crate) struct Tape<'a> {
    lines: &'a mut [TapeLine],
    pub(crate) used: usize,
    ghost within: { used ≤ length lines.now },
}

impl<'a> Tape<'a> {
    ghost use Rattle.trading.specs.Tapes.{written, HasRoom, Grew};

    pub(crate) fn new(lines: &'a mut [TapeLine]) -> Tape<'a>
        ensures same { result.lines.ghost_name ≡ lines.entry.ghost_name }
        ensures lines { result.lines.now ≡ lines.old }
        ensures used { result.used ≡ 0 }
        ensures written { written result ≡ [] }
    {
        Tape { lines, used: 0 }
    }

    pub(crate) fn write(&mut self, line: TapeLine)
        requires { HasRoom 1 self.old }
        ensures used { self.new.used ≡ self.old.used + 1 }
        ensures written { written self.new ≡ written self.old ++ line ∷ [] }
        ensures grew { Grew self.old self.new }
    {
        self.lines[self.used] = line;
        self.used += 1;
    }
}
