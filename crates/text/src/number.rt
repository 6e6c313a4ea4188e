// Numbers in the fields of a line.
ghost use Rattle.std.specs.Prelude.{◌≡◌};
ghost use Rattle.text.specs.Numbers.{number_in};

// The number that a field writes: 1 to 7 digits, and a 0 in front only where it is alone.
pub(crate) fn number_in(field: &[u8]) -> Option<u32>
    ensures { result ≡ number_in field.now }
{
    if field.is_empty() || field.len() > 7 || (field[0] == b'0' && field.len() > 1) {
        return None;
    }
    let mut n = 0;
    for b in field {
        if !b.is_ascii_digit() {
            return None;
        }
        n = n * 10 + u32::from(*b - b'0');
    }
    Some(n)
}
