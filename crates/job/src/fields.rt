// Parts a line into fields, and reads a field as a number.
ghost use Rattle.std.specs.Prelude.{◌≡◌, ◌-◌, ◌≤◌, ◌==◌, ◌∷◌, map};
ghost use Rattle.job.specs.Text.{comma, fields};
ghost use Rattle.job.specs.Number.{number};
ghost use Rattle.job.specs.Inside.{seen, padded};

// The byte that parts the fields.
const COMMA: u8 = b',';

fn is_comma(byte: &u8) -> bool
    ensures { result ≡ byte.now == comma }
{
    *byte == COMMA
}

// A line's first field, and the four after it, as far as it has so many. The first is always there; it is an Option because
// `next` answers one.
pub(crate) fn first_fields<'a>(line: &'a [u8]) -> (Option<&'a [u8]>, [Option<&'a [u8]>; 4])
    ensures { seen result.0 ∷ map seen result.1 ≡ padded 5 (fields line.now) }
{
    let mut fields = line.split(is_comma);
    (
        fields.next(),
        [fields.next(), fields.next(), fields.next(), fields.next()],
    )
}

// A number of 1 to 3 digits without leading zero. By its digits and not by `parse`, which takes a sign and leading zeros.
pub(crate) fn read_number(field: &[u8]) -> Option<u16>
    ensures { result ≡ number field.now }
{
    match *field {
        [a @ b'0'..=b'9'] => Some(digit_value(a)),
        [a @ b'1'..=b'9', b @ b'0'..=b'9'] => Some(10 * digit_value(a) + digit_value(b)),
        [a @ b'1'..=b'9', b @ b'0'..=b'9', c @ b'0'..=b'9'] => Some(
            100 * digit_value(a) + 10 * digit_value(b) + digit_value(c),
        ),
        _ => None,
    }
}

fn digit_value(digit: u8) -> u16
    requires { 48 ≤ digit }
    ensures { result ≡ digit - 48 }
{
    u16::from(digit - b'0')
}
