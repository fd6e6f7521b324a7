//! Escapes in rune and string literals.
ghost use Rattle.std.specs.Prelude.{◌≡◌, ◌≤◌, ◌<◌, ◌^◌, length};
ghost use Rattle.go_scan.specs.Escapes.{count, escape_base, escape_prefix, means, letter_escape};
ghost use Rattle.go_scan.specs.Fronts.{digits_at, number_escape_at, other_escape_at, escape_at};

/// What an escape means.
#[derive(Clone, Copy)]
pub enum Meaning {
    /// A byte, by its value.
    Byte(u8),
    /// A character.
    Character(char),
}

/// The forms of escapes by number.
#[derive(Clone, Copy)]
pub enum Form {
    /// Three octal digits.
    Octal,
    /// `x` and two hexadecimal digits.
    Two,
    /// `u` and four.
    Four,
    /// `U` and eight.
    Eight,
}

impl Form {
    fn count(self) -> usize
        ensures value { result ≡ count self }
        ensures few { result ≤ 8 }
    {
        match self {
            Form::Octal => 3,
            Form::Two => 2,
            Form::Four => 4,
            Form::Eight => 8,
        }
    }

    fn base(self) -> u32
        ensures value { result ≡ escape_base self }
        ensures low { 2 ≤ result }
        ensures high { result ≤ 16 }
    {
        match self {
            Form::Octal => 8,
            Form::Two | Form::Four | Form::Eight => 16,
        }
    }

    /// How many bytes stand between the backslash and the digits.
    fn opening_len(self) -> usize
        ensures value { result ≡ length (escape_prefix self) }
        ensures few { result ≤ 1 }
    {
        match self {
            Form::Octal => 0,
            Form::Two | Form::Four | Form::Eight => 1,
        }
    }

    /// What a number means, if anything.
    fn means(self, number: u32) -> Option<Meaning>
        ensures { result ≡ means self number }
    {
        match self {
            Form::Octal | Form::Two => {
                if number < 256 {
                    Some(Meaning::Byte(number as u8))
                } else {
                    None
                }
            }
            Form::Four | Form::Eight => match char::from_u32(number) {
                Some(c) => Some(Meaning::Character(c)),
                None => None,
            },
        }
    }
}

/// The number that so many digits write at the front, if they stand there.
fn digits_at(base: u32, count: usize, bytes: &[u8]) -> Option<u32>
    requires low { 2 ≤ base }
    requires high { base ≤ 16 }
    requires few { count ≤ 8 }
    ensures { result ≡ digits_at base count 0 bytes.now }
{
    if bytes.len() < count {
        return None;
    }
    let mut number: u64 = 0;
    for i in 0..count {
        match (bytes[i] as char).to_digit(base) {
            Some(digit) => number = number * base as u64 + digit as u64,
            None => return None,
        }
    }
    Some(number as u32)
}

///     octal_byte_value = `\` octal_digit octal_digit octal_digit .
///     hex_byte_value   = `\` "x" hex_digit hex_digit .
///     little_u_value   = `\` "u" hex_digit hex_digit hex_digit hex_digit .
///     big_u_value      = `\` "U" hex_digit hex_digit hex_digit hex_digit
///                            hex_digit hex_digit hex_digit hex_digit .
fn number_escape_at(form: Form, bytes: &[u8]) -> Option<(usize, Meaning)>
    ensures { result ≡ number_escape_at form bytes.now }
{
    let number = digits_at(form.base(), form.count(), bytes)?;
    let meaning = form.means(number)?;
    Some((1 + form.opening_len() + form.count(), meaning))
}

///     escaped_char = `\` ( "a" | "b" | "f" | "n" | "r" | "t" | "v" | `\` | quote ) .
fn letter_escape(quote: u8, byte: u8) -> Option<u8>
    ensures { result ≡ letter_escape quote byte }
{
    match byte {
        b'a' => Some(7),
        b'b' => Some(8),
        b'f' => Some(12),
        b'n' => Some(10),
        b'r' => Some(13),
        b't' => Some(9),
        b'v' => Some(11),
        b'\\' => Some(b'\\'),
        _ => { if byte == quote { Some(quote) } else { None } }
    }
}

/// The escape that stands behind a backslash, if any: its size, with the backslash, and meaning.
///
///     escaped_char | byte_value | little_u_value | big_u_value
pub fn escape_at(quote: u8, bytes: &[u8]) -> Option<(usize, Meaning)>
    ensures { result ≡ escape_at quote bytes.now }
{
    let [first, rest @ ..] = bytes else {
        return None;
    };
    if let Some(byte) = letter_escape(quote, *first) {
        return Some((2, Meaning::Byte(byte)));
    }
    match *first {
        b'x' => number_escape_at(Form::Two, rest),
        b'u' => number_escape_at(Form::Four, rest),
        b'U' => number_escape_at(Form::Eight, rest),
        _ => number_escape_at(Form::Octal, bytes),
    }
}
