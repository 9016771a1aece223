/// How far one character of quoted text has come: a character itself, or an escape that names one.
#[derive(Clone, Copy, Debug, PartialEq, Eq)]
pub enum Piece {
    /// A character may begin here.
    Start,
    /// In a character past ASCII. `left` bytes are to come, the next of them from `low` to `high`.
    Encoded {
        value: u32,
        left: u8,
        low: u8,
        high: u8,
    },
    /// After a backslash.
    Escape,
    /// After the octal digits of this number.
    Octal(u32),
    /// After `\x`.
    HexMark,
    /// After the hexadecimal digits of this number.
    Hex(u32),
}

/// What one more byte makes of a piece.
#[derive(Clone, Copy, Debug, PartialEq, Eq)]
pub enum Fed {
    /// The character goes on.
    More(Piece),
    /// The character is whole.
    Whole(char),
    /// The piece is whole and stands for nothing: a backslash before a new line.
    Nothing,
}

/// The number with one more digit. A number that is too great for this is no character's in any case.
fn with_digit(value: u32, radix: u32, digit: u32) -> u32 {
    value.saturating_mul(radix).saturating_add(digit)
}

/// The character of this number, where it is a Unicode scalar value.
fn numbered(value: u32) -> Option<Fed> {
    char::from_u32(value).map(|c| Fed::Whole(c))
}

/// The first byte of a character past ASCII. The bounds of the second byte leave out overlong forms,
/// surrogates and what lies past the last scalar value.
fn leading(byte: u8) -> Option<Fed> {
    let (left, low, high) = match byte {
        0xC2..=0xDF => (1, 0x80, 0xBF),
        0xE0 => (2, 0xA0, 0xBF),
        0xED => (2, 0x80, 0x9F),
        0xE1..=0xEF => (2, 0x80, 0xBF),
        0xF0 => (3, 0x90, 0xBF),
        0xF1..=0xF3 => (3, 0x80, 0xBF),
        0xF4 => (3, 0x80, 0x8F),
        _ => return None,
    };
    let bits = match left {
        1 => byte & 0x1F,
        2 => byte & 0x0F,
        _ => byte & 0x07,
    };
    Some(Fed::More(Piece::Encoded {
        value: u32::from(bits),
        left,
        low,
        high,
    }))
}

/// The byte after a backslash.
fn escaped(byte: u8) -> Option<Fed> {
    let fed = match byte {
        b'a' => Fed::Whole('\u{7}'),
        b'b' => Fed::Whole('\u{8}'),
        b'f' => Fed::Whole('\u{C}'),
        b'n' => Fed::Whole('\n'),
        b'r' => Fed::Whole('\r'),
        b't' => Fed::Whole('\t'),
        b'v' => Fed::Whole('\u{B}'),
        b'\\' | b'\'' | b'"' => Fed::Whole(char::from(byte)),
        b'0'..=b'7' => Fed::More(Piece::Octal(u32::from(byte - b'0'))),
        b'x' => Fed::More(Piece::HexMark),
        b'\n' => Fed::Nothing,
        _ => return None,
    };
    Some(fed)
}

fn octal(value: u32, byte: u8) -> Option<Fed> {
    if byte == b'\\' {
        return numbered(value);
    }
    let digit = char::from(byte).to_digit(8)?;
    Some(Fed::More(Piece::Octal(with_digit(value, 8, digit))))
}

fn hexadecimal(value: u32, byte: u8) -> Option<Fed> {
    let digit = char::from(byte).to_digit(16)?;
    Some(Fed::More(Piece::Hex(with_digit(value, 16, digit))))
}

/// A byte that continues a character past ASCII.
fn continued(value: u32, left: u8, byte: u8) -> Option<Fed> {
    let value = with_digit(value, 64, u32::from(byte & 0x3F));
    if left <= 1 {
        return numbered(value);
    }
    Some(Fed::More(Piece::Encoded {
        value,
        left: left - 1,
        low: 0x80,
        high: 0xBF,
    }))
}

impl Piece {
    /// What the next byte makes of the piece, or `None` where no piece goes on so. A quote is a
    /// character like another here.
    pub fn feed(self, byte: u8) -> Option<Fed> {
        match self {
            Piece::Start => match byte {
                b'\n' => None,
                b'\\' => Some(Fed::More(Piece::Escape)),
                0..=0x7F => Some(Fed::Whole(char::from(byte))),
                _ => leading(byte),
            },
            Piece::Encoded {
                value,
                left,
                low,
                high,
            } => {
                if byte < low || high < byte {
                    return None;
                }
                continued(value, left, byte)
            }
            Piece::Escape => escaped(byte),
            Piece::Octal(value) => octal(value, byte),
            Piece::HexMark => hexadecimal(0, byte),
            Piece::Hex(value) => {
                if byte == b'\\' {
                    return numbered(value);
                }
                hexadecimal(value, byte)
            }
        }
    }
}
