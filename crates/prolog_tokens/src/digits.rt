ghost use Rattle.std.specs.Prelude.{◌≡◌, ◌≤◌, IfSome};
ghost use Rattle.std.specs.Char.{is_digit};
ghost use Rattle.prolog_tokens.specs.Digits.{base_of, radix_of, with_digits, held};
ghost use Rattle.prolog_tokens.specs.declared.digits.TheConstants.{GREATEST};

/// The greatest integer that a token holds: the negative of the least 64-bit integer.
pub const GREATEST: u64 = 9_223_372_036_854_775_808;

/// The base in which an integer is written.
#[derive(Clone, Copy, Debug, PartialEq, Eq)]
pub enum Radix {
    Binary,
    Octal,
    Decimal,
    Hexadecimal,
}

impl Radix {
    /// The number of digits of this base, from 2 to 16.
    pub fn base(self) -> u8
        ensures value { result ≡ base_of self }
        ensures low { 2 ≤ result }
        ensures high { result ≤ 16 }
    {
        match self {
            Radix::Binary => 2,
            Radix::Octal => 8,
            Radix::Decimal => 10,
            Radix::Hexadecimal => 16,
        }
    }

    /// Whether the byte is a digit of this base.
    pub fn has(self, byte: u8) -> bool
        ensures { result ≡ is_digit byte (base_of self) }
    {
        char::from(byte).to_digit(u32::from(self.base())).is_some()
    }

    /// The base whose letter stands after a leading 0.
    pub fn of_letter(letter: u8) -> Option<Radix>
        ensures { result ≡ radix_of letter }
    {
        match letter {
            b'b' => Some(Radix::Binary),
            b'o' => Some(Radix::Octal),
            b'x' => Some(Radix::Hexadecimal),
            _ => None,
        }
    }
}

/// The number of the digits, or `None` where it is above `GREATEST`. Other bytes are passed over.
pub fn value_of(digits: &[u8], radix: Radix) -> Option<u64>
    ensures value { result ≡ held (with_digits (base_of radix) 0 digits.now) }
    ensures greatest { IfSome result (λ n. n ≤ GREATEST) }
{
    let base = u32::from(radix.base());
    let mut value: u64 = 0;
    for byte in digits {
        let Some(digit) = char::from(*byte).to_digit(base) else {
            continue;
        };
        value = value
            .checked_mul(u64::from(base))?
            .checked_add(u64::from(digit))?;
        if value > GREATEST {
            return None;
        }
    }
    Some(value)
}
