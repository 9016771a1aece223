ghost use Rattle.std.specs.Prelude.{◌≡◌};
ghost use Rattle.prolog_tokens.specs.Shapes.{byte_of, is_symbol, kind_of};

use crate::digits::Radix;
use crate::piece::{Fed, Piece};

/// Which quotes a token stands in.
#[derive(Clone, Copy, Debug, PartialEq, Eq)]
pub enum Quote {
    Single,
    Double,
}

impl Quote {
    /// The quote itself.
    pub fn byte(self) -> u8
        ensures { result ≡ byte_of self }
    {
        match self {
            Quote::Single => b'\'',
            Quote::Double => b'"',
        }
    }
}

/// What a whole token is.
#[derive(Clone, Copy, Debug, PartialEq, Eq)]
pub enum Kind {
    Name,
    QuotedName,
    Variable,
    Codes,
    Integer(Radix),
    /// The code of one character.
    Character,
    Punctuation,
}

/// How far a token has come. A token is the longest front of the text at which the shape is whole.
#[derive(Clone, Copy, Debug, PartialEq, Eq)]
pub enum Shape {
    Start,
    /// A lower-case letter, then letters, digits and `_`.
    Name,
    /// An upper-case letter or `_`, then letters, digits and `_`.
    Variable,
    Symbols,
    /// `!` or `;`.
    Solo,
    Punctuation,
    /// The digit 0 alone.
    Zero,
    /// A base, without a digit yet.
    Base(Radix),
    Digits(Radix),
    /// `0'`
    CharacterMark,
    /// `0''`
    CharacterQuote,
    /// `0'` and a part of a character.
    CharacterPart(Piece),
    Character,
    /// In quotes.
    Quoted(Quote, Piece),
    /// After a quote that closes the token, unless it is doubled.
    Closed(Quote),
}

/// What one more byte makes of a shape, and the character that is whole with it.
#[derive(Clone, Copy, Debug, PartialEq, Eq)]
pub struct Step {
    pub shape: Shape,
    pub written: Option<char>,
}

/// The byte stands for itself.
fn plain(shape: Shape, byte: u8) -> Step {
    Step {
        shape,
        written: Some(char::from(byte)),
    }
}

fn silent(shape: Shape) -> Step {
    Step {
        shape,
        written: None,
    }
}

/// Whether the byte is a letter, a digit or `_`.
fn is_word_byte(byte: u8) -> bool {
    byte.is_ascii_alphanumeric() || byte == b'_'
}

/// Whether the byte is one of those of which symbol names are made.
pub fn is_symbol_byte(byte: u8) -> bool
    ensures { result ≡ is_symbol byte }
{
    match byte {
        b'+' | b'-' | b'*' | b'/' | b'\\' | b'^' | b'<' | b'>' => true,
        b'=' | b'~' | b':' | b'.' | b'?' | b'@' | b'#' | b'&' | b'$' => true,
        _ => false,
    }
}

fn started(byte: u8) -> Option<Step> {
    let step = match byte {
        b'a'..=b'z' => plain(Shape::Name, byte),
        b'A'..=b'Z' | b'_' => plain(Shape::Variable, byte),
        b'!' | b';' => plain(Shape::Solo, byte),
        b'(' | b')' | b'[' | b']' | b'{' | b'}' | b',' | b'|' => plain(Shape::Punctuation, byte),
        b'0' => silent(Shape::Zero),
        b'1'..=b'9' => silent(Shape::Digits(Radix::Decimal)),
        b'\'' => silent(Shape::Quoted(Quote::Single, Piece::Start)),
        b'"' => silent(Shape::Quoted(Quote::Double, Piece::Start)),
        _ => {
            if !is_symbol_byte(byte) {
                return None;
            }
            plain(Shape::Symbols, byte)
        }
    };
    Some(step)
}

fn after_zero(byte: u8) -> Option<Step> {
    if byte == b'\'' {
        return Some(silent(Shape::CharacterMark));
    }
    if byte.is_ascii_digit() {
        return Some(silent(Shape::Digits(Radix::Decimal)));
    }
    let radix = Radix::of_letter(byte)?;
    Some(silent(Shape::Base(radix)))
}

/// One more byte of the character after `0'`. The backslash before a new line is no character.
fn character(piece: Piece, byte: u8) -> Option<Step> {
    match piece.feed(byte)? {
        Fed::More(piece) => Some(silent(Shape::CharacterPart(piece))),
        Fed::Whole(c) => Some(Step {
            shape: Shape::Character,
            written: Some(c),
        }),
        Fed::Nothing => None,
    }
}

fn quoted(quote: Quote, piece: Piece, byte: u8) -> Option<Step> {
    if piece == Piece::Start && byte == quote.byte() {
        return Some(silent(Shape::Closed(quote)));
    }
    match piece.feed(byte)? {
        Fed::More(piece) => Some(silent(Shape::Quoted(quote, piece))),
        Fed::Whole(c) => Some(Step {
            shape: Shape::Quoted(quote, Piece::Start),
            written: Some(c),
        }),
        Fed::Nothing => Some(silent(Shape::Quoted(quote, Piece::Start))),
    }
}

impl Shape {
    /// What the next byte makes of the shape, or `None` where no token goes on so.
    pub fn feed(self, byte: u8) -> Option<Step> {
        match self {
            Shape::Start => started(byte),
            Shape::Name | Shape::Variable => is_word_byte(byte).then_some(plain(self, byte)),
            Shape::Symbols => is_symbol_byte(byte).then_some(plain(self, byte)),
            Shape::Solo | Shape::Punctuation | Shape::Character => None,
            Shape::Zero => after_zero(byte),
            Shape::Base(radix) | Shape::Digits(radix) => {
                radix.has(byte).then_some(silent(Shape::Digits(radix)))
            }
            Shape::CharacterMark => match byte {
                b'\'' => Some(silent(Shape::CharacterQuote)),
                // A new line may stand here, though not in quoted text.
                b'\n' => Some(plain(Shape::Character, byte)),
                _ => character(Piece::Start, byte),
            },
            Shape::CharacterQuote => { (byte == b'\'').then_some(plain(Shape::Character, byte)) }
            Shape::CharacterPart(piece) => character(piece, byte),
            Shape::Quoted(quote, piece) => quoted(quote, piece, byte),
            Shape::Closed(quote) => (byte == quote.byte()).then_some(plain(
                Shape::Quoted(quote, Piece::Start),
                byte,
            )),
        }
    }

    /// What the token is, where it is whole.
    pub fn kind(self) -> Option<Kind>
        ensures { result ≡ kind_of self }
    {
        match self {
            Shape::Name | Shape::Symbols | Shape::Solo => Some(Kind::Name),
            Shape::Variable => Some(Kind::Variable),
            Shape::Punctuation => Some(Kind::Punctuation),
            Shape::Zero => Some(Kind::Integer(Radix::Decimal)),
            Shape::Digits(radix) => Some(Kind::Integer(radix)),
            Shape::Character => Some(Kind::Character),
            Shape::Closed(Quote::Single) => Some(Kind::QuotedName),
            Shape::Closed(Quote::Double) => Some(Kind::Codes),
            Shape::Start
            | Shape::Base(_)
            | Shape::CharacterMark
            | Shape::CharacterQuote
            | Shape::CharacterPart(_)
            | Shape::Quoted(_, _) => None,
        }
    }
}
