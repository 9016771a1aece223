ghost use Rattle.std.specs.Prelude.{◌≡◌, ◌<◌, ◌++◌, OnOk, codes};
ghost use Rattle.std.specs.List.{list_all};
ghost use Rattle.term_text.specs.Spelling as spelling;
ghost use Rattle.term_text.specs.Pieces as pieces;
ghost use Rattle.prolog_writer.specs.QuotingOf.{is_quoted};

use crate::output::Output;
use aq_term::memory::Memory;
use std::marker::Model;

/// Whether names are quoted where they would not read back without quotes.
#[derive(Clone, Copy, Debug, PartialEq, Eq)]
pub enum Quoting {
    Plain,
    Quoted,
}

impl Quoting {
    /// `Quoted` where `quoted` holds.
    pub fn of(quoted: bool) -> Quoting
        ensures { is_quoted result ≡ quoted }
    {
        if quoted {
            Quoting::Quoted
        } else {
            Quoting::Plain
        }
    }
}

/// Whether a byte is a symbol character.
pub fn is_symbol(byte: u8) -> bool
    ensures { result ≡ spelling.is_symbol byte }
{
    matches!(
        byte,
        b'+' | b'-'
            | b'*'
            | b'/'
            | b'\\'
            | b'^'
            | b'<'
            | b'>'
            | b'='
            | b'~'
            | b':'
            | b'.'
            | b'?'
            | b'@'
            | b'#'
            | b'&'
            | b'$'
    )
}

/// Whether a name stands without quotes: a name of letters, a run of symbol characters that is neither `.` alone nor begins a
/// comment, or one of `!`, `;`, `[]` and `{}`.
pub fn is_bare(name: &[u8]) -> bool
    ensures { result ≡ spelling.is_bare name.now }
{
    match name {
        b"!" | b";" | b"[]" | b"{}" => true,
        _ => is_word(name) || is_symbol_name(name),
    }
}

/// Whether a name is a lower-case letter, and then letters, digits and `_`.
fn is_word(name: &[u8]) -> bool
    ensures { result ≡ spelling.is_word name.now }
{
    match name {
        [] => false,
        [first, rest @ ..] => first.is_ascii_lowercase() && are_word_bytes(rest),
    }
}

fn are_word_bytes(bytes: &[u8]) -> bool
    ensures { result ≡ list_all spelling.is_word_byte bytes.now }
{
    bytes.iter().all(|byte| is_word_byte(*byte))
}

fn is_word_byte(byte: u8) -> bool
    ensures { result ≡ spelling.is_word_byte byte }
{
    byte.is_ascii_alphanumeric() || byte == b'_'
}

/// Whether a name is a run of symbol characters that is neither `.` alone nor begins a comment.
fn is_symbol_name(name: &[u8]) -> bool
    ensures { result ≡ spelling.is_symbol_name name.now }
{
    !name.is_empty() && are_symbols(name) && name != b".".as_slice() && !name.starts_with(b"/*")
}

fn are_symbols(bytes: &[u8]) -> bool
    ensures { result ≡ list_all spelling.is_symbol bytes.now }
{
    bytes.iter().all(|byte| is_symbol(*byte))
}

/// Writes a name as it stands alone.
pub fn spell(output: &mut Output, name: &[u8], quoting: Quoting) -> Result<(), Memory>
    ensures { OnOk result (output.new ≡ pieces.put_all output.old (pieces.bytes (spelling.spelled (is_quoted quoting) name.now))) }
{
    match quoting {
        Quoting::Quoted if !is_bare(name) => spell_quoted(output, name),
        _ => output.bytes(name),
    }
}

/// Writes a name in single quotes.
pub fn spell_quoted(output: &mut Output, name: &[u8]) -> Result<(), Memory>
    ensures { OnOk result (output.new ≡ pieces.put_all output.old (pieces.bytes (spelling.in_quotes name.now))) }
{
    output.byte(b'\'')?;
    for byte in name {
        output.bytes(escaped(*byte).as_slice())?;
    }
    output.byte(b'\'')
}

/// The bytes that a byte has within single quotes: itself, or an escape of at most five.
#[derive(Debug, Drop)]
pub struct Escape {
    bytes: [u8; 5],
    len: usize,
}

impl Model for Escape {
    ghost use Rattle.std.specs.Prelude.{List, ℕ, ◌≤◌, take};

    ghost Value = { List ℕ };

    ghost view = { λ e. take e.len e.bytes };

    ghost invariant = { λ e. e.len ≤ 5 };
}

impl Escape {
    pub fn as_slice(&self) -> &[u8]
        ensures { result.now ≡ self.now }
    {
        &self.bytes[..self.len]
    }
}

/// How a byte stands within single quotes.
pub fn escaped(byte: u8) -> Escape
    ensures { result ≡ spelling.escaped byte }
{
    match byte {
        b'\\' => Escape {
            bytes: *b"\\\\\0\0\0",
            len: 2,
        },
        b'\'' => Escape {
            bytes: *b"\\'\0\0\0",
            len: 2,
        },
        b'\n' => Escape {
            bytes: *b"\\n\0\0\0",
            len: 2,
        },
        0..=31 | 127 => escaped_code(byte),
        _ => Escape {
            bytes: [byte, 0, 0, 0, 0],
            len: 1,
        },
    }
}

/// A control code as a hexadecimal escape, without leading zeros.
fn escaped_code(code: u8) -> Escape
    ensures { result ≡ codes "\\x" ++ spelling.hexadecimal code ++ codes "\\" }
{
    let low = hexadecimal_digit(code % 16);
    if code >= 16 {
        let high = hexadecimal_digit(code / 16);
        return Escape {
            bytes: [b'\\', b'x', high, low, b'\\'],
            len: 5,
        };
    }
    Escape {
        bytes: [b'\\', b'x', low, b'\\', 0],
        len: 4,
    }
}

/// The lower-case digit of base 16.
fn hexadecimal_digit(value: u8) -> u8
    requires { value < 16 }
    ensures { result ≡ spelling.digit value }
{
    if value < 10 {
        b'0' + value
    } else {
        b'a' + (value - 10)
    }
}
