ghost use Rattle.std.specs.Prelude.{◌≡◌};

use aq_term::text::Text;

/// A token of Prolog text. Texts are as they are meant: without quotes, and with each escape
/// replaced by the character that it names.
#[derive(Debug, Drop)]
pub enum Token {
    /// A name. `quoted` says that it stood in single quotes.
    Name { text: Text, quoted: bool },
    Variable(Text),
    /// An integer of at most 9223372036854775808.
    Integer(u64),
    /// An integer above 9223372036854775808.
    WideInteger,
    /// Text in double quotes, which stands for the list of its characters' codes.
    Codes(Text),
    /// One of the bytes `( ) [ ] { } , |`.
    Punct(u8),
    /// The `.` that ends a clause.
    End,
}

impl Token {
    ghost use Rattle.prolog_tokens.specs.Scan.{is_end};

    pub fn is_end(&self) -> bool
        ensures { result ≡ is_end self.now }
    {
        match self {
            Token::End => true,
            _ => false,
        }
    }
}
