/// What an instruction wants written.
#[derive(Clone, Copy, Debug, PartialEq, Eq)]
pub enum Output {
    /// The term of register 0, without quotes.
    Plain,
    /// The term of register 0, with quotes.
    Quoted,
    /// A new line.
    NewLine,
    /// The character whose atom register 0 stands for.
    Character,
    /// The line of the ball that the engine holds, which nothing catches.
    Uncaught,
}
