ghost use Rattle.std.specs.Prelude.{◌≡◌, ◌↔◌, true, None, Some, map, IfOk, IsErrOf, MatchOption};
ghost use Rattle.std.specs.Option.{option_map};
ghost use Rattle.std.specs.String.{string_bytes};
ghost use Rattle.aquarius_top.specs.Words.{alone, command_of, work_of, asking_of, asks_for_source, to_work};
ghost use Rattle.aquarius_top.specs.Options.{none_given, options_from};
ghost use Rattle.aquarius_top.specs.declared.command.WordsFault.TheVariants as fault;

use crate::given_options::GivenOptions;
use crate::number::{number_at_most, number_within};
use crate::work::Work;
use aq_base::limits::Limits;
use aq_term::memory::Memory;
use aq_term::text::Text;
use std::alloc::Global;
use thiserror::Error;

/// The greatest seed of a program that is made.
const MOST_SEED: u64 = 2_147_483_647;

/// The greatest size of a program that is made.
const MOST_SIZE: u64 = 1_000;

/// What the program is asked to do.
#[derive(Debug, Drop)]
pub enum Command {
    /// Run the query, under these limits, on the program that the source gives, and show its code first where that is asked.
    Run {
        query: Text,
        show: bool,
        limits: Limits,
    },
    /// Run the query, under these limits, on the text of code that the source gives.
    Exec {
        query: Text,
        limits: Limits,
    },
    /// Show the code of the program that the source gives.
    Bam,
    /// Tell what is known at each call of the program that the source gives.
    Analyse,
    /// Tell whether the text of code that the source gives is accepted.
    Verify,
    /// Join the texts of code that the source gives to one.
    Join,
    /// Run the program that is made from the seed and the size.
    Work {
        seed: u32,
        size: u32,
    },
}

impl Command {
    /// The program that the command makes, where it makes one and reads no source.
    pub fn work(&self) -> Option<Work>
        ensures { MatchOption result (asks_for_source (asking_of self.now) ≡ true) (λ work. asking_of self.now ≡ to_work work.seed work.size) }
    {
        match self {
            Command::Work { seed, size } => Some(Work {
                seed: *seed,
                size: *size,
            }),
            Command::Run { .. }
            | Command::Exec { .. }
            | Command::Bam
            | Command::Analyse
            | Command::Verify
            | Command::Join => None,
        }
    }
}

/// Why words give no command.
#[derive(Clone, Copy, Debug, PartialEq, Eq, Error)]
pub enum WordsFault {
    #[error("bad words")]
    Bad,
    #[error("out of memory")]
    Memory,
}

impl From<Memory> for WordsFault {
    ghost from_gives = { λ _ e. e ≡ fault.Memory };

    fn from(_memory: Memory) -> WordsFault {
        WordsFault::Memory
    }
}

/// The command that the words give, without the program's own name: `run` or `exec`, a query, and options, each a name and a
/// number, or for `run` `--show`; `work`, a seed and a size; or `bam`, `analyse`, `verify` or `join` alone. `Bad` comes exactly
/// where they give none.
pub fn read_words(alloc: Global, words: &[String]) -> Result<Command, WordsFault>
    ensures command { IfOk result (λ command. command_of (map string_bytes words.now) ≡ Some (asking_of command)) }
    ensures bad { IsErrOf result WordsFault.Bad ↔ (command_of (map string_bytes words.now) ≡ None) }
{
    match words {
        [name] => command_alone(name.as_str()).ok_or(WordsFault::Bad),
        [name, query, options @ ..] if name.as_str() == "run" => {
            let Some(given) = read_options(options) else {
                return Err(WordsFault::Bad);
            };
            let query = Text::from_str(alloc, query.as_str())?;
            Ok(Command::Run {
                query,
                show: given.shows(),
                limits: given.limits(),
            })
        }
        [name, query, options @ ..] if name.as_str() == "exec" => {
            let Some(given) = read_options(options) else {
                return Err(WordsFault::Bad);
            };
            if given.shows() {
                return Err(WordsFault::Bad);
            }
            let query = Text::from_str(alloc, query.as_str())?;
            Ok(Command::Exec {
                query,
                limits: given.limits(),
            })
        }
        [name, seed, sizes @ ..] if name.as_str() == "work" => {
            read_work(seed.as_str(), sizes).ok_or(WordsFault::Bad)
        }
        _ => Err(WordsFault::Bad),
    }
}

/// The command that runs the program of a seed and of a size, which stands alone among `sizes`.
fn read_work(seed: &str, sizes: &[String]) -> Option<Command>
    ensures { option_map asking_of result ≡ work_of seed.now (map string_bytes sizes.now) }
{
    let [size] = sizes else {
        return None;
    };
    let seed = number_at_most(seed.as_bytes(), MOST_SEED)?;
    let size = number_within(size.as_str().as_bytes(), MOST_SIZE)?;
    Some(Command::Work {
        seed: seed as u32,
        size: size as u32,
    })
}

/// The command that a word alone gives.
fn command_alone(name: &str) -> Option<Command>
    ensures { option_map asking_of result ≡ alone name.now }
{
    match name {
        "bam" => Some(Command::Bam),
        "analyse" => Some(Command::Analyse),
        "verify" => Some(Command::Verify),
        "join" => Some(Command::Join),
        _ => None,
    }
}

/// What the options come to, or `None` where the words are no options.
fn read_options(options: &[String]) -> Option<GivenOptions>
    ensures { result ≡ options_from (map string_bytes options.now) none_given }
{
    let mut given = GivenOptions::none();
    let mut rest = options;
    while let Some((option, behind)) = rest.split_first() {
        if option.as_str() == "--show" {
            given = given.with_show()?;
            rest = behind;
        } else {
            let (number, behind) = behind.split_first()?;
            given = given.with_option(option.as_str(), number.as_str())?;
            rest = behind;
        }
    }
    Some(given)
}
