//! Programs that are made from a seed and a size, to measure runs.
ghost use Rattle.std.specs.Prelude.{◌≡◌, ◌<◌, ◌+◌, ◌*◌, ◌%◌};

use aq_term::memory::Memory;
use itoa::Buffer;
use std::alloc::{AllocError, Global};

/// The rules of a made program, which sums the values of its facts from the last to the first.
const RULES: &[u8] =
    b":- entry(sum(ground,ground,out)).\nsum(0,S,S).\nsum(I,A,S) :- I > 0, t(I,V), B is A + V, J is I - 1, sum(J,B,S).\n";

/// What a made program is made from.
#[derive(Clone, Copy, Debug, PartialEq, Eq)]
pub struct Work {
    /// What the values follow from.
    pub seed: u32,
    /// How many facts it has, 1 to 1,000.
    pub size: u32,
}

impl Work {
    /// The text of the program: the rules, and then a fact `t(K,V).` a line for each K from 1 to the size. The values are those of
    /// the linear congruential generator x -> (x * 1103515245 + 12345) mod 2147483648, each (x div 65536) mod 1000, the first of
    /// the x behind the seed.
    pub fn text(self, alloc: Global) -> Result<Vec<u8>, Memory> {
        let mut text = Vec::new(alloc);
        text.extend_from_slice(RULES)?;
        let mut state = self.seed as u64;
        for number in 0..self.size {
            state = next_state(state);
            push_fact(&mut text, number.saturating_add(1), state / 65_536 % 1_000)?;
        }
        Ok(text)
    }

    /// The query that sums all values.
    pub fn query(self, alloc: Global) -> Result<String, Memory> {
        let mut size = Buffer::new();
        let mut query = String::new(alloc);
        query.push_str("sum(")?;
        query.push_str(size.format(self.size))?;
        query.push_str(",0,S)")?;
        Ok(query)
    }
}

/// The state of the generator behind this one. It is below 2147483648.
fn next_state(state: u64) -> u64
    requires { state < 4294967296 }
    ensures next { result ≡ (state * 1103515245 + 12345) % 2147483648 }
    ensures small { result < 2147483648 }
{
    (state * 1_103_515_245 + 12_345) % 2_147_483_648
}

/// Puts the line of a fact at the end.
fn push_fact(text: &mut Vec<u8>, number: u32, value: u64) -> Result<(), AllocError> {
    let mut numbers = Buffer::new();
    let mut values = Buffer::new();
    text.extend_from_slice(b"t(")?;
    text.extend_from_slice(numbers.format(number).as_bytes())?;
    text.extend_from_slice(b",")?;
    text.extend_from_slice(values.format(value).as_bytes())?;
    text.extend_from_slice(b").\n")
}
