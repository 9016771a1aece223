ghost use Rattle.std.specs.Prelude.{◌≡◌, ◌≤◌, IfSome};
ghost use Rattle.aquarius_top.specs.Number as spec;

/// The number that the text writes in decimal, without a sign or leading zeros, where it is 1 to `most`.
pub fn number_within(text: &[u8], most: u64) -> Option<u64>
    requires { most ≤ 4294967295 }
    ensures number { result ≡ spec.within most (spec.number_of text.now) }
    ensures within { IfSome result (λ number. number ≤ most) }
{
    match number_at_most(text, most) {
        None | Some(0) => None,
        Some(number) => Some(number),
    }
}

/// The number that the text writes in decimal, without a sign or leading zeros, where it is at most `most`.
pub fn number_at_most(text: &[u8], most: u64) -> Option<u64>
    requires { most ≤ 4294967295 }
    ensures number { result ≡ spec.at_most most (spec.number_of text.now) }
    ensures within { IfSome result (λ number. number ≤ most) }
{
    let (first, rest) = text.split_first()?;
    if !is_digit(*first) {
        return None;
    }
    if *first == b'0' && rest.len() > 0 {
        return None;
    }
    let mut value = (*first - b'0') as u64;
    for byte in rest {
        if value > most {
            return None;
        }
        if !is_digit(*byte) {
            return None;
        }
        value = 10 * value + (*byte - b'0') as u64;
    }
    if value > most { None } else { Some(value) }
}

fn is_digit(byte: u8) -> bool
    ensures { result ≡ spec.is_digit byte }
{
    b'0' <= byte && byte <= b'9'
}
