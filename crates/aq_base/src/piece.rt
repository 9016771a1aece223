ghost use Rattle.std.specs.Prelude.{◌≡◌, ◌+◌, ◌<◌, ◌≤◌, List, ℕ, Some, drop, take, length, min};
ghost use Rattle.std.specs.Io.KnownBytes.{Consumes, IsAtEnd};

/// Gives a piece of `bytes`, from the place `at` on, to the front of `buffer`: as many bytes as are left and fit, but
/// at most `most`. Answers how many.
pub(crate) fn give_piece(bytes: &[u8], at: usize, most: usize, buffer: &mut [u8]) -> usize
    requires place { at ≤ length bytes.now }
    requires some { 1 ≤ most }
    ensures within { result ≤ length buffer.new }
    ensures left { at + result ≤ length bytes.now }
    ensures given { Consumes (Some (drop at bytes.now)) (Some (drop (at + result) bytes.now)) (take result buffer.new) }
    ensures end { result ≡ 0 → 0 < length buffer.new → IsAtEnd (Some (drop (at + result) bytes.now)) }
{
    let left = &bytes[at..];
    let count = left.len().min(most).min(buffer.len());
    buffer[..count].copy_from_slice(&left[..count]);
    count
}
