ghost use Rattle.std.specs.Prelude.{◌≡◌, ◌+◌, ◌<◌, ◌≤◌, ◌↔◌, IsErr, IsOk};

use crate::halt::Halt;

/// Counts one visit, or `Stopped` where none is left.
pub fn visit(left: &mut u64) -> Result<(), Halt>
    ensures counted { IsOk result → left.new + 1 ≡ left.old }
    ensures stopped { IsErr result ↔ (left.old ≡ 0) }
    ensures none_left { IsErr result → left.new ≡ 0 }
    ensures falls { left.new ≤ left.old }
{
    if *left == 0 {
        return Err(Halt::Stopped);
    }
    *left -= 1;
    Ok(())
}

/// Counts this many visits one after another, or `Stopped` where fewer are left, of which none is left then.
pub fn visit_each(left: &mut u64, count: u64) -> Result<(), Halt>
    ensures counted { IsOk result → left.new + count ≡ left.old }
    ensures stopped { IsErr result ↔ (left.old < count) }
    ensures none_left { IsErr result → left.new ≡ 0 }
    ensures falls { left.new ≤ left.old }
{
    if *left < count {
        *left = 0;
        return Err(Halt::Stopped);
    }
    *left -= count;
    Ok(())
}
