ghost use Rattle.aquarius_top.specs.ReplyLaw.{RepliesAreOne};

/// A query on a text of rules has one reply under given limits.
pub fn replies_are_one()
    ensures { RepliesAreOne }
{}
