use std::test::Fail;
use type_lattice::fact::Fact;

/// How a variable of a goal stands before the goal.
#[derive(Clone, Copy, Debug, PartialEq, Eq)]
pub enum Stand {
    /// Nowhere, with nothing made for it, or with a value that a later call gives it.
    Nowhere,
    /// In the register of an argument of the head, which is its own.
    Head,
    /// In a register, as a variable that is no argument.
    Local,
    /// In a slot, as an argument of the head.
    HeadSlot,
    /// In a slot, as a variable that is no argument.
    LocalSlot,
    /// In a cell that a callee has filled, to which a slot refers.
    Boxed,
    /// It is a result of the procedure, and its hole stands in a register.
    Hole,
    /// It is a result of the procedure, and its hole stands in a slot.
    HoleSlot,
    /// It is the barrier of the procedure, in a register.
    Barrier,
    /// It is the barrier of the procedure, in a slot.
    BarrierSlot,
}

/// A variable of a goal before the goal.
#[derive(Clone, Copy, Debug)]
pub struct Given<'a> {
    pub name: &'a str,
    pub fact: Fact,
    pub stand: Stand,
}

impl<'a> Given<'a> {
    /// The variable of a text like `X:any:head`.
    pub fn of(text: &'a str) -> Result<Given<'a>, Fail> {
        let (name, rest) = text.split_once(":").ok_or("no fact")?;
        let (fact, stand) = rest.split_once(":").ok_or("no place")?;
        Ok(Given {
            name,
            fact: fact_of(fact)?,
            stand: stand_of(stand)?,
        })
    }

    /// Whether it is a variable of the head.
    pub fn is_head(&self) -> bool {
        matches!(
            self.stand,
            Stand::Head | Stand::HeadSlot | Stand::Hole | Stand::HoleSlot
        ) || self.is_barrier()
    }

    /// Whether an argument of the procedure gives it its value.
    pub fn is_copy(&self) -> bool {
        matches!(self.stand, Stand::Local | Stand::LocalSlot)
    }

    /// Whether it stands in a slot.
    pub fn needs_slot(&self) -> bool {
        matches!(
            self.stand,
            Stand::HeadSlot | Stand::LocalSlot | Stand::Boxed | Stand::HoleSlot | Stand::BarrierSlot
        )
    }

    /// Whether it is a number of choices.
    pub fn is_barrier(&self) -> bool {
        matches!(self.stand, Stand::Barrier | Stand::BarrierSlot)
    }
}

fn fact_of(word: &str) -> Result<Fact, Fail> {
    match word {
        "out" => Ok(Fact::Out),
        "full" => Ok(Fact::Full),
        "gdirect" => Ok(Fact::GroundDirect),
        "ground" => Ok(Fact::Ground),
        "direct" => Ok(Fact::Direct),
        "nonvar" => Ok(Fact::Nonvar),
        "any" => Ok(Fact::Any),
        _ => Err("no fact".into()),
    }
}

fn stand_of(word: &str) -> Result<Stand, Fail> {
    match word {
        "nowhere" => Ok(Stand::Nowhere),
        "head" => Ok(Stand::Head),
        "local" => Ok(Stand::Local),
        "headslot" => Ok(Stand::HeadSlot),
        "slot" => Ok(Stand::LocalSlot),
        "boxed" => Ok(Stand::Boxed),
        "hole" => Ok(Stand::Hole),
        "holeslot" => Ok(Stand::HoleSlot),
        "barrier" => Ok(Stand::Barrier),
        "barrierslot" => Ok(Stand::BarrierSlot),
        _ => Err("no place".into()),
    }
}
