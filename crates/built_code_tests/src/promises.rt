use crate::compiled::{Compiled, compile};
use crate::{
    accepted, cells, choices, frames, jumps, moves, procedures, reached_lines, registers, spelled,
    unifications,
};
use made_programs::program::made;
use std::alloc::Global;
use std::process::Abort;
use std::test::Fail;

/// What is promised of the form of a program's code and does not hold, where something does not.
fn broken(alloc: Global, compiled: &Compiled) -> Result<Option<String>, Fail> {
    let found = [
        accepted::broken(alloc, compiled)?,
        procedures::broken(alloc, compiled)?,
        choices::broken(alloc, compiled)?,
        unifications::broken(alloc, compiled)?,
        cells::broken(alloc, compiled)?,
        frames::broken(alloc, compiled)?,
        jumps::broken(alloc, compiled)?,
        moves::broken(alloc, compiled)?,
        reached_lines::broken(alloc, compiled)?,
        registers::broken(alloc, compiled)?,
        spelled::broken(alloc, compiled)?,
    ];
    for answer in found {
        if answer.is_some() {
            return Ok(answer);
        }
    }
    Ok(None)
}

/// All promises hold of the code of a program.
pub fn assert_kept(rt: &impl Abort, alloc: Global, program: &str) -> Result<(), Fail> {
    let compiled = compile(alloc, program)?;
    if let Some(what) = broken(alloc, &compiled)? {
        let text = compiled.text(alloc)?;
        assert_eq!(rt; what.as_str(), "", "{program}\n{text}");
    }
    Ok(())
}

/// All promises hold of the code of each program that is made of the 1,000 seeds from this one on.
pub fn assert_kept_by_made(rt: &impl Abort, alloc: Global, first: u32) -> Result<(), Fail> {
    for number in 0..1_000u32 {
        let sample = made(alloc, first.saturating_add(number))?;
        assert_kept(rt, alloc, sample.program.as_str())?;
    }
    Ok(())
}
