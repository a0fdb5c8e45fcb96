//! The mark and the registers, gone through in full.

use crate::marks::{MarkJudge, RightMark};
use crate::registers::{RegisterJudge, RightRegisters};
use pm_explore::judge::first_wrong;
use pm_explore::search::{Ending, explore};
use pm_explore::setting::{Planned, Setting, Turn};
use pm_mark::mark::{Doing, Raise, Stage};
use pm_registers::calls::{Doing as Registering, RecoverCall, RecoverStage, WriteCall, WriteStage};
use std::alloc::{AllocError, Global};
use std::test::Fail;

// A process's raise with this number.
fn raise(process: usize, number: usize, value: u64) -> Planned<Doing> {
    Planned {
        process,
        turn: Turn::Own(number),
        call: Doing::Raising(Raise {
            process,
            value,
            stage: Stage::Load,
        }),
    }
}

// Three processes raise a mark, one of them twice, with all that may happen beside.
fn raises(alloc: Global) -> Result<Setting<usize, Doing>, AllocError> {
    let mut calls = Vec::new(alloc);
    calls.push(raise(0, 0, 5))?;
    calls.push(raise(0, 1, 8))?;
    calls.push(raise(1, 0, 7))?;
    calls.push(raise(2, 0, 6))?;
    let mut window = Vec::new(alloc);
    window.push(0)?;
    Ok(Setting {
        key: 3,
        calls,
        window,
        evicts: true,
        stops: true,
        crashes: true,
    })
}

#[test]
fn a_mark(rt: HostRuntime) -> Result<(), Fail> {
    let setting = raises(rt.alloc())?;
    let found = explore::<RightMark>(rt.alloc(), &setting, 100000)?;
    assert_eq!(rt; found.ending, Ending::Ended);
    let wrong = first_wrong::<RightMark, MarkJudge>(&MarkJudge, &setting, &found.table);
    assert_eq!(rt; wrong, None);
    assert_eq!(rt; found.table.positions.len(), 5265);
    assert_eq!(rt; found.transitions, 35441);
    Ok(())
}

// A process's write of 1.
fn write(process: usize) -> Planned<Registering> {
    Planned {
        process,
        turn: Turn::Own(0),
        call: Registering::Writing(WriteCall {
            process,
            value: 1,
            stage: WriteStage::StoreAnnounce,
        }),
    }
}

// Two processes write to their registers, with all that may happen beside.
fn writes(alloc: Global) -> Result<Setting<usize, Registering>, AllocError> {
    let mut calls = Vec::new(alloc);
    let mut window = Vec::new(alloc);
    for process in 0..2 {
        calls.push(write(process))?;
        calls.push(Planned {
            process,
            turn: Turn::Any,
            call: Registering::Recovering(RecoverCall {
                process,
                stage: RecoverStage::LoadAnnounce,
            }),
        })?;
        window.push(2 * process)?;
        window.push(2 * process + 1)?;
    }
    Ok(Setting {
        key: 2,
        calls,
        window,
        evicts: true,
        stops: true,
        crashes: true,
    })
}

#[test]
fn registers(rt: HostRuntime) -> Result<(), Fail> {
    let setting = writes(rt.alloc())?;
    let found = explore::<RightRegisters>(rt.alloc(), &setting, 100000)?;
    assert_eq!(rt; found.ending, Ending::Ended);
    let wrong = first_wrong::<RightRegisters, RegisterJudge>(
        &RegisterJudge,
        &setting,
        &found.table,
    );
    assert_eq!(rt; wrong, None);
    assert_eq!(rt; found.table.positions.len(), 57985);
    assert_eq!(rt; found.transitions, 296139);
    Ok(())
}
