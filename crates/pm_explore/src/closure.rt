//! Whether anything that may happen leads out of the positions of a table.

ghost use Rattle.std.specs.Prelude.{◌≡◌, ◌<◌, ℕ, IfOk, IsTrue, length};
ghost use Rattle.pm_base.specs.Structures.{In};
ghost use Rattle.pm_explore.specs.Closed.{Closed, LeadsInto, StaysIn};
ghost use Rattle.pm_explore.specs.Lists.{IsAt};
ghost use Rattle.pm_explore.specs.declared.setting.Move.TheVariants.{Begin, Step, Stop, Evict};

use crate::explored::Explored;
use crate::happen::{Came, happen};
use crate::position::Position;
use crate::search::codes;
use crate::setting::{Move, Setting};
use crate::table::{Table, find};
use std::alloc::AllocError;

// Whether it leads into the table that this happens.
fn leads_into<P: Explored>(
    setting: &Setting<P::Key, P::Doing>,
    table: &Table<P::Doing, P::Response>,
    x: &Position<P::Doing, P::Response>,
    happens: Move,
) -> Result<bool, AllocError>
    requires { In table.now.positions.items x.now }
    ensures { IfOk result (λ b. IsTrue b → LeadsInto P.structure setting.now table.now.positions.items x.now happens) }
{
    match happen::<P>(setting, x, happens)? {
        Came::To(next) => {
            let codes = codes::<P>(&setting.key, &next)?;
            Ok(find::<P>(table, &next, &codes).is_some())
        }
        Came::Stays => Ok(true),
        Came::Outside(_) => Ok(false),
        Came::NoSeat => Ok(false),
    }
}

// Whether every begin of a call leads into the table.
fn begins_lead<P: Explored>(
    setting: &Setting<P::Key, P::Doing>,
    table: &Table<P::Doing, P::Response>,
    x: &Position<P::Doing, P::Response>,
) -> Result<bool, AllocError>
    requires { In table.now.positions.items x.now }
    ensures { IfOk result (λ b. IsTrue b → (i : ℕ) → i < length setting.now.calls.items → LeadsInto P.structure setting.now table.now.positions.items x.now (Begin i)) }
{
    for i in 0..setting.calls.len() {
        let leads = leads_into::<P>(setting, table, x, Move::Begin(i))?;
        if !leads {
            return Ok(false);
        }
    }
    Ok(true)
}

// Whether every step leads into the table.
fn steps_lead<P: Explored>(
    setting: &Setting<P::Key, P::Doing>,
    table: &Table<P::Doing, P::Response>,
    x: &Position<P::Doing, P::Response>,
) -> Result<bool, AllocError>
    requires { In table.now.positions.items x.now }
    ensures { IfOk result (λ b. IsTrue b → (p : ℕ) → p < P.structure.processes setting.now.key → LeadsInto P.structure setting.now table.now.positions.items x.now (Step p)) }
{
    for process in 0..P::processes(&setting.key) {
        let leads = leads_into::<P>(setting, table, x, Move::Step(process))?;
        if !leads {
            return Ok(false);
        }
    }
    Ok(true)
}

// Whether every stop leads into the table.
fn stops_lead<P: Explored>(
    setting: &Setting<P::Key, P::Doing>,
    table: &Table<P::Doing, P::Response>,
    x: &Position<P::Doing, P::Response>,
) -> Result<bool, AllocError>
    requires { In table.now.positions.items x.now }
    ensures { IfOk result (λ b. IsTrue b → (p : ℕ) → p < P.structure.processes setting.now.key → LeadsInto P.structure setting.now table.now.positions.items x.now (Stop p)) }
{
    for process in 0..P::processes(&setting.key) {
        let leads = leads_into::<P>(setting, table, x, Move::Stop(process))?;
        if !leads {
            return Ok(false);
        }
    }
    Ok(true)
}

// Whether every eviction of a word of the window leads into the table.
fn evicts_lead<P: Explored>(
    setting: &Setting<P::Key, P::Doing>,
    table: &Table<P::Doing, P::Response>,
    x: &Position<P::Doing, P::Response>,
) -> Result<bool, AllocError>
    requires { In table.now.positions.items x.now }
    ensures { IfOk result (λ b. IsTrue b → (k : ℕ) (n : ℕ) → IsAt setting.now.window.items k n → LeadsInto P.structure setting.now table.now.positions.items x.now (Evict n)) }
{
    for k in 0..setting.window.len() {
        let leads = leads_into::<P>(setting, table, x, Move::Evict(setting.window[k]))?;
        if !leads {
            return Ok(false);
        }
    }
    Ok(true)
}

// Whether all that may happen at a position leads into the table.
fn stays_in<P: Explored>(
    setting: &Setting<P::Key, P::Doing>,
    table: &Table<P::Doing, P::Response>,
    x: &Position<P::Doing, P::Response>,
) -> Result<bool, AllocError>
    requires { In table.now.positions.items x.now }
    ensures { IfOk result (λ b. IsTrue b → StaysIn P.structure setting.now table.now.positions.items x.now) }
{
    let begins = begins_lead::<P>(setting, table, x)?;
    if !begins {
        return Ok(false);
    }
    let steps = steps_lead::<P>(setting, table, x)?;
    if !steps {
        return Ok(false);
    }
    let stops = stops_lead::<P>(setting, table, x)?;
    if !stops {
        return Ok(false);
    }
    let evicts = evicts_lead::<P>(setting, table, x)?;
    if !evicts {
        return Ok(false);
    }
    let crash = leads_into::<P>(setting, table, x, Move::Crash)?;
    Ok(crash)
}

/// Whether nothing that may happen leads out of the table. An error means that an allocation failed.
pub fn is_closed<P: Explored>(
    setting: &Setting<P::Key, P::Doing>,
    table: &Table<P::Doing, P::Response>,
) -> Result<bool, AllocError>
    ensures { IfOk result (λ b. IsTrue b → Closed P.structure setting.now table.now.positions.items) }
{
    for i in 0..table.positions.len() {
        let stays = stays_in::<P>(setting, table, &table.positions[i])?;
        if !stays {
            return Ok(false);
        }
    }
    Ok(true)
}
