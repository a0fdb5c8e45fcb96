//! A process that nobody has is taken for one call.

ghost use Rattle.std.specs.Prelude.{◌≡◌, ◌↔◌, IfOk, IsTrue};
ghost use Rattle.ds_http.specs.Taking.{Takes};

use ds_server::desk::{CallRefusal, Desk};
use std::alloc::Global;

// Whether a join is refused since another has the process.
fn is_taken(why: CallRefusal) -> bool
    ensures { IsTrue result ↔ (why ≡ CallRefusal.ProcessTaken) }
{
    match why {
        CallRefusal::ProcessTaken => true,
        CallRefusal::Text(_)
        | CallRefusal::Stopped
        | CallRefusal::RecordsFull
        | CallRefusal::KeyReused
        | CallRefusal::NoEdit
        | CallRefusal::NoHistory
        | CallRefusal::NoMemory => false,
    }
}

/// Takes a process that nobody has: tries to join each, from the last one down. `ProcessTaken` where others have all of
/// them; any other refusal of a join is answered at once.
pub(crate) fn take_process<B: Desk>(alloc: Global, desk: &mut B) -> Result<usize, CallRefusal>
    ensures takes { Takes B.rules desk.old result desk.new }
    ensures sits { IfOk result (λ process. B.rules.sits desk.new process) }
{
    let processes = desk.processes();
    for tried in 0..processes {
        let process = processes - 1 - tried;
        if process >= desk.processes() {
            return Err(CallRefusal::ProcessTaken);
        }
        match desk.join(alloc, process) {
            Ok(_last) => return Ok(process),
            Err(why) => {
                if !is_taken(why) {
                    return Err(why);
                }
            }
        }
    }
    Err(CallRefusal::ProcessTaken)
}
