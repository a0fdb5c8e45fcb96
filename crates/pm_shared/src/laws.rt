//! What threads are answered is true.

ghost use Rattle.pm_shared.specs.Truths.{SharedMarksTellTheTruth, SharedRegistersTellTheTruth, SharedWritesLinearize};

/// Registers, durable and detectable: what a process was answered of its register stays true, through closes, crashes and
/// openings.
pub fn shared_registers_tell_the_truth(processes: usize)
    ensures { SharedRegistersTellTheTruth processes }
{}

/// The mark, durable: where a process was answered that it is up, no crash takes it back.
pub fn shared_marks_tell_the_truth(processes: usize)
    ensures { SharedMarksTellTheTruth processes }
{}

/// Registers, linearizable: each write that a thread was answered took effect between its begin and its answer, by one
/// step of its own, in the one run of its board.
pub fn shared_writes_linearize(processes: usize)
    ensures { SharedWritesLinearize processes }
{}
