//! What registers owe, as a structure.

ghost use Rattle.pm_base.specs.Structures.{IsStructure, AreCalls};
ghost use Rattle.pm_registers.specs.Registers.{registers, writes, recoveries};
ghost use Rattle.pm_registers.specs.Runs.{RecoveriesRecallTheLast, RunsTellTheTruth, WritesLinearize};

/// Registers owe what a structure owes: new ones are sound, and each event leads from a sound world to a sound one, keeps
/// what was answered true, and answers what is true.
pub fn registers_are_a_structure(processes: usize)
    ensures { IsStructure registers processes }
{}

/// A write begins with nothing under way, and each step of it finds its word and room in the buffer.
pub fn writes_are_calls(processes: usize)
    ensures { AreCalls registers processes writes }
{}

/// So it is with a recovery.
pub fn recoveries_are_calls(processes: usize)
    ensures { AreCalls registers processes recoveries }
{}

/// Whenever crashes, stops and evictions come, between any two steps: what processes were answered is true of the values
/// that their registers had.
pub fn runs_tell_the_truth(processes: usize)
    ensures { RunsTellTheTruth processes }
{}

/// Whatever happens: each write that is answered took effect between its begin and its answer, by one step of its own.
pub fn writes_linearize(processes: usize)
    ensures { WritesLinearize processes }
{}

/// A recovery that ends recalls the value that its process announced last, and the register has had no later one.
pub fn recoveries_recall_the_last(processes: usize)
    ensures { RecoveriesRecallTheLast processes }
{}
