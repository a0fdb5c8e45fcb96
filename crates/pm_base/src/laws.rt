//! What is so of every run of a structure.

ghost use Rattle.pm_base.specs.Runs.{RunsHold};

use crate::machine::Structured;

/// Whatever happens to a new structure, between any two steps: each world is sound, and all that its processes were
/// answered is true from then on.
pub fn runs_hold<P: Structured>(key: &P::Key)
    ensures { RunsHold P.structure key.now }
{
    P::law(key);
}
