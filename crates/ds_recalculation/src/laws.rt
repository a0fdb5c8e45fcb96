//! What is true of recalculations, as functions that do nothing.

ghost use Rattle.std.specs.Prelude.{ℕ, ◌+◌, ◌*◌, List};
ghost use Rattle.ds_layout.specs.Places.{cells_of};
ghost use Rattle.ds_state.specs.Value.{WorldValue, world_of, IsGood};
ghost use Rattle.ds_calls.specs.declared.settle.SettleEnd.{SettleEnd};
ghost use Rattle.ds_calls.specs.Whole.{HasProcess};
ghost use Rattle.ds_calls.specs.Traces.{Leads};
ghost use Rattle.ds_calls.specs.Lone.{AreIdle, AreYoung, EndsClean};
ghost use Rattle.ds_recalculation.specs.Recalculations.{EndsInOrder, Recalculates, recalculation_trace, trace_of};

/// What a recalculation does to a world is a run of `ds_core::take`: of just the events and replies of its works and of its
/// settle. So what is proved of runs is true of it.
#[tactic(auto, using(crate::proofs::Recalculated::recalculation_leads, crate::proofs::Recalculated::recalculates_lead))]
pub fn recalculations_are_runs()
    ensures in_order { (p : ℕ) (order : List ℕ) (old : WorldValue) (end : SettleEnd) (new : WorldValue) → (ends : EndsInOrder p order old end new)
        → Leads old (recalculation_trace p order old end new ends) new }
    ensures either { (p : ℕ) (old : WorldValue) (end : SettleEnd) (new : WorldValue) → (h : Recalculates p old end new) → Leads old (trace_of p old end new h) new }
{}

/// A recalculation of a world in which each process is idle ends with all cells clean, as a settle does, or with a failed
/// allocation. Each mark must have generations left for twice as many rounds as the sheet has cells, and two.
#[tactic(auto, using(crate::proofs::Recalculated::recalculates_clean))]
pub fn lone_recalculations_are_clean()
    ensures { (p : ℕ) (old : WorldValue) (end : SettleEnd) (new : WorldValue) → IsGood old
        → HasProcess old p → AreIdle (world_of old) → AreYoung (world_of old) (2 * cells_of old.sheet.layout + 2)
        → Recalculates p old end new → EndsClean (world_of new) end }
{}
