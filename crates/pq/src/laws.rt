//! What the queue owes, as a structure.

ghost use Rattle.pm_base.specs.Structures.{IsStructure, AreCalls};
ghost use Rattle.pq.specs.Queue.{queue, enqueues, dequeues, recoveries};
ghost use Rattle.pq.specs.Runs.{RunsTellTheTruth, PlacesStay, EmptyWasSo, NoneIsTorn, AnswersAgree, EffectsInCalls, RecoveriesAnswerForTheLast};

/// Fresh words are a sound queue, and evictions, stops and crashes keep that, and what was answered.
pub fn queue_is_a_structure(processes: usize)
    ensures { IsStructure queue processes }
{}

/// Each step of an enqueue is served, keeps all that, and answers the truth.
pub fn enqueues_are_calls(processes: usize)
    ensures { AreCalls queue processes enqueues }
{}

/// Each step of a dequeue is served, keeps all that, and answers the truth.
pub fn dequeues_are_calls(processes: usize)
    ensures { AreCalls queue processes dequeues }
{}

/// Each step of a recovery is served, keeps all that, and answers the truth.
pub fn recoveries_are_calls(processes: usize)
    ensures { AreCalls queue processes recoveries }
{}

/// Whatever happens to a new queue: each operation takes effect once, no more values are taken than were put in, the
/// words hold the queue, and what was answered is true from then on: the k-th dequeue took the value of the k-th enqueue.
pub fn runs_tell_the_truth(processes: usize)
    ensures { RunsTellTheTruth processes }
{}

/// An operation whose effect was answered keeps its place in the order of all operations, whatever happens then.
pub fn places_stay(processes: usize)
    ensures { PlacesStay processes }
{}

/// A dequeue that is answered that the queue was empty found it so at a step of its own.
pub fn empty_was_so(processes: usize)
    ensures { EmptyWasSo processes }
{}

/// No call is torn: since each step lowers its rank, each call ends with an answer, unless its process is stopped.
pub fn none_is_torn(processes: usize)
    ensures { NoneIsTorn processes }
{}

/// What a process is answered of one operation agrees, whoever answers: the call, or a recovery after any crash.
pub fn answers_agree(processes: usize)
    ensures { AnswersAgree processes }
{}

/// Each operation that has a place in the order took effect at a step of its own call, which is its linearization point.
pub fn effects_in_calls(processes: usize)
    ensures { EffectsInCalls processes }
{}

/// A recovery that ends answers of the operation that its process announced last, of its kind, and answers nothing only where
/// the process announced nothing; no later operation of the process has taken effect.
pub fn recoveries_answer_for_the_last(processes: usize)
    ensures { RecoveriesAnswerForTheLast processes }
{}
