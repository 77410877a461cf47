//! What any calls on a queue come to. Nothing here runs.
ghost use Rattle.std.specs.Prelude.{◌≡◌, ℕ, ◌≤◌, Bool, List, All, Some, true, false, length, replicate, slice_get};
ghost use Rattle.item_queue.specs.declared.queue.Entry.{Entry};
ghost use Rattle.item_queue.specs.Queue.{Holds, empty_queue, queue_after, queue_after_call, without_oldest};
ghost use Rattle.item_queue.specs.State.{QueueState};
ghost use Rattle.item_queue.specs.Stream.{AreAt, Call, Stream, Take, TakesAtPlace, new_stream, stream_after, stream_run, window};

/// After any pushes, takes and clears a queue holds the changes at the places that its stream's definition says, each
/// with its mark (OPC 10000-4, 5.12.1.5). Where the oldest is discarded, these places are the window: what came after
/// the place that was taken last, cut to the last `size`. An entry is marked exactly where its place isn't one after
/// the place before it, which was taken or is held; a queue of size 1 marks nothing.
pub fn holds_the_places()
    ensures entries { (oldest : Bool) (size : ℕ) (calls : List Call)
        → let stream = stream_run oldest size calls in 1 ≤ size
        → AreAt size stream.pushed stream.taken stream.held (queue_after calls (empty_queue oldest size)).entries }
    ensures is_window { (size : ℕ) (calls : List Call) → let stream = stream_run true size calls in 1 ≤ size
        → stream.held ≡ window size stream.taken (length stream.pushed) }
    ensures place { (oldest : Bool) (size : ℕ) (calls : List Call) (entry : Entry) → 1 ≤ size
        → slice_get (queue_after calls (empty_queue oldest size)).entries 0 ≡ Some entry
        → TakesAtPlace oldest size (stream_run oldest size calls) entry }
    ensures several { (count : ℕ) (state : QueueState)
        → queue_after (replicate count Take) state ≡ without_oldest count state }
    ensures single { (oldest : Bool) (calls : List Call)
        → All (λ entry. entry.marked ≡ false) (queue_after calls (empty_queue oldest 1)).entries }
{}

/// A queue that holds the places of a stream does so after each further call.
pub fn keeps_the_places()
    ensures start { (oldest : Bool) (size : ℕ) → 1 ≤ size → Holds oldest size (empty_queue oldest size) new_stream }
    ensures step { (oldest : Bool) (size : ℕ) (call : Call) (queue : QueueState) (stream : Stream)
        → Holds oldest size queue stream
        → Holds oldest size (queue_after_call call queue) (stream_after oldest size call stream) }
{}
