//! Laws of a broker's calls: each is the contract of a function that does nothing.

ghost use Rattle.std.specs.Prelude.{◌≡◌, ◌↔◌, ℕ, List, [], true, IsSome};
ghost use Rattle.gr_frame.specs.declared.Frame.{Frame};
ghost use Rattle.gr_know.specs.Values.{Known};
ghost use Rattle.gr_pubend.specs.Log.{Log, empty_log};
ghost use Rattle.gr_model.specs.Net.{Net};
ghost use Rattle.gr_model.specs.Broker.{View, Outcome as MachineOutcome, learn, clashes, receive};
ghost use Rattle.gr_model.specs.Arrivals.{clash_runs, first_of};

/// A frame that comes leaves the log of its publisher, and what is kept, told and sent is the same over every log.
pub fn frames_pass_the_log()
    ensures log { (net : Net) (now : ℕ) (f : Frame) (v : View) (log : Log) →
        let o : MachineOutcome = receive net now f v log in o.log ≡ log }
    ensures rest { (net : Net) (now : ℕ) (f : Frame) (v : View) (log : Log) →
        let o : MachineOutcome = receive net now f v log in let e : MachineOutcome = receive net now f v empty_log in
        (o.view ≡ e.view) × (o.lines ≡ e.lines) × (o.frames ≡ e.frames) }
{}

/// What came clashes with what is known exactly where there is a least tick of a clash.
pub fn clashes_have_a_least_tick()
    ensures { (know piece : Known) → (clashes know piece ≡ true) ↔ IsSome (first_of (clash_runs know piece)) }
{}

/// Where nothing new is learned nothing is sent.
pub fn nothing_new_sends_nothing()
    ensures { (net : Net) (p b : ℕ) (v : View) (log : Log) →
        let o : MachineOutcome = learn net p b [] v log in o.frames ≡ [] }
{}
