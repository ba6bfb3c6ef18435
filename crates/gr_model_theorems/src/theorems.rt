//! What holds of every schedule of the machine, on every topology that is a tree. Each function here does nothing: its
//! contract is the theorem. The premises, and most of what is said, stand in `specs/Statements.antt`.
//!
//! In a run each call sees whom an event concerns by the joins that its broker holds. Every run is the run of all calls
//! on one net, in which a late subscriber wants what is past its join: by the joins that the logs have in the end. The
//! headline speaks of the joins recorded so far, also over logs that were found, of a server and of processes side by
//! side; where a theorem speaks of one net, it is `joined_net`, or `over_net`, `served_net` and `joint_net` there.

ghost use Rattle.std.specs.Prelude.{List, [], ℕ, false, Some, None, ◌≡◌, ◌<◌, ◌≤◌, length};
ghost use Rattle.gr_event.specs.declared.limits.TheConstants.{MAX_JOINS};
ghost use Rattle.gr_tick.specs.Runs.{AreRuns};
ghost use Rattle.gr_know.specs.declared.values.K.TheVariants.{Q};
ghost use Rattle.gr_know.specs.Values.{Known, known_at, clash_K};
ghost use Rattle.gr_know.specs.Clash.{IsLeastClash};
ghost use Rattle.gr_sched.specs.declared.step.Line.{Line};
ghost use Rattle.gr_model.specs.Net.{Net};
ghost use Rattle.gr_model.specs.Tree.{IsNet};
ghost use Rattle.gr_model.specs.Broker.{Log, View, started};
ghost use Rattle.gr_model.specs.World.{World, start, report_of};
ghost use Rattle.gr_model_calls.specs.OneNet.{last_net};
ghost use Rattle.gr_model.specs.Arrivals.{Arrival};
ghost use Rattle.gr_model.specs.Headline.{Headline, begin};
ghost use Rattle.gr_model.specs.Blank.{net0};
ghost use Rattle.gr_model.specs.declared.report.Report.{Report};
ghost use Rattle.gr_model_calls.specs.Fits.{StepIn, WorldFits, history_of};
ghost use Rattle.gr_model_theorems.specs.Found.{AreReopened};
ghost use Rattle.gr_model_theorems.specs.Order.{FramesSent};
ghost use Rattle.gr_model_theorems.specs.Replies.{Replied};
ghost use Rattle.gr_model_calls.specs.Rules.{RulesDetermine, IsView};
ghost use Rattle.gr_model_theorems.specs.Alone.{ObeysAlone, ReadsWhatMayCome, ServesViews};
ghost use Rattle.gr_model_theorems.specs.Served.{IsOfBytes};
ghost use Rattle.gr_frame.specs.declared.Frame.{Frame};
ghost use Rattle.std.specs.List.{AllByRecursion};
ghost use Rattle.gr_model_theorems.specs.Obeys.{CallsObey};
ghost use Rattle.gr_model_theorems.specs.ByRules.{ScheduleByRules};
ghost use Rattle.gr_model_theorems.specs.Settles.{SweepSettles, AllGot};
ghost use Rattle.gr_model_theorems.specs.Standing.{Fits};
ghost use Rattle.gr_model_theorems.specs.OverLogs.{StandsOver};
ghost use Rattle.gr_model_theorems.specs.Forgets.{CutsStaySame, StepsTellTheSame, ForgetTheSame, OpenedTheSame};
ghost use Rattle.gr_model_theorems.specs.Forgets.{AllOpened, kept_logs};
ghost use Rattle.gr_model_theorems.specs.Lanes.{IsRunOverLanes, IsServedOverLanes, HoldsOverLanes, HoldsServedLanes};
ghost use Rattle.gr_model_theorems.specs.OrderedServed.{OrderedOverLanes, OneOrderOverLanes};
ghost use Rattle.gr_model_theorems.specs.OrderedServed.{OrderedServedLanes, OneOrderServedLanes};
ghost use Rattle.gr_model_theorems.specs.Joint.{IsJointRun, HoldsJoint, AllDoStepsJoint, joint_reports, lefts_at_start};
ghost use Rattle.gr_model_theorems.specs.Joint.{joint_net, JointAsOne};
ghost use Rattle.gr_model_theorems.specs.Examples.{WorkedExamples};
ghost use Rattle.gr_model_theorems.specs.ServedExample.{ServedExamples};
ghost use Rattle.gr_model.specs.Orders.{orders_over, ordered_steps};
ghost use Rattle.gr_model.specs.Ordered.{OneOrder, TotallyOrdered};
ghost use Rattle.gr_model_theorems.specs.Statements.{IsRun, IsMarkedRun, IsAskedRun, IsSweptRun, IsSpelledRun};
ghost use Rattle.gr_model_theorems.specs.Statements.{IsRunOverLogs, AreTotals, IsServedRun, world_after};
ghost use Rattle.gr_model_theorems.specs.Statements.{NothingClashes, NothingStrays, NothingSplits, AllSpelled};
ghost use Rattle.gr_model_theorems.specs.Statements.{joined_net, SweepsAsOne, over_net, RunsOverAsOne, AllDecode};
ghost use Rattle.gr_model_theorems.specs.Statements.{AllGetExactly, LateGetExactly, AllCutsInOrder, HostsMeet};
ghost use Rattle.gr_model_theorems.specs.Statements.{DoubtsStand, HoldsOverLogs, OpeningTells, OpeningSendsNothing};
ghost use Rattle.gr_model_theorems.specs.Statements.{RunsOverByRules, RunsOverByNoOther, MeetsHeadlineServed};
ghost use Rattle.gr_model_theorems.specs.Statements.{ArrivalsDoSteps, FirstClash};

/// The topology of the small examples is a tree, so the theorems speak of something.
pub fn net0_is_a_tree()
    ensures { IsNet net0 }
{}

/// The worked examples: the whole report of each of some twenty small schedules.
pub fn worked_examples()
    ensures { WorkedExamples }
{}

/// After every schedule all that any broker knows, all that any frame says and all that was cut is true, each host
/// knows every tick up to where its log is settled and holds the joins of its log, and each list of joins that is held
/// or was sent is a front of these.
pub fn always_true()
    ensures { (net : Net) (steps : List Line) → IsRun net steps →
        WorldFits (joined_net net steps) (world_after net steps) }
{}

/// No frame of knowledge that was ever sent clashes with what its receiver knows, nor do its joins split from those
/// that the receiver holds, however late it is delivered.
pub fn never_clashes()
    ensures clashes { (net : Net) (steps : List Line) → IsRun net steps → NothingClashes net (world_after net steps) }
    ensures splits { (net : Net) (steps : List Line) → IsRun net steps → NothingSplits net (world_after net steps) }
{}

/// No frame that was ever sent is a stray: each is of a publisher of the topology and goes over an edge of the tree,
/// from a broker to a child with knowledge or a tick to expect, or to the next broker up with curiosity.
pub fn never_strays()
    ensures { (net : Net) (steps : List Line) → IsRun net steps → NothingStrays net (world_after net steps) }
{}

/// Every frame that was ever sent is spelled by its bytes, which fit into one frame; so they decode to it and to no
/// other. The topology has at most 65,536 brokers and as many publishers. The schedule names no moment past 2^62, and
/// each event that it publishes is within the limits of events.
pub fn frames_are_spelled()
    ensures spelled { (net : Net) (steps : List Line) → IsSpelledRun net steps → AllSpelled (world_after net steps) }
    ensures decodes { (net : Net) (steps : List Line) → IsSpelledRun net steps → AllDecode (world_after net steps) }
{}

/// Delivered exactly: over every schedule, what each subscriber got from each publisher is exactly the logged events
/// that it wants up to its last horizon, once each and in order; and its horizons only rise.
pub fn gets_exactly()
    ensures { (net : Net) (steps : List Line) → IsMarkedRun net steps → AllGetExactly net (history_of net steps) }
{}

/// Late subscribers: over every schedule, what one got from a publisher is exactly the logged events past its join that
/// its filter matches, up to its last horizon, once each and in order; and while it has not joined, nothing.
pub fn late_gets_past_its_join()
    ensures { (net : Net) (steps : List Line) → IsMarkedRun net steps → LateGetExactly net (history_of net steps) }
{}

/// Discarded only after delivery: over every schedule, a publisher's cuts rise strictly, none is past what is settled,
/// and each event up to a cut was got, before that cut's line, by each subscriber that wants it.
pub fn cuts_in_order()
    ensures { (net : Net) (steps : List Line) → IsMarkedRun net steps → AllCutsInOrder net (history_of net steps) }
{}

/// After every schedule, a host with subscribers has its horizon where its log is settled.
pub fn hosts_meet()
    ensures { (net : Net) (steps : List Line) → IsRun net steps → HostsMeet net (world_after net steps) }
{}

/// After every schedule, the doubt lines of the next step stand for the places that a show shows, in order, and no
/// other step has one.
pub fn doubts_stand()
    ensures { (net : Net) (steps : List Line) (l : Line) → IsRun net steps → StepIn net l.step →
        DoubtsStand net (world_after net steps) l }
{}

/// Frames sent: over every schedule the sent lines are numbered 1, 2, 3 and so on, and say the frames that the calls
/// of brokers sent, in their order.
pub fn frames_sent()
    ensures { (net : Net) (steps : List Line) → IsMarkedRun net steps → FramesSent net steps }
{}

/// Every call follows the rules: over every schedule, each step's lines are those of its calls of brokers, in order,
/// and then its own; and what each call keeps, tells and sends, and to whom, is what the rules say tick by tick of the
/// broker's view and the publisher's log at that moment, on the net of the joins that the logs have in the end.
pub fn calls_obey_rules()
    ensures { (net : Net) (steps : List Line) → IsMarkedRun net steps →
        CallsObey (joined_net net steps) steps (report_of net steps) }
{}

/// The rules leave nothing open: what a call does is the only outcome by its rule, of one view, one log and one moment.
pub fn rules_determine()
    ensures { (net : Net) (p b : ℕ) → IsNet net → p < net.publishers → b < net.brokers → RulesDetermine net p b }
{}

/// A broker by itself, whatever its peers send. Of every view that it may have, each of its calls leaves, prints and
/// sends what the rule of the call says of that view, on the net of the joins that the view shows, and nothing else
/// does; and the view that it leaves is one that a broker may have. That is a view whose runs are canonical and which
/// stores one curiosity for each child: nothing is asked of what the view says, nor of the log. A broker starts with
/// such a view. A frame that is read of bytes and fits the broker may come to it. Knowledge that clashes with what is
/// known, or whose joins split from those that are held, is dropped, and nothing happens. So at a server with any of
/// the brokers, over any logs and whatever bytes come, each view is always one that its broker may have.
pub fn a_broker_alone()
    ensures calls { (net : Net) (p b now : ℕ) (v : View) (log : Log) → IsNet net → 1 ≤ net.quiet →
        p < net.publishers → b < net.brokers → IsView net p b v → ObeysAlone net p b now v log }
    ensures starts { (net : Net) (p b : ℕ) (log : Log) → IsView net p b (started net p b log) }
    ensures reads { (net : Net) (b : ℕ) (bytes : List ℕ) (f : Frame) → ReadsWhatMayCome net b bytes f }
    ensures serves { (net : Net) (hosted : List ℕ) (logs : List Log) (steps : List Line) (arrivals : List Arrival) →
        IsNet net → 1 ≤ net.quiet → AllByRecursion IsOfBytes arrivals → ServesViews net hosted logs steps arrivals }
{}

/// Of every schedule the rules allow exactly one report and leave exactly one world, the machine's: no other report, by
/// whatever joins its own logs have in the end. What happens at a step is said by the rules alone: its calls in their
/// order, each with the outcome of its rule put in its place; starts and crashes, stopped publishes, sweeps, what is
/// refused and what is shown; and the lines of all this in their order.
/// The same of a schedule that begins on logs that were found, and of what the start over them tells.
pub fn runs_by_rules()
    ensures allowed { (net : Net) (steps : List Line) → IsMarkedRun net steps →
        ScheduleByRules (joined_net net steps) steps (report_of net steps) (world_after net steps) }
    ensures alone { (net : Net) (steps : List Line) (rs : List (List Report)) (w : World) → IsMarkedRun net steps →
        ScheduleByRules (last_net net w) steps rs w → (rs ≡ report_of net steps) × (w ≡ world_after net steps) }
    ensures over_logs { (net : Net) (logs : List Log) (steps : List Line) → IsMarkedRun net steps →
        AreReopened net logs →
        RunsOverByRules net logs steps }
    ensures over_logs_alone { (net : Net) (logs : List Log) (steps : List Line) → IsMarkedRun net steps →
        AreReopened net logs → RunsOverByNoOther net logs steps }
{}

/// Every step is replied as the schedule and the frames sent demand: refused where it is to be refused and nowhere
/// else, the bytes of a frame shown as those of its sent line, and frames numbered on without a gap.
pub fn replies_stand()
    ensures { (net : Net) (steps : List Line) → IsMarkedRun net steps → Replied net steps (report_of net steps) }
{}

/// The headline, whole, over every schedule, sweeps included, and after each of its steps: recorded lines, delivered
/// exactly, doubt horizons, horizons rise, discarded only after delivery.
pub fn headline_always()
    ensures { (net : Net) (steps : List Line) → IsAskedRun net steps → Headline net steps (report_of net steps) }
{}

/// One order over all publishers: of every schedule, and after each of its steps, each subscriber that gets one list
/// was told in it exactly the logged events that it wants, of every publisher, up to where it has heard all publishers:
/// each once, rising by tick and then publisher. What it is told is what `ordered_steps` makes of the lines.
pub fn ordered_always()
    ensures { (net : Net) (totals : List ℕ) (steps : List Line) → IsAskedRun net steps → AreTotals net totals →
        TotallyOrdered net totals steps (report_of net steps)
        (ordered_steps (orders_over net.publishers totals) (report_of net steps)) }
{}

/// One order among subscribers: over every schedule, of two subscribers that get one list over all publishers and want
/// the same, late ones by the joins that they have in the end, what one was told in it up to any step begins with what
/// the other was told up to any step, or the other way round. So no two of them are ever told events in different
/// orders.
pub fn one_order_always()
    ensures { (net : Net) (totals : List ℕ) (steps : List Line) → IsAskedRun net steps → AreTotals net totals →
        OneOrder (joined_net net steps) totals
        (ordered_steps (orders_over net.publishers totals) (report_of net steps)) }
{}

/// A sweep settles everything: after every schedule, a sweep that is not refused ends with every kept horizon, what is
/// settled of every log, and every cut at its moment; each frame that it sends but an Expect is delivered in it exactly
/// once; and its lines say so. It is the sweep on the net of the joins so far, since it joins no one.
pub fn sweep_settles()
    ensures settles { (net : Net) (steps : List Line) (k : ℕ) → IsSweptRun net steps →
        SweepSettles (joined_net net steps) (world_after net steps) k }
    ensures same { (net : Net) (steps : List Line) (k : ℕ) → IsMarkedRun net steps → SweepsAsOne net steps k }
{}

/// After a sweep that is not refused, each subscriber has got exactly what is recorded that it wants.
pub fn sweep_hands_over()
    ensures { (net : Net) (steps : List Line) (k : ℕ) → IsSweptRun net steps →
        AllGot (joined_net net steps) (history_of net steps) (world_after net steps) k }
{}

/// What a layer above may use, after every schedule: all that is known and sent is true, each log is the record, each
/// subscriber got what it is owed up to its broker's horizon, what is heard and what is known agree above a horizon, a
/// host knows what its log says, and no ask is of a moment past the greatest.
pub fn fits_always()
    ensures { (net : Net) (steps : List Line) → IsAskedRun net steps →
        Fits (joined_net net steps) (history_of net steps) (world_after net steps) }
{}

/// The same of every schedule that begins on logs that were found; and its calls obey their rules, its steps are
/// replied as they are to be, nothing that was sent clashes, and a sweep settles everything and hands over all that is
/// recorded. Its opening, its lines and the world that it leaves are those on `over_net`.
pub fn stands_over_logs()
    ensures stands { (net : Net) (logs : List Log) (steps : List Line) → IsRunOverLogs net logs steps →
        StandsOver (over_net net logs steps) logs steps }
    ensures same { (net : Net) (logs : List Log) (steps : List Line) → IsRunOverLogs net logs steps →
        RunsOverAsOne net logs steps }
{}

/// The headline over logs that were found, whole, over every schedule that begins on them: what each subscriber gets is
/// exactly the events past the cut that was found, and those logged since, that it wants. The opening tells each log
/// that is not empty and what the subscribers at its host get at once, and sends nothing.
pub fn headline_over_logs()
    ensures schedules { (net : Net) (logs : List Log) (steps : List Line) → IsRunOverLogs net logs steps →
        HoldsOverLogs net logs steps }
    ensures told { (net : Net) (logs : List Log) → IsNet net → AreReopened net logs → OpeningTells net logs }
    ensures sends { (net : Net) (logs : List Log) → IsNet net → AreReopened net logs → OpeningSendsNothing net logs }
{}

/// The headline of a server that hosts all brokers, over logs that were found and every honest journal, whatever of the
/// frames sent arrives, in which order and how often: each arrival leaves what its steps of a schedule leave and tells
/// their lines, each call of them obeys its rule, and of these steps the whole headline holds. So no datagram is
/// dropped but one that is no frame.
pub fn headline_served()
    ensures headline { (net : Net) (logs : List Log) (steps : List Line) (arrivals : List Arrival) →
        IsServedRun net logs steps arrivals → MeetsHeadlineServed net logs steps arrivals }
    ensures calls { (net : Net) (logs : List Log) (steps : List Line) (arrivals : List Arrival) →
        IsServedRun net logs steps arrivals → ArrivalsDoSteps net logs steps arrivals }
{}

/// Logs that forget: where each cut drops the events that it lets go, the same lines are told as where logs keep all
/// events, and the same world is left but for these events. So it is of every schedule from the start, and of all that
/// comes to some brokers over logs that were opened. Logs that were opened, and keep their events from then on, are old
/// logs, of which the theorems speak.
pub fn forgets_the_same()
    ensures started { (net : Net) (steps : List Line) → ForgetTheSame net steps }
    ensures opened { (net : Net) (hosted : List ℕ) (logs : List Log) → OpenedTheSame net hosted logs }
    ensures steps { StepsTellTheSame }
    ensures cuts { CutsStaySame }
    ensures found { (net : Net) (logs : List Log) → length net.late ≤ MAX_JOINS → AllOpened net.late logs →
        AreReopened net (kept_logs logs) }
{}

/// The headline over logs that code opens, which forget: of schedules that begin on them, and of a server over an
/// honest journal. The record begins with what the logs had when they were opened, the events past the cut.
pub fn headline_over_lanes()
    ensures schedules { (net : Net) (logs : List Log) (steps : List Line) →
        IsRunOverLanes net logs steps → HoldsOverLanes net logs steps }
    ensures served { (net : Net) (logs : List Log) (steps : List Line) (arrivals : List Arrival) →
        IsServedOverLanes net logs steps arrivals → HoldsServedLanes net logs steps arrivals }
{}

/// One order over all publishers, over logs that code opens: of every schedule that begins on them, and of a server of
/// all brokers over every honest journal. After the opening, and after each step or arrival, each subscriber that gets
/// one list was told in it exactly the recorded events that it wants, of every publisher, up to where it has heard all
/// publishers: each once, rising by tick and then publisher. The record begins with what was found, the events past the
/// cut: what an earlier run cut is in no list of this one.
pub fn ordered_over_lanes()
    ensures schedules { (net : Net) (totals : List ℕ) (logs : List Log) (steps : List Line) →
        IsRunOverLanes net logs steps → AreTotals net totals → OrderedOverLanes net totals logs steps }
    ensures served { (net : Net) (totals : List ℕ) (logs : List Log) (steps : List Line)
        (arrivals : List Arrival) → IsServedOverLanes net logs steps arrivals → AreTotals net totals →
        OrderedServedLanes net totals logs steps arrivals }
{}

/// One order among subscribers, over logs that code opens: of two subscribers that get one list over all publishers and
/// want the same, what one was told in it up to any step or arrival begins with what the other was told up to any, or
/// the other way round.
pub fn one_order_over_lanes()
    ensures schedules { (net : Net) (totals : List ℕ) (logs : List Log) (steps : List Line) →
        IsRunOverLanes net logs steps → AreTotals net totals →
        OneOrderOverLanes net totals logs steps }
    ensures served { (net : Net) (totals : List ℕ) (logs : List Log) (steps : List Line)
        (arrivals : List Arrival) → IsServedOverLanes net logs steps arrivals → AreTotals net totals →
        OneOrderServedLanes net totals logs steps arrivals }
{}

/// The headline of processes that run side by side, each with some of the brokers and none with the logs of an earlier
/// run, over every honest joint journal, in which their arrivals take turns: each arrival leaves what its steps of a
/// schedule leave and tells their lines, each call of them obeys its rule, and of these steps the whole headline holds.
/// A datagram is honest where any of the processes sent its frame before.
pub fn headline_joint()
    ensures headline { (net : Net) (processes : List (List ℕ)) (steps : List Line) (turns : List (ℕ × Arrival)) →
        IsJointRun net processes steps turns →
        HoldsJoint net processes (begin net) (lefts_at_start net processes steps) turns
        (joint_reports net processes steps turns) }
    ensures calls { (net : Net) (processes : List (List ℕ)) (steps : List Line) (turns : List (ℕ × Arrival)) →
        IsJointRun net processes steps turns →
        AllDoStepsJoint (joint_net net processes steps turns) processes (start net) []
        (lefts_at_start net processes steps) turns }
    ensures same { (net : Net) (processes : List (List ℕ)) (steps : List Line) (turns : List (ℕ × Arrival)) →
        IsJointRun net processes steps turns → JointAsOne net processes steps turns }
{}

/// Worked examples of a server: a whole run over three arrivals, and a start over an old log.
pub fn served_examples()
    ensures { ServedExamples }
{}

/// The tick that a dropped datagram's line names is the least one at which the datagram clashes with what is known, and
/// none is named where nothing clashes.
pub fn clashes_are_least()
    ensures some { (know piece : Known) (t : ℕ) → AreRuns Q know → AreRuns Q piece → FirstClash know piece (Some t) →
        IsLeastClash (known_at know) (known_at piece) t (known_at know t) (known_at piece t) }
    ensures none { (know piece : Known) → AreRuns Q know → AreRuns Q piece → FirstClash know piece None →
        (t : ℕ) → clash_K (known_at know t) (known_at piece t) ≡ false }
{}
