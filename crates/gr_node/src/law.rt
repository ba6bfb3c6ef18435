//! What follows of every run. Each function here does nothing: its contract is the law.

ghost use Rattle.std.specs.Prelude.{◌≡◌, ◌↔◌, ℕ, suc, ◌<◌, ◌≤◌, ◌^◌, Bool, true};
ghost use Rattle.std.specs.Prelude.{List, [], length, map, take, drop};
ghost use Rattle.std.specs.List.{list_any, AllByRecursion};
ghost use Rattle.gr_event.specs.declared.event.Event.{Event};
ghost use Rattle.gr_note.specs.declared.note.Note.TheVariants.{Spent};
ghost use Rattle.gr_publog.specs.Views.{Lanes, MayLeavePair};
ghost use Rattle.gr_pubend.specs.Answers.{published};
ghost use Rattle.gr_pubend.specs.declared.answers.Published.TheVariants.{Exhausted};
ghost use Rattle.gr_sched.specs.declared.step.Line.{Line};
ghost use Rattle.gr_model.specs.Net.{Net, numbers};
ghost use Rattle.gr_model.specs.NetOf.{net_of};
ghost use Rattle.gr_model.specs.Broker.{Log};
ghost use Rattle.gr_model.specs.World.{World, Transition, in_turn, publish_now, log_of};
ghost use Rattle.gr_model.specs.Opening.{over_logs, opening};
ghost use Rattle.gr_model.specs.Arrivals.{Arrival, Publish, requests_of, served, arrived};
ghost use Rattle.gr_scenario.specs.Steps.{AreStepsOf};
ghost use Rattle.gr_model_theorems.specs.Served.{joined, IsOfBytes};
ghost use Rattle.gr_model_theorems.specs.Forgets.{AllOpened, kept_logs};
ghost use Rattle.gr_model_theorems.specs.Lanes.{HoldsServedLanes};
ghost use Rattle.gr_model_theorems.specs.Statements.{ArrivalsDoSteps, AreTotals};
ghost use Rattle.gr_model_theorems.specs.OrderedServed.{OrderedServedLanes, OneOrderServedLanes};
ghost use Rattle.gr_node.specs.Plan.{Act, ours, act, plan, all_entries, reply_to};
ghost use Rattle.gr_node.specs.Lasting.{Along, Lasts};
ghost use Rattle.gr_node.specs.Obeyed.{AloneObeysRules};
ghost use Rattle.gr_node.specs.Served.{Course, world_before, acts_upto, world_upto, planned, IsHonestJournal};
ghost use Rattle.gr_node.specs.Served.{IsReachedFrom};
ghost use Rattle.gr_node.specs.Submitted.{IsFirstOf, Logs, log_found, after_acts, AreFirst, IsOfClient};
ghost use Rattle.gr_node.specs.Submitted.{HoldsFirstOf, offers_next, HasNumbers};

use gr_model::topologies::every_topology_is_a_tree;
use gr_model_theorems::theorems::{
    forgets_the_same, headline_over_lanes, headline_served, one_order_over_lanes,
    ordered_over_lanes,
};
use gr_report::steps_fit_the_theorems;
use gr_topo::Topology;

/// The headline of a run that hosts all brokers, over old logs too: where the journal is honest, every arrival does
/// what its steps of a schedule do, and of these the whole headline holds. A late subscriber wants what is past its
/// join, as the log has it. What each call of a broker sends, keeps and tells is what its rule says, so all that is
/// reported is by the rules; and no other report of what came is, whatever state it leaves. Of the subscribers that get
/// one list over all publishers, whichever they are, each is told in it exactly what it is to have, behind the opening
/// and behind each arrival; and of two that want the same one list begins with the other.
///
/// And of any run: the plan's acts, one after another, tell what the machine serves of what came at the hosted brokers,
/// and leave the world after it.
pub fn an_honest_journal_meets_the_headline(topo: &Topology)
    ensures headline { (steps : List Line) (c : Course) → AreStepsOf topo.now steps → AllOpened topo.now.late c.logs
        → AllByRecursion IsOfBytes c.came
        → IsHonestJournal [] (planned topo.now (numbers (length topo.now.brokers)) steps c)
        → HoldsServedLanes (net_of topo.now) c.logs steps (ours (numbers (length topo.now.brokers)) c.came) }
    ensures calls { (steps : List Line) (c : Course) → AreStepsOf topo.now steps → AllOpened topo.now.late c.logs
        → AllByRecursion IsOfBytes c.came
        → IsHonestJournal [] (planned topo.now (numbers (length topo.now.brokers)) steps c)
        → ArrivalsDoSteps (net_of topo.now) (kept_logs c.logs) steps
        (ours (numbers (length topo.now.brokers)) c.came) }
    ensures by_rules { (steps : List Line) (c : Course) → AreStepsOf topo.now steps → AllOpened topo.now.late c.logs
        → AllByRecursion IsOfBytes c.came
        → IsHonestJournal [] (planned topo.now (numbers (length topo.now.brokers)) steps c)
        → let came : List Arrival = ours (numbers (length topo.now.brokers)) c.came in
        AloneObeysRules (net_of topo.now) c.logs steps came
        (served (net_of topo.now) (numbers (length topo.now.brokers)) c.logs steps came) }
    ensures ordered { (steps : List Line) (c : Course) (totals : List ℕ) → AreStepsOf topo.now steps
        → AllOpened topo.now.late c.logs → AllByRecursion IsOfBytes c.came
        → IsHonestJournal [] (planned topo.now (numbers (length topo.now.brokers)) steps c)
        → AreTotals (net_of topo.now) totals
        → let came : List Arrival = ours (numbers (length topo.now.brokers)) c.came in
        OrderedServedLanes (net_of topo.now) totals c.logs steps came
        × OneOrderServedLanes (net_of topo.now) totals c.logs steps came }
    ensures whole { (hosted : List ℕ) (steps : List Line) (came : List Arrival) (closed : Bool) (logs : List Log)
        → let net : Net = net_of topo.now in
        let end : Transition =
        in_turn (act net hosted) (plan topo.now hosted steps came closed) (over_logs net logs) in
        (end.lines ≡ joined (served net hosted logs steps (ours hosted came)))
        × (end.world ≡ arrived net hosted (opening net hosted logs).world (requests_of net hosted steps)
        (ours hosted came)) }
{
    every_topology_is_a_tree(topo);
    steps_fit_the_theorems();
    headline_over_lanes();
    headline_served();
    ordered_over_lanes();
    one_order_over_lanes();
    forgets_the_same();
    let _ = topo.brokers();
}

/// What the log of a publisher gets in a run, up to any time: the acts that were made until then are the first of the
/// plan, as all that a run made are.
///
/// Each event that is logged takes the number behind the last, from the last that was found on, and has its line; what
/// is cut the log forgets. Where the publisher has a client, and the notes that come are those of a client over a list
/// of events, the event that is logged with a number is the one of this number in the list; and the log holds the first
/// events of the list, where it did so when it was found. So then does whatever a crash may leave of its lanes at any
/// moment of the run that the plan has reached, as it has reached all that is left there but what was found (`along` and
/// `since` of `KeepsLogs`). Where the journal has offered the client that a number comes next, the log has all numbers
/// below it from then on. And a client is answered that its publisher is spent exactly where no tick was left for the
/// event that it submitted.
pub fn what_is_logged_was_submitted(topo: &Topology)
    ensures numbers { (hosted : List ℕ) (steps : List Line) (c : Course) (done : List Act) (p : ℕ)
        → AreFirst topo.now hosted steps c done → p < length topo.now.publishers
        → let s : Transition = after_acts topo.now hosted c done in
        (new : List (ℕ × Event)) × Logs p (log_found c p) (log_of s.world p) s.lines new }
    ensures submitted { (hosted : List ℕ) (steps : List Line) (c : Course) (done : List Act) (p : ℕ) (es : List Event)
        → AreFirst topo.now hosted steps c done → IsOfClient topo.now c p es
        → let s : Transition = after_acts topo.now hosted c done in let found : Log = log_found c p in
        (new : List (ℕ × Event)) × Logs p found (log_of s.world p) s.lines new
        × (map (λ x. x.1) new ≡ take (length new) (drop found.last es)) }
    ensures prefix { (hosted : List ℕ) (steps : List Line) (c : Course) (done : List Act) (p : ℕ) (es : List Event)
        → AreFirst topo.now hosted steps c done → IsOfClient topo.now c p es
        → IsFirstOf es (log_found c p)
        → let s : Transition = after_acts topo.now hosted c done in IsFirstOf es (log_of s.world p) }
    ensures images { (hosted : List ℕ) (steps : List Line) (c : Course) (done : List Act) (p : ℕ) (es : List Event)
        (a b : List ℕ) → IsOfClient topo.now c p es → IsFirstOf es (log_found c p)
        → IsReachedFrom topo.now hosted steps c done p a b → HoldsFirstOf topo.now.late es a b }
    ensures answered { (hosted : List ℕ) (steps : List Line) (c : Course) (done : List Act) (p n : ℕ)
        → AreFirst topo.now hosted steps c done → p < length topo.now.publishers → n < 2 ^ 64
        → list_any (offers_next p n) (all_entries topo.now hosted (world_before topo.now c) done) ≡ true
        → let s : Transition = after_acts topo.now hosted c done in let l : Log = log_of s.world p in
        n ≤ suc l.last }
    ensures spent { (w : World) (x : Publish) → x.0 < length w.logs
        → let u : Transition = publish_now (net_of topo.now) w x.0 x.1.0 x.1.1 in let l : Log = log_of u.world x.0 in
        (reply_to l.last x ≡ Spent x.0) ↔ (published (log_of w x.0) x.1.0 x.1.1 w.clock ≡ Exhausted) }
{
    let _ = topo;
}

/// What a client was answered is never lost again by a crash in the run. Let the journal have offered it that a number
/// comes next by the time when the acts of the first arrivals were made, and let the log of the publisher have lasted
/// since, as the logs of every run do (`since` of `KeepsLogs`, its `lasts`). Then whatever a crash might have left of the
/// lanes at that time, or may have left at any moment since, is a log that has every number below the one that was
/// offered.
pub fn what_was_answered_lasts(topo: &Topology)
    ensures lasts { (hosted : List ℕ) (steps : List Line) (c : Course) (k p n : ℕ) (mid after : Lanes)
        → p < length topo.now.publishers → n < 2 ^ 64
        → list_any (offers_next p n) (all_entries topo.now hosted (world_before topo.now c)
        (acts_upto topo.now hosted steps c k)) ≡ true
        → (l : Lasts topo.now.late (log_of (world_upto topo.now hosted steps c k) p) mid after)
        → ((a b : List ℕ) → MayLeavePair mid a b → HasNumbers topo.now.late n a b)
        × Along (HasNumbers topo.now.late n) mid l.parts after }
    ensures first { (hosted : List ℕ) (steps : List Line) (c : Course) (k : ℕ)
        → AreFirst topo.now hosted steps c (acts_upto topo.now hosted steps c k) }
{
    let _ = topo;
}
