//! A post over sockets.

ghost use Rattle.std.specs.Prelude.{◌≡◌, ◌≢◌, ◌≤◌, ◌<◌, ◌∷◌, ◌++◌, [], ℕ, true, length, take, IfOk, IfSome, OnOk};
ghost use Rattle.std.specs.Prelude.{OnErr, IsErrAnd, IsErrOf, IsSome, false, Ok, Err, Option, None, Some, ◌/◌, min};
ghost use Rattle.std.specs.Duration.{as_nanos};
ghost use Rattle.gr_out.specs.Journal.{Fits, CountsFailed};
ghost use Rattle.gr_sock.specs.Counts.{RaisesOnFailed, KeepsFailed};
ghost use Rattle.gr_sock.specs.Kinds.{passes, fault_for};
ghost use Rattle.gr_sock.specs.Address.{address_of};
ghost use Rattle.gr_sock.specs.Bound.{is_bound, address_in, socket_in, IsBinding, BindDid, HasSocket, Looked, NextDid};
ghost use Rattle.gr_sock.specs.Bound.{CameHosted, OfferDid, datagram_in, pause_after, longest, is_due, wait_from};
ghost use Rattle.gr_sock.specs.Bound.{IsInTime, quiet_after, offered_after, before_after, run_after, first_wait};
ghost use Rattle.gr_sock.specs.Bound.{is_news, heard_after};
ghost use Rattle.gr_sock.specs.Digest.{nothing, with_offer};
ghost use Rattle.gr_sock.specs.Network.{with_sent};

use crate::address::{Address, address_of};
use crate::bound::Bound;
use crate::count::raised;
use crate::digest::{NOTHING, with_offer};
use crate::network::Network;
use crate::trouble::PostError;
use gr_out::{Arrival, Post, PostFault};
use gr_pace::Paced;
use std::alloc::Global;
use std::io;
use std::io::ErrorKind;
use std::rt::Clock;
use std::time::Duration;

// The longest wait of one `next`, and the longest time from one quiet moment to the next, in milliseconds.
const LONGEST: u64 = 50;

// The first wait.
const FIRST_WAIT: u64 = 12;

// At the latest so long after the last quiet moment a wait ends that begins later than that.
const EARLY: u64 = 49;

// From when on the next quiet moment is near, and how long a wait is at most then.
const NEAR: u64 = 40;

const LAST_WAIT: u64 = 8;

// Before how many quiet moments in a row there has to be news for a wait to get shorter.
const NEWS_IN_A_ROW: u64 = 2;

// The same for the longest wait.
const NEWS_AT_LONGEST: u64 = 5;

// How much has to be heard lately for other offers to be news where the caller has no more to do.
const ENOUGH_HEARD: u64 = 4;

/// A post of which each hosted broker has a socket. To `Post` it tells nothing of what came and went; each call says
/// what it does with the network, where that tells what passed.
///
/// `next` takes a datagram that is there. Where none is, it waits for one, and where none comes it answers `Quiet`.
///
/// The wait is 1 to 50 milliseconds. From each quiet moment on it is twice as long where there is no news, and where
/// there is news twice in a row half as long; but the longest wait stays until there was news five times in a row.
/// There is news where the offers since the last quiet moment are others than those between that and the one before, by
/// a digest of 64 bits. A caller may say more (`pace`): where it has more to do there is always news, and where it has
/// not, other offers are news only where enough was heard lately: four datagrams, by a count that is halved at each
/// quiet moment.
///
/// So while brokers go on telling one another what is new quiet moments come fast, also where some of it is lost and has
/// to be told again; and brokers that only repeat themselves, or have news now and then, or ask for more and more and
/// are not answered, are woken 20 times a second, however many of them send to one another.
///
/// Whatever comes, the next quiet moment comes no later than 50 milliseconds after the last one: once they have passed,
/// by the clock, `next` answers `Quiet` and leaves a datagram that is there to the next call. A wait that begins later
/// than the last one, as behind a datagram, ends at the latest 49 milliseconds after it; one that begins from 40 on
/// takes 8 at most, and ends at the latest after 50. So a broker that is sent the same each 50 milliseconds is soon
/// woken shortly after each, and of brokers in a row each is woken shortly after the one below it: acknowledgements pass
/// them all in a few milliseconds.
///
/// All sockets are looked at in turn, each first once the one before it gave something. A broker can be bound once.
#[derive(Drop)]
pub struct UdpPost<N: Network, C: Clock> {
    network: N,
    clock: C,
    bound: Vec<Bound>,
    // Where in `bound` the next look begins.
    turn: usize,
    // How long the next wait is, in milliseconds.
    pause: u64,
    // The moment of the last quiet moment, 0 before the first.
    quiet: u64,
    // The digests of the offers since the last quiet moment, and of those between that and the one before.
    offered: u64,
    before: u64,
    // How much was heard lately: the datagrams, by a count that is halved at each quiet moment.
    heard: u64,
    // Whether the caller has more to do, where it has said so.
    more: Option<bool>,
    // Before how many quiet moments in a row there was news.
    run: u64,
    faults: u64,
    lost: u64,
    said: Option<PostError>,
    loss: Option<PostError>,
    ghost brief: { pause ≤ longest },
}

impl<N: Network, C: Clock> UdpPost<N, C> {
    ghost use Rattle.gr_sock.specs.UdpPost.{network_of, bound_of, pause_of, quiet_of, post_faults, post_lost};
    ghost use Rattle.gr_sock.specs.UdpPost.{offered_of, before_of, heard_of, more_of, has_news, run_of};
    ghost use Rattle.gr_sock.specs.UdpPost.{post_said, loss_said};

    /// A post over a network, with no broker bound and no fault so far. The clock gives the moments.
    pub fn new(alloc: Global, network: N, clock: C) -> UdpPost<N, C>
        ensures network { network_of result ≡ network }
        ensures bound { bound_of result ≡ [] }
        ensures pause { pause_of result ≡ first_wait }
        ensures faults { post_faults result ≡ 0 }
        ensures lost { post_lost result ≡ 0 }
        ensures quiet { quiet_of result ≡ 0 }
        ensures offered { (offered_of result ≡ nothing) × (before_of result ≡ nothing) }
        ensures heard { heard_of result ≡ 0 }
        ensures more { more_of result ≡ None }
        ensures run { run_of result ≡ 0 }
        ensures said { post_said result ≡ None }
        ensures loss { loss_said result ≡ None }
    {
        UdpPost {
            network,
            clock,
            bound: Vec::new(alloc),
            turn: 0,
            pause: FIRST_WAIT,
            quiet: 0,
            offered: NOTHING,
            before: NOTHING,
            heard: 0,
            more: None,
            run: 0,
            faults: 0,
            lost: 0,
            said: None,
            loss: None,
        }
    }

    /// The network, for looking at it.
    pub fn network(&self) -> &N
        ensures { result.now ≡ network_of self.now }
    {
        &self.network
    }

    /// How many offers were lost.
    pub fn lost(&self) -> u64
        ensures { result ≡ post_lost self.now }
    {
        self.lost
    }

    /// What the system said at the last binding or arrival that failed, where one did.
    pub fn last_error(&self) -> Option<PostError>
        ensures { result ≡ post_said self.now }
    {
        self.said
    }

    /// What the system said at the last offer that was lost, where one was.
    pub fn last_loss(&self) -> Option<PostError>
        ensures { result ≡ loss_said self.now }
    {
        self.loss
    }
}

/// Whether an error of a socket says nothing of it: none is there, or an earlier datagram did not arrive.
fn passes(kind: ErrorKind) -> bool
    ensures { result ≡ passes kind }
{
    matches!(
        kind,
        ErrorKind::WouldBlock
            | ErrorKind::Interrupted
            | ErrorKind::ConnectionRefused
            | ErrorKind::ConnectionReset
            | ErrorKind::HostUnreachable
            | ErrorKind::NetworkUnreachable
            | ErrorKind::NetworkDown
    )
}

/// The place that comes so many steps after the one whose turn it is, in a round of `count` places.
fn place_after(turn: usize, step: usize, count: usize) -> usize
    requires { step < count }
    ensures { result < count }
{
    let start = turn % count;
    if step < count - start {
        start + step
    } else {
        step - (count - start)
    }
}

/// Looks at each socket once for a datagram, from the one whose turn it is, and takes the first: the broker that it
/// came at, and its length. The turn then is the next socket's.
fn look<N: Network>(
    network: &mut N,
    bound: &[Bound],
    turn: &mut usize,
    into: &mut [u8],
) -> Result<Option<(u16, usize)>, PostError>
    ensures fits { IfOk result (λ r. IfSome r (λ d. d.1 ≤ length into.new)) }
    ensures len { length into.new ≡ length into.old }
    ensures looked { N.tells → IfOk result (λ r.
        Looked bound.now (N.traffic network.old) (N.traffic network.new) into.new r) }
    ensures hosted { IfOk result (λ r. IfSome r (λ d. (s : ℕ) × HasSocket bound.now d.0 s)) }
    ensures err { N.tells → OnErr result (N.traffic network.new ≡ N.traffic network.old) }
{
    let count = bound.len();
    'sockets: for step in 0..count {
        let place = place_after(*turn, step, count);
        let Bound {
            broker,
            address,
            socket,
        } = bound[place];
        let Some(socket) = socket else {
            continue;
        };
        match network.take(socket, into) {
            Ok(len) => {
                *turn = place + 1;
                return Ok(Some((broker, len)));
            }
            Err(error) => {
                if !passes(error.kind()) {
                    return Err(PostError {
                        address: Some(address),
                        error,
                    });
                }
            }
        }
    }
    Ok(None)
}

/// Whether there is news, where the caller has said this, the offers are others or the same, and so much was heard.
fn is_news(more: Option<bool>, differ: bool, heard: u64) -> bool
    ensures { result ≡ is_news more differ heard }
{
    match more {
        None => differ,
        Some(true) => true,
        Some(false) => differ && heard >= ENOUGH_HEARD,
    }
}

/// Before how many quiet moments in a row there was news, after what came.
fn run_after(run: u64, news: bool, arrival: Arrival) -> u64
    ensures { result ≡ run_after run news arrival }
{
    match arrival {
        Arrival::Quiet { .. } if news => raised(run),
        Arrival::Quiet { .. } => 0,
        Arrival::Datagram { .. } | Arrival::Closed => run,
    }
}

/// How long the next wait is, after this one and what it brought, where there was news before so many quiet moments in
/// a row.
fn pause_after(pause: u64, run: u64, arrival: Arrival) -> u64
    requires { pause ≤ longest }
    ensures after { result ≡ pause_after pause run arrival }
    ensures brief { result ≤ longest }
{
    let enough = if pause < LONGEST {
        NEWS_IN_A_ROW
    } else {
        NEWS_AT_LONGEST
    };
    match arrival {
        Arrival::Quiet { .. } if run == 0 => (pause * 2).min(LONGEST),
        Arrival::Quiet { .. } if run >= enough => (pause / 2).max(1),
        Arrival::Datagram { .. } | Arrival::Quiet { .. } | Arrival::Closed => pause,
    }
}

/// How much was heard lately, after what came.
fn heard_after(heard: u64, arrival: Arrival) -> u64
    ensures { result ≡ heard_after heard arrival }
{
    match arrival {
        Arrival::Datagram { .. } => raised(heard),
        Arrival::Quiet { .. } => heard / 2,
        Arrival::Closed => heard,
    }
}

/// Whether a quiet moment is due at this moment, where that was the last one.
fn is_due(last: u64, moment: u64) -> bool
    ensures { result ≡ is_due last moment }
{
    moment < last || moment - last >= LONGEST
}

/// How long to wait, where none is due.
fn wait_from(pause: u64, last: u64, moment: u64) -> u64
    requires { is_due last moment ≡ false }
    ensures { result ≡ wait_from pause last moment }
{
    let passed = moment - last;
    let most = if passed == 0 {
        LONGEST
    } else if passed < NEAR {
        EARLY - passed
    } else {
        LAST_WAIT.min(LONGEST - passed)
    };
    pause.min(most)
}

/// A time since 1970 in milliseconds.
fn milliseconds(time: Duration) -> u64
    ensures { result ≡ min (as_nanos time / 1_000_000) 18_446_744_073_709_551_615 }
{
    u64::try_from(time.as_millis()).unwrap_or(u64::MAX)
}

/// The moment, in milliseconds since 1970.
fn moment<C: Clock>(clock: &C) -> io::Result<u64> {
    Ok(milliseconds(clock.since_1970()?))
}

/// A datagram that is there, if there is one at a socket, with its moment; else the moment alone, and so where a quiet
/// moment is due.
fn look_now<N: Network, C: Clock>(
    network: &mut N,
    clock: &C,
    bound: &[Bound],
    turn: &mut usize,
    quiet: u64,
    into: &mut [u8],
) -> Result<Arrival, PostError>
    ensures fits { IfOk result (λ a. Fits (length into.new) a) }
    ensures len { length into.new ≡ length into.old }
    ensures looked { N.tells → IfOk result (λ a.
        Looked bound.now (N.traffic network.old) (N.traffic network.new) into.new (datagram_in a)) }
    ensures hosted { IfOk result (λ a. CameHosted bound.now a) }
    ensures in_time { IfOk result (λ a. IsInTime quiet a) }
    ensures err { N.tells → OnErr result (N.traffic network.new ≡ N.traffic network.old) }
{
    let moment = moment(clock)?;
    if is_due(quiet, moment) {
        return Ok(Arrival::Quiet { moment });
    }
    match look(network, bound, turn, into)? {
        Some((at, len)) => Ok(Arrival::Datagram { at, len, moment }),
        None => Ok(Arrival::Quiet { moment }),
    }
}

/// What comes next: what is there, or what comes within the pause, or a quiet moment that is due.
fn await_next<N: Network, C: Clock>(
    network: &mut N,
    clock: &C,
    bound: &[Bound],
    turn: &mut usize,
    pause: u64,
    quiet: u64,
    into: &mut [u8],
) -> Result<Arrival, PostError>
    ensures fits { IfOk result (λ a. Fits (length into.new) a) }
    ensures len { length into.new ≡ length into.old }
    ensures did { N.tells → IfOk result (λ a.
        NextDid bound.now pause quiet (N.traffic network.old) (N.traffic network.new) into.new a) }
    ensures hosted { IfOk result (λ a. CameHosted bound.now a) }
    ensures in_time { IfOk result (λ a. IsInTime quiet a) }
    ensures taken { N.tells → OnErr result ((N.traffic network.new).taken ≡ (N.traffic network.old).taken) }
    ensures sent { N.tells → OnErr result ((N.traffic network.new).sent ≡ (N.traffic network.old).sent) }
{
    let there = look_now(network, clock, bound, turn, quiet, into)?;
    let began = match there {
        Arrival::Quiet { moment } if !is_due(quiet, moment) => moment,
        _ => return Ok(there),
    };
    network.wait(wait_from(pause, quiet, began))?;
    look_now(network, clock, bound, turn, quiet, into)
}

/// Whether a broker was bound.
fn is_bound(broker: u16, bound: &[Bound]) -> bool
    ensures { result ≡ is_bound broker bound.now }
{
    bound.iter().any(|b| b.broker == broker)
}

/// Where the datagrams of a broker go.
fn address_in(broker: u16, bound: &[Bound]) -> Option<Address>
    ensures { result ≡ address_in broker bound.now }
{
    bound.iter().find(|b| b.broker == broker).map(|b| b.address)
}

/// The socket of a broker that is hosted.
fn socket_in(broker: u16, bound: &[Bound]) -> Option<usize>
    ensures { result ≡ socket_in broker bound.now }
{
    for b in bound {
        if b.broker == broker {
            return b.socket;
        }
    }
    None
}

/// The fault for an error of the system.
fn fault_of(error: &io::Error) -> PostFault
    ensures { result ≡ fault_for error.now }
{
    match error.kind() {
        ErrorKind::OutOfMemory => PostFault::Memory,
        _ => PostFault::Failed,
    }
}

/// Binds a broker at an address: opens its socket where it is hosted here. No address is an error.
fn binding<N: Network>(
    network: &mut N,
    bound: &mut Vec<Bound>,
    broker: u16,
    place: Option<Address>,
    here: bool,
) -> io::Result<()>
    ensures ok { OnOk result ((b : Bound) × IsBinding broker place here b
        × (bound.new.items ≡ bound.old.items ++ b ∷ [])
        × (N.tells → BindDid here b (N.traffic network.old) (N.traffic network.new))) }
    ensures err { OnErr result (bound.new.items ≡ bound.old.items) }
    ensures twice { is_bound broker bound.old.items ≡ true → IsErrAnd result (λ e. fault_for e ≡ PostFault.Failed) }
    ensures unread { place ≡ None → IsErrAnd result (λ e. fault_for e ≡ PostFault.Failed) }
    ensures opened { N.tells → OnErr result (N.traffic network.new ≡ N.traffic network.old) }
{
    if is_bound(broker, bound) {
        return Err(io::Error::new(ErrorKind::AddrInUse, "this broker has an address"));
    }
    let Some(address) = place else {
        return Err(io::Error::new(
            ErrorKind::InvalidInput,
            "an address is not one of IPv4 with a port",
        ));
    };
    bound.reserve(1)?;
    let socket = if here {
        Some(network.open(address)?)
    } else {
        None
    };
    bound
        .push(Bound {
            broker,
            address,
            socket,
        })
        .unwrap();
    Ok(())
}

/// Sends bytes from the socket of a broker to the address of another.
fn carried<N: Network>(
    network: &mut N,
    bound: &[Bound],
    from: u16,
    target: Option<Address>,
    bytes: &[u8],
) -> io::Result<()>
    ensures ok { N.tells → OnOk result ((s : ℕ) × (a : Address) × (socket_in from bound.now ≡ Some s)
        × (target ≡ Some a) × (N.traffic network.new ≡ with_sent s a bytes.now (N.traffic network.old))) }
    ensures err { N.tells → OnErr result (N.traffic network.new ≡ N.traffic network.old) }
{
    let Some(target) = target else {
        return Err(io::Error::new(ErrorKind::NotFound, "the receiver has no address"));
    };
    let Some(socket) = socket_in(from, bound) else {
        return Err(io::Error::new(ErrorKind::NotFound, "the sender has no socket"));
    };
    network.send(socket, target, bytes)
}

impl<N: Network, C: Clock> Post for UdpPost<N, C> {
    ghost use Rattle.gr_sock.specs.UdpPost.{network_of, bound_of, pause_of, quiet_of, post_faults, post_lost};
    ghost use Rattle.gr_sock.specs.UdpPost.{offered_of, before_of, heard_of, more_of, has_news, run_of};
    ghost use Rattle.gr_sock.specs.UdpPost.{post_said, loss_said};

    ghost tells = { ⊥ };

    ghost journal = { λ _. [] };

    ghost faults = { λ p. post_faults p };

    ghost lost = { λ p. post_lost p };

    /// Opens a socket at the address where the broker is hosted; else keeps the address. An address whose text is none
    /// is a failure, and so is a broker that was bound.
    fn bind(&mut self, broker: u16, address: &[u8], here: bool) -> Result<(), PostFault>
        ensures ok { OnOk result ((b : Bound) × IsBinding broker (address_of address.now) here b
            × (bound_of self.new ≡ bound_of self.old ++ b ∷ [])
            × (N.tells → BindDid here b (N.traffic (network_of self.old)) (N.traffic (network_of self.new)))) }
        ensures err { OnErr result (bound_of self.new ≡ bound_of self.old) }
        ensures twice { is_bound broker (bound_of self.old) ≡ true → IsErrOf result PostFault.Failed }
        ensures unread { address_of address.now ≡ None → IsErrOf result PostFault.Failed }
        ensures opened { N.tells → OnErr result
            (N.traffic (network_of self.new) ≡ N.traffic (network_of self.old)) }
        ensures pause { pause_of self.new ≡ pause_of self.old }
        ensures raises { RaisesOnFailed (post_faults self.old) (post_faults self.new) result }
        ensures cause { CountsFailed (post_faults self.old) (post_faults self.new) result }
        ensures lost { post_lost self.new ≡ post_lost self.old }
        ensures quiet { quiet_of self.new ≡ quiet_of self.old }
        ensures offered { offered_of self.new ≡ offered_of self.old }
        ensures before { before_of self.new ≡ before_of self.old }
        ensures heard { heard_of self.new ≡ heard_of self.old }
        ensures more { more_of self.new ≡ more_of self.old }
        ensures run { run_of self.new ≡ run_of self.old }
        ensures said { KeepsFailed (address_of address.now) (post_said self.old) (post_said self.new) result }
        ensures loss { loss_said self.new ≡ loss_said self.old }
    {
        let place = address_of(address);
        let Err(error) = binding(&mut self.network, &mut self.bound, broker, place, here) else {
            return Ok(());
        };
        let fault = fault_of(&error);
        if fault == PostFault::Failed {
            self.faults = raised(self.faults);
            self.said = Some(PostError {
                address: place,
                error,
            });
        }
        Err(fault)
    }

    /// Never answers that nothing comes any more, and never want of memory.
    fn next(&mut self, into: &mut [u8]) -> Result<Arrival, PostFault>
        ensures fits { IfOk result (λ a. Fits (length into.old) a) }
        ensures len { length into.new ≡ length into.old }
        ensures did { N.tells → IfOk result (λ a. NextDid (bound_of self.old) (pause_of self.old) (quiet_of self.old)
            (N.traffic (network_of self.old)) (N.traffic (network_of self.new)) into.new a) }
        ensures in_time { IfOk result (λ a. IsInTime (quiet_of self.old) a) }
        ensures hosted { IfOk result (λ a. CameHosted (bound_of self.old) a) }
        ensures taken { N.tells → OnErr result
            ((N.traffic (network_of self.new)).taken ≡ (N.traffic (network_of self.old)).taken) }
        ensures sent { N.tells → OnErr result
            ((N.traffic (network_of self.new)).sent ≡ (N.traffic (network_of self.old)).sent) }
        ensures memory { result ≢ Err PostFault.Memory }
        ensures bound { bound_of self.new ≡ bound_of self.old }
        ensures pause { IfOk result (λ a. pause_of self.new ≡ pause_after (pause_of self.old) (run_of self.new) a) }
        ensures run { IfOk result (λ a. run_of self.new ≡ run_after (run_of self.old) (has_news self.old) a) }
        ensures offered { IfOk result (λ a. offered_of self.new ≡ offered_after (offered_of self.old) a) }
        ensures before { IfOk result (λ a.
            before_of self.new ≡ before_after (offered_of self.old) (before_of self.old) a) }
        ensures heard { IfOk result (λ a. heard_of self.new ≡ heard_after (heard_of self.old) a) }
        ensures more { more_of self.new ≡ more_of self.old }
        ensures kept { OnErr result ((offered_of self.new ≡ offered_of self.old)
            × (before_of self.new ≡ before_of self.old) × (run_of self.new ≡ run_of self.old)) }
        ensures unheard { OnErr result (heard_of self.new ≡ heard_of self.old) }
        ensures quiet { IfOk result (λ a. quiet_of self.new ≡ quiet_after (quiet_of self.old) a) }
        ensures err { OnErr result (pause_of self.new ≡ pause_of self.old) }
        ensures still { OnErr result (quiet_of self.new ≡ quiet_of self.old) }
        ensures said { OnErr result (IsSome (post_said self.new)) }
        ensures unsaid { OnOk result (post_said self.new ≡ post_said self.old) }
        ensures loss { loss_said self.new ≡ loss_said self.old }
        ensures brief { pause_of self.old ≤ longest }
        ensures raises { RaisesOnFailed (post_faults self.old) (post_faults self.new) result }
        ensures cause { CountsFailed (post_faults self.old) (post_faults self.new) result }
        ensures lost { post_lost self.new ≡ post_lost self.old }
    {
        let outcome = await_next(
            &mut self.network,
            &self.clock,
            &self.bound,
            &mut self.turn,
            self.pause,
            self.quiet,
            into,
        );
        match outcome {
            Ok(arrival) => {
                let news = is_news(self.more, self.offered != self.before, self.heard);
                self.run = run_after(self.run, news, arrival);
                self.heard = heard_after(self.heard, arrival);
                if let Arrival::Quiet { moment } = arrival {
                    self.quiet = moment;
                    self.before = self.offered;
                    self.offered = NOTHING;
                }
                self.pause = pause_after(self.pause, self.run, arrival);
                Ok(arrival)
            }
            Err(said) => {
                self.faults = raised(self.faults);
                self.said = Some(said);
                Err(PostFault::Failed)
            }
        }
    }

    /// Sends the bytes as one datagram. A socket that has no room for it now, or a broker that was not bound, is a
    /// loss. Never answers want of memory.
    fn offer(&mut self, from: u16, to: u16, bytes: &[u8]) -> Result<(), PostFault>
        ensures ok { N.tells → OnOk result (OfferDid (bound_of self.old) from to bytes.now
            (N.traffic (network_of self.old)) (N.traffic (network_of self.new))) }
        ensures err { N.tells → OnErr result (N.traffic (network_of self.new) ≡ N.traffic (network_of self.old)) }
        ensures memory { result ≢ Err PostFault.Memory }
        ensures bound { bound_of self.new ≡ bound_of self.old }
        ensures pause { pause_of self.new ≡ pause_of self.old }
        ensures faults { post_faults self.new ≡ post_faults self.old }
        ensures raises { RaisesOnFailed (post_lost self.old) (post_lost self.new) result }
        ensures cause { CountsFailed (post_lost self.old) (post_lost self.new) result }
        ensures quiet { quiet_of self.new ≡ quiet_of self.old }
        ensures offered { offered_of self.new ≡ with_offer (offered_of self.old) from to bytes.now }
        ensures before { before_of self.new ≡ before_of self.old }
        ensures heard { heard_of self.new ≡ heard_of self.old }
        ensures more { more_of self.new ≡ more_of self.old }
        ensures run { run_of self.new ≡ run_of self.old }
        ensures said { post_said self.new ≡ post_said self.old }
        ensures loss { let to_whom = address_in to (bound_of self.old) in
            KeepsFailed to_whom (loss_said self.old) (loss_said self.new) result }
    {
        self.offered = with_offer(self.offered, from, to, bytes);
        let target = address_in(to, &self.bound);
        match carried(&mut self.network, &self.bound, from, target, bytes) {
            Ok(()) => Ok(()),
            Err(error) => {
                self.lost = raised(self.lost);
                self.loss = Some(PostError {
                    address: target,
                    error,
                });
                Err(PostFault::Failed)
            }
        }
    }
}

impl<N: Network, C: Clock> Paced for UdpPost<N, C> {
    ghost use Rattle.gr_sock.specs.UdpPost.{network_of, bound_of, pause_of, quiet_of, post_faults, post_lost};
    ghost use Rattle.gr_sock.specs.UdpPost.{offered_of, before_of, heard_of, more_of, run_of, post_said, loss_said};

    /// With more to do there is news at each quiet moment; without, only where enough was heard.
    fn pace(&mut self, has_more: bool)
        ensures more { more_of self.new ≡ Some has_more }
        ensures network { network_of self.new ≡ network_of self.old }
        ensures bound { bound_of self.new ≡ bound_of self.old }
        ensures pause { pause_of self.new ≡ pause_of self.old }
        ensures quiet { quiet_of self.new ≡ quiet_of self.old }
        ensures offered { offered_of self.new ≡ offered_of self.old }
        ensures before { before_of self.new ≡ before_of self.old }
        ensures heard { heard_of self.new ≡ heard_of self.old }
        ensures run { run_of self.new ≡ run_of self.old }
        ensures faults { post_faults self.new ≡ post_faults self.old }
        ensures lost { post_lost self.new ≡ post_lost self.old }
        ensures said { post_said self.new ≡ post_said self.old }
        ensures loss { loss_said self.new ≡ loss_said self.old }
    {
        self.more = Some(has_more);
    }
}
