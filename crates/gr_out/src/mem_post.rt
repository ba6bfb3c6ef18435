//! A post in memory: a script says what comes, and some of its calls fail.

ghost use Rattle.std.specs.Prelude.{◌≡◌, ◌≢◌, ◌<◌, ℕ, ◌++◌, [], ◌∷◌, if◌then◌else◌, Bool, is_err, Some, Ok, Err, List};
ghost use Rattle.std.specs.Prelude.{length, drop, map, option_map, IfOk, OnOk, OnErr, vec_len};
ghost use Rattle.std.specs.Vec.{vec_capacity};
ghost use Rattle.gr_out.specs.Streams.{counted, is_listed};
ghost use Rattle.gr_out.specs.Journal.{bind_entries, next_entries, offer_entries, hosted, offers, Fits, CameAt};
ghost use Rattle.gr_out.specs.Journal.{CountsFailed};
ghost use Rattle.gr_out.specs.Script.{PostView, post_of, with_scripted, pass, raw, pause, fail, nth_offer, came};
ghost use Rattle.gr_out.specs.Script.{scripted_entry, next_entry, next_of, binding_fails, offer_fails, after_next};
ghost use Rattle.gr_out.specs.Script.{after_bind, after_offer, scripted_of, offer_of};

use crate::fault::Memory;
use crate::journal::{Journal, Note};
use crate::post::{Arrival, Post, PostFault};
use std::alloc::Global;
use std::marker::Model;

/// What the script gives.
#[derive(Drop)]
enum Cue {
    /// The bytes of an offer by its number, to the broker that it went to.
    Pass {
        offer: u64,
        moment: u64,
    },
    /// Bytes to a broker.
    Raw {
        at: u16,
        bytes: Vec<u8>,
        moment: u64,
    },
    Quiet {
        moment: u64,
    },
    Fail,
}

/// An offer that was made.
#[derive(Drop)]
struct Offer {
    to: u16,
    bytes: Vec<u8>,
}

/// A post in memory. `next` gives the entries of its script in order, and after them that nothing comes any more. The
/// offers and the bindings whose numbers are in its lists, each counted from 1, fail, and the arrivals that the script
/// says; no other call does.
#[derive(Drop)]
pub struct MemPost {
    alloc: Global,
    script: Vec<Cue>,
    at: usize,
    offers: Vec<Offer>,
    hosted: Vec<u16>,
    failing_offers: Vec<u64>,
    failing_bindings: Vec<u64>,
    bindings: u64,
    faults: u64,
    lost: u64,
    journal: Journal,
}

impl Model for MemPost {
    ghost use Rattle.gr_out.specs.Script.{PostView, scripted_of, IsPost};
    ghost use Rattle.std.specs.Prelude.{map, drop, vec_len};

    ghost Value = { PostView };

    ghost view = { λ p. record {
      script = map scripted_of (drop p.at p.script.items);
      journal = p.journal.entries;
      failing_offers = p.failing_offers.items;
      failing_bindings = p.failing_bindings.items;
      bindings = p.bindings;
      faults = p.faults;
      lost = p.lost;
    } };

    ghost invariant = { λ p. IsPost p.hosted.items p.offers.items p.at (vec_len p.script) p.journal.entries };
}

/// The bytes that come to a broker, at a moment; nothing where it is not hosted.
fn datagram(hosted: &[u16], to: u16, bytes: &[u8], moment: u64, into: &mut [u8]) -> Arrival
    ensures entries { next_entries into.new (Ok result)
        ≡ came (length into.old) hosted.now moment (Some (to, bytes.now)) ∷ [] }
    ensures fits { Fits (length into.old) result }
    ensures hosted { CameAt hosted.now result }
    ensures len { length into.new ≡ length into.old }
{
    if !hosted.contains(&to) {
        return Arrival::Quiet { moment };
    }
    let len = bytes.len().min(into.len());
    into[..len].copy_from_slice(&bytes[..len]);
    Arrival::Datagram {
        at: to,
        len,
        moment,
    }
}

/// An offer by its number, counted from 1.
fn nth(made: &[Offer], n: u64) -> Option<&Offer>
    ensures { option_map (λ o. offer_of o.now) result ≡ nth_offer (map offer_of made.now) n }
{
    if n == 0 {
        return None;
    }
    made.get((n - 1) as usize)
}

/// What a cue gives.
fn cued(cue: &Cue, hosted: &[u16], made: &[Offer], into: &mut [u8]) -> Result<Arrival, PostFault>
    ensures entries { next_entries into.new result
        ≡ scripted_entry (length into.old) hosted.now (map offer_of made.now) (scripted_of cue.now) ∷ [] }
    ensures fits { IfOk result (λ a. Fits (length into.old) a) }
    ensures hosted { IfOk result (λ a. CameAt hosted.now a) }
    ensures len { length into.new ≡ length into.old }
{
    match cue {
        Cue::Pass { offer, moment } => match nth(made, *offer) {
            None => Ok(Arrival::Quiet { moment: *moment }),
            Some(offer) => Ok(datagram(hosted, offer.to, &offer.bytes, *moment, into)),
        },
        Cue::Raw { at, bytes, moment } => Ok(datagram(hosted, *at, bytes, *moment, into)),
        Cue::Quiet { moment } => Ok(Arrival::Quiet { moment: *moment }),
        Cue::Fail => Err(PostFault::Failed),
    }
}

/// What the script gives next.
fn scripted_next(
    script: &[Cue],
    at: usize,
    hosted: &[u16],
    made: &[Offer],
    into: &mut [u8],
) -> Result<Arrival, PostFault>
    ensures entries { next_entries into.new result
        ≡ next_entry (length into.old) hosted.now (map offer_of made.now) (map scripted_of (drop at script.now)) ∷ [] }
    ensures fits { IfOk result (λ a. Fits (length into.old) a) }
    ensures hosted { IfOk result (λ a. CameAt hosted.now a) }
    ensures len { length into.new ≡ length into.old }
{
    if at >= script.len() {
        return Ok(Arrival::Closed);
    }
    cued(&script[at], hosted, made, into)
}

/// A count, one higher where a call failed.
fn raised(count: u64, fails: bool) -> u64
    ensures { result ≡ (if fails then counted count else count) }
{
    if fails {
        count.saturating_add(1)
    } else {
        count
    }
}

/// What a call answers that is to fail or not.
fn answer(fails: bool) -> Result<(), PostFault>
    ensures { result ≡ (if fails then Err PostFault.Failed else Ok tt) }
{
    if fails {
        Err(PostFault::Failed)
    } else {
        Ok(())
    }
}

/// Adds a broker that is hosted, unless its binding fails.
fn host(brokers: &mut Vec<u16>, broker: u16, here: bool, fails: bool)
    requires room { vec_len brokers.old < vec_capacity brokers.old }
    ensures { brokers.new.items ≡ brokers.old.items ++ (if fails then [] else (if here then broker ∷ [] else [])) }
{
    if fails {
        return;
    }
    if here {
        brokers.push(broker).unwrap();
    }
}

/// Keeps an offer.
fn keep(alloc: Global, made: &mut Vec<Offer>, to: u16, bytes: &[u8]) -> Result<(), Memory>
    ensures ok { OnOk result (map offer_of made.new.items ≡ map offer_of made.old.items ++ (to, bytes.now) ∷ []) }
    ensures err { OnErr result (made.new.items ≡ made.old.items) }
{
    let bytes = Vec::from_slice(alloc, bytes)?;
    match made.push(Offer { to, bytes }) {
        Ok(()) => Ok(()),
        Err(refused) => Err(refused.into()),
    }
}

impl MemPost {
    /// A post that was never called, with nothing in its script. The offers and the bindings with these numbers are to
    /// fail.
    pub fn new(alloc: Global, offers: &[u64], bindings: &[u64]) -> Result<MemPost, Memory>
        ensures { IfOk result (λ p. p ≡ post_of offers.now bindings.now) }
    {
        Ok(MemPost {
            alloc,
            script: Vec::new(alloc),
            at: 0,
            offers: Vec::new(alloc),
            hosted: Vec::new(alloc),
            failing_offers: Vec::from_slice(alloc, offers)?,
            failing_bindings: Vec::from_slice(alloc, bindings)?,
            bindings: 0,
            faults: 0,
            lost: 0,
            journal: Journal::new(),
        })
    }

    /// Puts at the end of the script that the bytes of an offer, counted from 1, come to the broker that it went to.
    pub fn pass(&mut self, offer: u64, moment: u64) -> Result<(), Memory>
        ensures ok { OnOk result (self.new ≡ with_scripted (pass offer moment) self.old) }
        ensures err { OnErr result (self.new ≡ self.old) }
    {
        self.put(Cue::Pass { offer, moment })
    }

    /// Puts at the end of the script that these bytes come to a broker.
    pub fn raw(&mut self, at: u16, bytes: &[u8], moment: u64) -> Result<(), Memory>
        ensures ok { OnOk result (self.new ≡ with_scripted (raw at bytes.now moment) self.old) }
        ensures err { OnErr result (self.new ≡ self.old) }
    {
        let bytes = Vec::from_slice(self.alloc, bytes)?;
        self.put(Cue::Raw { at, bytes, moment })
    }

    /// Puts at the end of the script that nothing comes up to a moment.
    pub fn quiet(&mut self, moment: u64) -> Result<(), Memory>
        ensures ok { OnOk result (self.new ≡ with_scripted (pause moment) self.old) }
        ensures err { OnErr result (self.new ≡ self.old) }
    {
        self.put(Cue::Quiet { moment })
    }

    /// Puts at the end of the script that the call fails.
    pub fn fail(&mut self) -> Result<(), Memory>
        ensures ok { OnOk result (self.new ≡ with_scripted fail self.old) }
        ensures err { OnErr result (self.new ≡ self.old) }
    {
        self.put(Cue::Fail)
    }

    /// The bytes of an offer that was made, counted from 1.
    pub fn offered(&self, n: u64) -> Option<&[u8]>
        ensures { option_map (λ b. b.now) result ≡ option_map (λ o. o.1) (nth_offer (offers self.now.journal) n) }
    {
        match nth(&self.offers, n) {
            None => None,
            Some(offer) => Some(&offer.bytes),
        }
    }

    /// Puts a cue at the end of the script.
    fn put(&mut self, cue: Cue) -> Result<(), Memory>
        ensures ok { OnOk result (self.new ≡ with_scripted (scripted_of cue) self.old) }
        ensures err { OnErr result (self.new ≡ self.old) }
    {
        match self.script.push(cue) {
            Ok(()) => Ok(()),
            Err(refused) => Err(refused.into()),
        }
    }
}

impl Post for MemPost {
    ghost tells = { Unit {0} };

    ghost journal = { λ p. p.journal };

    ghost faults = { λ p. p.faults };

    ghost lost = { λ p. p.lost };

    fn bind(&mut self, broker: u16, address: &[u8], here: bool) -> Result<(), PostFault>
        ensures journal { self.new.journal ≡ self.old.journal ++ bind_entries broker address.now here result }
        ensures cause { CountsFailed self.old.faults self.new.faults result }
        ensures lost { self.new.lost ≡ self.old.lost }
        ensures fails { result ≢ Err PostFault.Memory → is_err result ≡ binding_fails self.old }
        ensures after { result ≢ Err PostFault.Memory → self.new ≡ after_bind broker address.now here self.old }
        ensures memory { result ≡ Err PostFault.Memory → self.new ≡ self.old }
    {
        if self.hosted.reserve(1).is_err() {
            return Err(PostFault::Memory);
        }
        let number = self.bindings.saturating_add(1);
        let fails = self.failing_bindings.contains(&number);
        host(&mut self.hosted, broker, here, fails);
        self.bindings = number;
        self.faults = raised(self.faults, fails);
        let answer = answer(fails);
        self.journal = self.journal.then(&Note::Bound {
            broker,
            address,
            here,
            answer,
        });
        answer
    }

    fn next(&mut self, into: &mut [u8]) -> Result<Arrival, PostFault>
        ensures journal { self.new.journal ≡ self.old.journal ++ next_entries into.new result }
        ensures fits { IfOk result (λ a. Fits (length into.old) a) }
        ensures hosted { IfOk result (λ a. CameAt (hosted self.old.journal) a) }
        ensures len { length into.new ≡ length into.old }
        ensures cause { CountsFailed self.old.faults self.new.faults result }
        ensures lost { self.new.lost ≡ self.old.lost }
        ensures entries { next_entries into.new result ≡ next_of (length into.old) self.old ∷ [] }
        ensures after { self.new ≡ after_next (length into.old) self.old }
    {
        let answer = scripted_next(&self.script, self.at, &self.hosted, &self.offers, into);
        self.at = (self.at + 1).min(self.script.len());
        self.faults = raised(self.faults, answer.is_err());
        self.journal = self.journal.then(&Note::Came {
            piece: into,
            answer,
        });
        answer
    }

    fn offer(&mut self, from: u16, to: u16, bytes: &[u8]) -> Result<(), PostFault>
        ensures journal { self.new.journal ≡ self.old.journal ++ offer_entries from to bytes.now result }
        ensures faults { self.new.faults ≡ self.old.faults }
        ensures cause { CountsFailed self.old.lost self.new.lost result }
        ensures fails { result ≢ Err PostFault.Memory → is_err result ≡ offer_fails self.old }
        ensures after { result ≢ Err PostFault.Memory → self.new ≡ after_offer from to bytes.now self.old }
        ensures memory { result ≡ Err PostFault.Memory → self.new ≡ self.old }
    {
        let number = (self.offers.len() as u64).saturating_add(1);
        let fails = self.failing_offers.contains(&number);
        match keep(self.alloc, &mut self.offers, to, bytes) {
            Ok(()) => {}
            Err(_) => return Err(PostFault::Memory),
        }
        self.lost = raised(self.lost, fails);
        let answer = answer(fails);
        self.journal = self.journal.then(&Note::Offered {
            from,
            to,
            bytes,
            answer,
        });
        answer
    }
}
