//! What the words of a command line ask for.

ghost use Rattle.std.specs.Prelude.{◌≡◌, ◌≢◌, ◌≤◌, [], true, false, None, Some, codes, unwrap_or, IfOk, IsOk};
ghost use Rattle.clap.specs.Facts.{least_values};
ghost use Rattle.clap.specs.Words.{all_of, app_of, fault_of, first_of, found_of, kind_of, new_app, rows_of, rule_of};
ghost use Rattle.clap.specs.Words.{IsParsedFrom, IsPlainArg};
ghost use Rattle.clap.specs.declared.builder.ArgAction.TheVariants.{Set};
ghost use Rattle.clap.specs.declared.builder.value_parser.ValueParser.TheVariants.{Unsigned};
ghost use Rattle.clap.specs.declared.error.kind.ErrorKind.TheVariants.{OutOfMemory};
ghost use Rattle.gr_top.specs.Words.{texts_of, turns_rule, serve_app, publish_app, soak_app, soak_count, HasTurns};
ghost use Rattle.gr_top.specs.Words.{HasCount, taken, serve_by, publish_by, task_by, is_known, IsInRange};

use crate::broker_words::BrokerWords;
use crate::voice::Voice;
use crate::word::Word;
use clap::error::ErrorKind;
use clap::{Arg, ArgAction, ArgMatches, Command, Error};
use std::alloc::{AllocError, Global};

/// What the words of a command line ask for.
#[derive(Drop)]
pub enum Task<'a> {
    /// They are no command's: the usage line is to be printed.
    Usage,
    /// A scenario is to be read and replayed.
    Replay,
    /// A scenario is to be read, and brokers of its topology are to serve.
    Serve {
        /// What they write.
        voice: Voice,
        /// How many arrivals are taken, 1 to 1,000,000.
        turns: u64,
        /// The names of the brokers, as they stand among the words.
        brokers: BrokerWords<'a>,
    },
    /// A scenario is to be read, and the client of a publisher of its topology is to submit.
    Publish {
        /// The name of the publisher, as it stands among the words.
        publisher: Word<'a>,
        /// How many arrivals are taken, 1 to 1,000,000.
        turns: u64,
    },
    /// A scenario and journals are to be read, and the journals audited.
    Audit,
    /// A match text is to be read, and its events matched.
    Match,
    /// A match text is to be read, and its filters compared.
    Cover,
    /// The scenario of a soak is to be made and replayed.
    Soak {
        /// How many turns it has, 1 to 2,000.
        count: u64,
    },
}

/// What the words ask for. The first of them names the command, and the command's definition takes the words or refuses
/// them. Only where a command is named can memory be wanting.
pub fn task_of<'a>(alloc: Global, words: &'a [&'a str]) -> Result<Task<'a>, AllocError>
    ensures task { IfOk result (λ task. task ≡ task_by (texts_of words.now)) }
    ensures range { IfOk result IsInRange }
    ensures at_once { is_known (texts_of words.now) ≡ false → IsOk result }
{
    if words.is_empty() {
        return Ok(Task::Usage);
    }
    let name = words[0];
    if name == "replay" {
        return bare_task(alloc, "replay", words, Task::Replay);
    }
    if name == "serve" {
        return serve_task(alloc, "serve", words, Voice::Report);
    }
    if name == "trace" {
        return serve_task(alloc, "trace", words, Voice::Journal);
    }
    if name == "publish" {
        return publish_task(alloc, words);
    }
    if name == "audit" {
        return bare_task(alloc, "audit", words, Task::Audit);
    }
    if name == "match" {
        return bare_task(alloc, "match", words, Task::Match);
    }
    if name == "cover" {
        return bare_task(alloc, "cover", words, Task::Cover);
    }
    if name == "soak" {
        return soak_task(alloc, words);
    }
    Ok(Task::Usage)
}

/// The task of a command without arguments, where its definition takes the words.
fn bare_task<'a>(
    alloc: Global,
    name: &'a str,
    words: &'a [&'a str],
    task: Task<'a>,
) -> Result<Task<'a>, AllocError>
    ensures { IfOk result (λ t.
        t ≡ taken (fault_of (new_app name.entry.now) (texts_of words.entry.now)) task.entry) }
{
    match Command::new(alloc, name).try_get_matches_from(words) {
        Ok(_) => Ok(task),
        Err(error) => refused(&error),
    }
}

/// The task of `serve TURNS BROKER...` or `trace TURNS BROKER...`, where its definition takes the words.
fn serve_task<'a>(
    alloc: Global,
    name: &'a str,
    words: &'a [&'a str],
    voice: Voice,
) -> Result<Task<'a>, AllocError>
    ensures task { IfOk result (λ t.
        t ≡ taken (fault_of (serve_app name.entry.now) (texts_of words.entry.now))
        (serve_by voice name.entry.now (texts_of words.entry.now))) }
    ensures range { IfOk result IsInRange }
{
    let command = serve_command(alloc, name)?;
    match command.try_get_matches_from(words) {
        Ok(matches) => match matches.get_one::<u64>("turns") {
            Some(turns) => {
                let brokers = brokers_in(alloc, &matches)?;
                Ok(Task::Serve {
                    voice,
                    turns,
                    brokers,
                })
            }
            None => unreachable!(),
        },
        Err(error) => refused(&error),
    }
}

/// The definition of a command with the words `TURNS BROKER...`.
fn serve_command<'a>(alloc: Global, name: &'a str) -> Result<Command<'a>, AllocError>
    ensures app { IfOk result (λ command. app_of command ≡ serve_app name.entry.now) }
    ensures reads { IfOk result (λ command. (matches : _) → IsParsedFrom command matches → HasTurns matches) }
{
    let turns = turns_argument(alloc);
    let brokers = Arg::new(alloc, "brokers").required(true).num_args(1..);
    let command = Command::new(alloc, name).arg(turns)?.arg(brokers)?;
    Ok(command)
}

/// The argument TURNS: one number, from 1 to 1,000,000.
fn turns_argument<'a>(alloc: Global) -> Arg<'a>
    ensures id { result.id.now ≡ codes "turns" }
    ensures rule { rule_of result ≡ turns_rule }
    ensures plain { IsPlainArg result }
    ensures own { result.global ≡ false }
    ensures required { result.required ≡ true }
    ensures set { result.action ≡ Some Set }
    ensures whole { result.val_delim ≡ None }
    ensures some { 1 ≤ least_values result }
    ensures reader { result.value_parser ≡ Some (Unsigned 1 1000000) }
{
    Arg::new(alloc, "turns")
        .required(true)
        .action(ArgAction::Set)
        .value_parser(clap::value_parser!(u64).range(1..=1_000_000))
}

/// The words that name brokers.
fn brokers_in<'a>(alloc: Global, matches: &ArgMatches<'a>) -> Result<BrokerWords<'a>, AllocError>
    ensures { IfOk result (λ b. b ≡ unwrap_or (all_of (codes "brokers") (rows_of (found_of matches.now))) []) }
{
    match matches.get_strs("brokers") {
        Some(words) => BrokerWords::from_slice(alloc, words),
        None => BrokerWords::from_slice(alloc, &[]),
    }
}

/// The task of `publish P TURNS`, where its definition takes the words.
fn publish_task<'a>(alloc: Global, words: &'a [&'a str]) -> Result<Task<'a>, AllocError>
    ensures task { IfOk result (λ t. t ≡ taken (fault_of publish_app (texts_of words.entry.now))
        (publish_by (texts_of words.entry.now))) }
    ensures range { IfOk result IsInRange }
{
    let command = publish_command(alloc)?;
    match command.try_get_matches_from(words) {
        Ok(matches) => match matches.get_one::<u64>("turns") {
            Some(turns) => {
                let publisher = publisher_in(&matches);
                Ok(Task::Publish { publisher, turns })
            }
            None => unreachable!(),
        },
        Err(error) => refused(&error),
    }
}

/// The definition of `publish P TURNS`.
fn publish_command<'a>(alloc: Global) -> Result<Command<'a>, AllocError>
    ensures app { IfOk result (λ command. app_of command ≡ publish_app) }
    ensures reads { IfOk result (λ command. (matches : _) → IsParsedFrom command matches → HasTurns matches) }
{
    let publisher = Arg::new(alloc, "publisher").required(true);
    let turns = turns_argument(alloc);
    let command = Command::new(alloc, "publish").arg(publisher)?.arg(turns)?;
    Ok(command)
}

/// The word that names a publisher.
fn publisher_in<'a>(matches: &ArgMatches<'a>) -> Word<'a>
    ensures { result ≡ unwrap_or (first_of (codes "publisher") (rows_of (found_of matches.now))) [] }
{
    match matches.get_str("publisher") {
        Some(word) => Word::new(word),
        None => Word::new(""),
    }
}

/// The task of `soak N`, where its definition takes the words.
fn soak_task<'a>(alloc: Global, words: &'a [&'a str]) -> Result<Task<'a>, AllocError>
    ensures task { IfOk result (λ t. t ≡ taken (fault_of soak_app (texts_of words.entry.now))
        (Task.Soak (unwrap_or (soak_count (texts_of words.entry.now)) 0))) }
    ensures range { IfOk result IsInRange }
{
    let command = soak_command(alloc)?;
    match command.try_get_matches_from(words) {
        Ok(matches) => match matches.get_one::<u64>("count") {
            Some(count) => Ok(Task::Soak { count }),
            None => unreachable!(),
        },
        Err(error) => refused(&error),
    }
}

/// The definition of `soak N`.
fn soak_command<'a>(alloc: Global) -> Result<Command<'a>, AllocError>
    ensures app { IfOk result (λ command. app_of command ≡ soak_app) }
    ensures reads { IfOk result (λ command. (matches : _) → IsParsedFrom command matches → HasCount matches) }
{
    let count = Arg::new(alloc, "count")
        .required(true)
        .action(ArgAction::Set)
        .value_parser(clap::value_parser!(u64).range(1..=2000));
    let command = Command::new(alloc, "soak").arg(count)?;
    Ok(command)
}

/// What becomes of words that a definition refused: they are no command's. An error for want of memory is none of the
/// words'.
fn refused<'a>(error: &Error) -> Result<Task<'a>, AllocError>
    ensures usage { IfOk result (λ task. task ≡ Task.Usage) }
    ensures kind { IfOk result (λ task. kind_of error.now ≢ OutOfMemory) }
{
    if error.kind() == ErrorKind::OutOfMemory {
        Err(AllocError)
    } else {
        Ok(Task::Usage)
    }
}
