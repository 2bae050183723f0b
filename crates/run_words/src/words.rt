//! The words of the command line: options as `--name value` or `--name=value`, each at most once.
ghost use Rattle.std.specs.Prelude.{◌≡◌, ◌≢◌, ◌↔◌, ◌≤◌, Some, None, true, false, map, length, string_bytes, IfOk, IfSome, IsErrOf};
ghost use Rattle.std.specs.List.{list_all, list_any};
ghost use Rattle.clap.specs.Words.{app_of, first_value, found_of, rule_of};
ghost use Rattle.run_words.specs.Words.{words_of, settings_of, mode_of, number_in, number_of_digits, is_digit};
ghost use Rattle.run_words.specs.Options.{given_by, id_of, is_dashes, judged, option_app, option_rule};

use crate::settings::{
    DEFAULT_BUDGET, DEFAULT_NUMBER, DEFAULT_WORKERS, LAST_FRAME, MOST_BUDGET, MOST_NUMBER,
    MOST_WORKERS, RunMode, Settings,
};
use clap::error::ErrorKind;
use clap::{Arg, ArgAction, ArgMatches, Command};
use std::alloc::{AllocError, Global};
use thiserror::Error;

/// The most digits that a number may have.
const MOST_DIGITS: usize = 13;

/// Why words are no settings.
#[derive(Clone, Copy, Debug, PartialEq, Eq, Error)]
pub enum WordsError {
    /// A word that is no option, a value out of form or out of its bounds, an option twice, or one without its value.
    #[error("words refused")]
    Refused,
    #[error("out of memory")]
    Memory,
}

/// The options that the words know.
#[derive(Clone, Copy, Debug, PartialEq, Eq)]
pub(crate) enum OptionName {
    Mode,
    Workers,
    From,
    To,
    Budget,
    Seed,
}

impl OptionName {
    /// The name, as it stands after `--`.
    fn id<'a>(self) -> &'a str
        ensures { result.now ≡ id_of self }
    {
        match self {
            OptionName::Mode => "mode",
            OptionName::Workers => "workers",
            OptionName::From => "from",
            OptionName::To => "to",
            OptionName::Budget => "budget",
            OptionName::Seed => "seed",
        }
    }
}

/// What the options that were read say.
#[derive(Clone, Copy, Debug)]
pub(crate) struct Given {
    mode: Option<RunMode>,
    workers: Option<u32>,
    from: Option<u32>,
    to: Option<u32>,
    budget: Option<u64>,
    number: Option<u32>,
}

/// How far words have been read, of which the rules in `specs/Words.antt` speak.
#[derive(Clone, Copy, Debug)]
pub(crate) enum Reading {
    Refused,
    Between(Given),
    /// An option stands at the end, and its value is to come.
    Awaits(OptionName, Given),
}

/// The settings that the words ask for: `--mode` render, check, summary or demo, `--workers` from 1 to [`MOST_WORKERS`],
/// `--from` and `--to` up to [`LAST_FRAME`], `--budget`, in bytes, up to [`MOST_BUDGET`], and `--seed` up to [`MOST_NUMBER`]. A
/// number has 1 to 13 decimal digits. [`WordsError::Memory`] comes where clap ran out of memory.
pub fn read_words(alloc: Global, words: &[String]) -> Result<Settings, WordsError>
    ensures settings { IfOk result (λ s. words_of (map string_bytes words.now) ≡ Some s) }
    ensures refused { IsErrOf result WordsError.Refused → words_of (map string_bytes words.now) ≡ None }
{
    if has_dashes(words) {
        return Err(WordsError::Refused);
    }
    let Ok(command) = option_command(alloc) else {
        return Err(WordsError::Memory);
    };
    match command.try_get_matches_from(words) {
        Ok(matches) => match given_by(&matches) {
            Some(given) => Ok(given.settings()),
            None => Err(WordsError::Refused),
        },
        Err(error) => Err(failure_of(error.kind())),
    }
}

/// Whether a word is `--`, which clap takes for the end of the options.
fn has_dashes(words: &[String]) -> bool
    ensures { result ≡ list_any (λ word. is_dashes (string_bytes word)) words.now }
{
    words.iter().any(|word| word.as_str() == "--")
}

/// The command whose arguments are the options, each with one value.
fn option_command<'a>(alloc: Global) -> Result<Command<'a>, AllocError>
    ensures { IfOk result (λ command. app_of command ≡ option_app) }
{
    Command::new(alloc, "run")
        .no_binary_name(true)
        .disable_help_flag(true)
        .disable_version_flag(true)
        .arg(option(alloc, OptionName::Mode))?
        .arg(option(alloc, OptionName::Workers))?
        .arg(option(alloc, OptionName::From))?
        .arg(option(alloc, OptionName::To))?
        .arg(option(alloc, OptionName::Budget))?
        .arg(option(alloc, OptionName::Seed))
}

/// An option that takes one value.
fn option<'a>(alloc: Global, name: OptionName) -> Arg<'a>
    ensures rule { rule_of result ≡ option_rule (id_of name) }
    ensures local { result.global ≡ false }
{
    Arg::new(alloc, name.id())
        .long(name.id())
        .action(ArgAction::Set)
}

/// Why the words were refused, or that memory ran out.
fn failure_of(kind: ErrorKind) -> WordsError
    ensures refused { (result ≡ WordsError.Refused) ↔ (kind ≢ ErrorKind.OutOfMemory) }
    ensures memory { (result ≡ WordsError.Memory) ↔ (kind ≡ ErrorKind.OutOfMemory) }
{
    match kind {
        ErrorKind::OutOfMemory => WordsError::Memory,
        _ => WordsError::Refused,
    }
}

/// What the values of the options say, or `None` where one is out of form or out of its bounds.
fn given_by(matches: &ArgMatches) -> Option<Given>
    ensures { result ≡ given_by (first_value (found_of matches.now)) }
{
    Some(Given {
        mode: mode_by(matches)?,
        workers: small_number_by(matches, OptionName::Workers, 1, MOST_WORKERS)?,
        from: small_number_by(matches, OptionName::From, 0, LAST_FRAME)?,
        to: small_number_by(matches, OptionName::To, 0, LAST_FRAME)?,
        budget: number_by(matches, OptionName::Budget, 0, MOST_BUDGET)?,
        number: small_number_by(matches, OptionName::Seed, 0, MOST_NUMBER)?,
    })
}

/// The mode that is the value of `--mode`.
fn mode_by(matches: &ArgMatches) -> Option<Option<RunMode>>
    ensures { result ≡ judged mode_of (first_value (found_of matches.now) (id_of OptionName.Mode)) }
{
    match matches.get_str(OptionName::Mode.id()) {
        Some(text) => mode_of(text.as_bytes()).map(Some),
        None => Some(None),
    }
}

/// The number that is the option's value, in its bounds.
fn small_number_by(
    matches: &ArgMatches,
    name: OptionName,
    least: u32,
    greatest: u32,
) -> Option<Option<u32>>
    ensures { result ≡ judged (number_in least greatest) (first_value (found_of matches.now) (id_of name)) }
{
    match matches.get_str(name.id()) {
        Some(text) => small_number_in(least, greatest, text.as_bytes()).map(Some),
        None => Some(None),
    }
}

/// The number that is the option's value, in its bounds.
fn number_by(
    matches: &ArgMatches,
    name: OptionName,
    least: u64,
    greatest: u64,
) -> Option<Option<u64>>
    ensures { result ≡ judged (number_in least greatest) (first_value (found_of matches.now) (id_of name)) }
{
    match matches.get_str(name.id()) {
        Some(text) => number_in(least, greatest, text.as_bytes()).map(Some),
        None => Some(None),
    }
}

impl Given {
    fn settings(self) -> Settings
        ensures { result ≡ settings_of self }
    {
        Settings {
            mode: self.mode.unwrap_or(RunMode::Render),
            workers: self.workers.unwrap_or(DEFAULT_WORKERS),
            from: self.from.unwrap_or(0),
            to: self.to,
            budget: self.budget.unwrap_or(DEFAULT_BUDGET),
            number: self.number.unwrap_or(DEFAULT_NUMBER),
        }
    }
}

/// The mode that a text names.
fn mode_of(text: &[u8]) -> Option<RunMode>
    ensures { result ≡ mode_of text.now }
{
    if text == b"render".as_slice() {
        Some(RunMode::Render)
    } else if text == b"check".as_slice() {
        Some(RunMode::Check)
    } else if text == b"summary".as_slice() {
        Some(RunMode::Summary)
    } else if text == b"demo".as_slice() {
        Some(RunMode::Demo)
    } else {
        None
    }
}

/// A number of 1 to 13 decimal digits, from `least` to `greatest`.
fn small_number_in(least: u32, greatest: u32, text: &[u8]) -> Option<u32>
    ensures { result ≡ number_in least greatest text.now }
{
    match number_in(u64::from(least), u64::from(greatest), text) {
        Some(number) => Some(number as u32),
        None => None,
    }
}

/// A number of 1 to 13 decimal digits, from `least` to `greatest`.
fn number_in(least: u64, greatest: u64, text: &[u8]) -> Option<u64>
    ensures value { result ≡ number_in least greatest text.now }
    ensures bound { IfSome result (λ number. number ≤ greatest) }
{
    if text.is_empty() || text.len() > MOST_DIGITS {
        return None;
    }
    if !are_digits(text) {
        return None;
    }
    let number = number_of_digits(text);
    if least <= number && number <= greatest {
        Some(number)
    } else {
        None
    }
}

fn is_digit(byte: u8) -> bool
    ensures { result ≡ is_digit byte }
{
    48 <= byte && byte <= 57
}

fn are_digits(text: &[u8]) -> bool
    ensures { result ≡ list_all is_digit text.now }
{
    text.iter().all(|byte| is_digit(*byte))
}

/// The number that decimal digits write.
fn number_of_digits(digits: &[u8]) -> u64
    requires few { length digits.now ≤ 13 }
    requires digits { list_all is_digit digits.now ≡ true }
    ensures { result ≡ number_of_digits digits.now }
{
    let mut number = 0;
    'digits: for digit in digits {
        number = 10 * number + u64::from(*digit - 48);
    }
    number
}
