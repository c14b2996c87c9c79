//! What the words of a call ask for.

ghost use Rattle.std.specs.Prelude.{◌≡◌, ◌≤◌, ℕ, IfOk, IfSome, Err, None, Some, map, string_bytes};
ghost use Rattle.script_core.specs.Words.{IsScript};
ghost use Rattle.synth_run.specs.Options.{given_from, nothing_given};
ghost use Rattle.synth_run.specs.Spelled.{given_as};
ghost use Rattle.std.specs.Option.{option_map};
ghost use Rattle.std.specs.Char.{is_ascii_digit};
ghost use Rattle.std.specs.List.{list_all};
ghost use Rattle.synth_run.specs.Words.{given_script, given_workers, is_number, made_mode, mode_of, number_of, plan_by};
ghost use Rattle.synth_run.specs.Words.{session_mode};
ghost use Rattle.synth_run.specs.Words.{plan_of};

use crate::options::{Given, are_options};
use crate::values::read_values;
use rtl_bits::Memory;
use script_core::{Script, ScriptFault, default_script, parse_script};
use std::alloc::Global;
use thiserror::Error;

/// What a call does.
#[derive(Clone, Copy, Debug, PartialEq, Eq)]
pub enum Mode {
    /// The input is one text; its netlist is written.
    Synth,
    /// The input is a list of commands, each of which is answered.
    Session,
    /// A design of so many modules is made, and a summary of its netlist is written. No input is read.
    Generate(u32),
    /// The input is a list of commands of so many desks, from 1 to 16, which answer them beside each other.
    Desks(u32),
}

/// What the words of a call ask for: what is done, by which script, and with how many workers, from 1 to 64.
#[derive(Drop)]
pub struct Plan {
    pub mode: Mode,
    pub script: Script,
    pub workers: u32,
}

/// Why words give no plan.
#[derive(Clone, Copy, Debug, PartialEq, Eq, Error)]
pub enum WordFault {
    /// They have no meaning.
    #[error("the words of the call have no meaning")]
    Usage,
    #[error("out of memory")]
    Memory,
}

/// Whether these are decimal digits.
fn are_digits(text: &[u8]) -> bool
    ensures value { result ≡ list_all is_ascii_digit text.now }
{
    text.iter().all(|digit| digit.is_ascii_digit())
}

/// Whether these are decimal digits, of which the first is not 0.
fn is_number(digits: &[u8]) -> bool
    ensures value { result ≡ is_number digits.now }
{
    match digits {
        [] => false,
        [first, ..] => *first != b'0' && are_digits(digits),
    }
}

/// The number that the text writes, where it is one from 1 to `most`.
pub(crate) fn number_of(most: u32, text: &str) -> Option<u32>
    ensures value { result ≡ number_of most text.now }
    ensures range { IfSome result (λ number. (1 ≤ number) × (number ≤ most)) }
{
    if !is_number(text.as_bytes()) {
        return None;
    }
    match text.parse::<u32>() {
        Ok(number) if 1 <= number && number <= most => Some(number),
        _ => None,
    }
}

/// The mode that makes a design, by the text of how many modules it has.
fn made_mode(text: &str) -> Option<Mode>
    ensures value { result ≡ made_mode text.now }
    ensures few { IfSome result (λ mode. (n : ℕ) → mode ≡ Mode.Generate n → n ≤ 4096) }
{
    match number_of(4096, text) {
        Some(count) => Some(Mode::Generate(count)),
        None => None,
    }
}

/// What is done in a session: one desk answers, or as many as the text says. These exclude a number of workers.
fn session_mode(desks: Option<&str>, workers: Option<&str>) -> Option<Mode>
    ensures value { result ≡
        session_mode (option_map (λ t. t.now) desks.entry) (option_map (λ t. t.now) workers.entry) }
    ensures desks { IfSome result (λ mode. (n : ℕ) → mode ≡ Mode.Desks n → (1 ≤ n) × (n ≤ 16)) }
{
    match (desks, workers) {
        (None, _) => Some(Mode::Session),
        (Some(text), None) => match number_of(16, text) {
            Some(count) => Some(Mode::Desks(count)),
            None => None,
        },
        (Some(_), Some(_)) => None,
    }
}

/// What is done: a session is held, a design is made, or one text is synthesised. A session excludes a design that is
/// made, and without one no number of desks has a meaning.
fn mode_of(given: Given<'_>) -> Option<Mode>
    ensures value { result ≡ mode_of (given_as given.entry).session (given_as given.entry).generate
        (given_as given.entry).desks (given_as given.entry).workers }
    ensures few { IfSome result (λ mode. (n : ℕ) → mode ≡ Mode.Generate n → n ≤ 4096) }
    ensures desks { IfSome result (λ mode. (n : ℕ) → mode ≡ Mode.Desks n → (1 ≤ n) × (n ≤ 16)) }
{
    match (given.session, given.generate, given.desks) {
        (false, None, None) => Some(Mode::Synth),
        (false, Some(text), None) => made_mode(text),
        (true, None, desks) => session_mode(desks, given.workers),
        _ => None,
    }
}

/// The script of the text, or the default one.
fn given_script(alloc: Global, text: Option<&str>) -> Result<Script, WordFault>
    ensures value { IfOk result (λ script. given_script (option_map (λ t. t.now) text.entry) ≡ Some script) }
    ensures usage { result ≡ Err WordFault.Usage → given_script (option_map (λ t. t.now) text.entry) ≡ None }
{
    let script = match text {
        None => default_script(alloc),
        Some(text) => match parse_script(alloc, text.as_bytes()) {
            Ok(script) => Ok(script),
            Err(ScriptFault::Bad(_)) => return Err(WordFault::Usage),
            Err(ScriptFault::Memory) => Err(Memory),
        },
    };
    match script {
        Ok(script) => Ok(script),
        Err(Memory) => Err(WordFault::Memory),
    }
}

/// How many workers the text asks for, or 4.
fn given_workers(text: Option<&str>) -> Option<u32>
    ensures value { result ≡ given_workers (option_map (λ t. t.now) text.entry) }
    ensures range { IfSome result (λ workers. (1 ≤ workers) × (workers ≤ 64)) }
{
    match text {
        None => Some(4),
        Some(text) => number_of(64, text),
    }
}

/// What the options ask for.
fn plan_by(alloc: Global, given: Given<'_>) -> Result<Plan, WordFault>
    ensures value { IfOk result (λ plan. plan_by (given_as given.entry) ≡ Some plan) }
    ensures usage { result ≡ Err WordFault.Usage → plan_by (given_as given.entry) ≡ None }
    ensures workers { IfOk result (λ plan. (1 ≤ plan.workers) × (plan.workers ≤ 64)) }
    ensures script { IfOk result (λ plan. IsScript plan.script) }
    ensures modules { IfOk result (λ plan. (n : ℕ) → plan.mode ≡ Mode.Generate n → n ≤ 4096) }
    ensures desks { IfOk result (λ plan. (n : ℕ) → plan.mode ≡ Mode.Desks n → (1 ≤ n) × (n ≤ 16)) }
{
    let Some(mode) = mode_of(given) else {
        return Err(WordFault::Usage);
    };
    let script = match given_script(alloc, given.script) {
        Ok(script) => script,
        Err(fault) => return Err(fault),
    };
    let Some(workers) = given_workers(given.workers) else {
        return Err(WordFault::Usage);
    };
    let _words = script.as_slice();
    Ok(Plan {
        mode,
        script,
        workers,
    })
}

/// What the words of a call ask for.
///
/// `--session`, `--gen N`, `--script S`, `--workers N` and `--desks N` stand in any order, each at most once;
/// `--session` excludes `--gen`, and `--desks` needs `--session` and excludes `--workers`. A value is the next word, or
/// follows `=` in the same word; it is not empty and does not begin with `-`. S is a script as `parse_script` takes it.
/// A number has decimal digits without a leading zero, and is from 1 to 64 of workers, from 1 to 4,096 of modules that
/// are made, from 1 to 16 of desks. All other words have no meaning.
pub fn read_words(alloc: Global, words: &[String]) -> Result<Plan, WordFault>
    ensures plan { IfOk result (λ plan. plan_of (map string_bytes words.now) ≡ Some plan) }
    ensures usage { result ≡ Err WordFault.Usage → plan_of (map string_bytes words.now) ≡ None }
    ensures workers { IfOk result (λ plan. (1 ≤ plan.workers) × (plan.workers ≤ 64)) }
    ensures script { IfOk result (λ plan. IsScript plan.script) }
    ensures modules { IfOk result (λ plan. (n : ℕ) → plan.mode ≡ Mode.Generate n → n ≤ 4096) }
    ensures desks { IfOk result (λ plan. (n : ℕ) → plan.mode ≡ Mode.Desks n → (1 ≤ n) × (n ≤ 16)) }
{
    if !are_options(words) {
        return Err(WordFault::Usage);
    }
    match read_values(alloc, words) {
        Ok(given) => plan_by(alloc, given),
        Err(_) => Err(WordFault::Memory),
    }
}
