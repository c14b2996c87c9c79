//! Why words have no meaning to the rule of words that clap takes.

use crate::near::near_word;
use crate::say::say;
use rtl_bits::{Memory, Text};
use script_core::{ScriptFault, parse_script};
use std::alloc::Global;
use synth_run::{Status, WordFault, read_words};

/// The options with a number, and what it may be.
static NUMBERS: [(&str, &str); 2] = [("--workers", "1 to 64"), ("--gen", "1 to 4096")];

/// Tells why the words have no meaning.
pub(crate) fn say_refusal(rt: &HostRuntime, words: &[String]) -> Status {
    match refusal(rt.alloc(), words) {
        Ok(line) => {
            say(rt, line.as_slice());
            Status::Usage
        }
        Err(Memory) => Status::Memory,
    }
}

/// What is told of the words: the fault, and where the help is.
fn refusal(alloc: Global, words: &[String]) -> Result<Text, Memory> {
    let mut line = Text::from_slice(alloc, b"error: ")?;
    line.extend(fault(alloc, words)?.as_slice())?;
    line.extend(b"\n\nFor more information, try '--help'.\n")?;
    Ok(line)
}

/// The first fault of the words.
fn fault(alloc: Global, words: &[String]) -> Result<Text, Memory> {
    if let Some(fault) = pair_fault(words) {
        return Text::from_slice(alloc, fault);
    }
    for (name, range) in &NUMBERS {
        if let Some(value) = value_of(words, name) {
            if is_refused(alloc, &[name, value])? {
                return number_fault(alloc, name, value, range);
            }
        }
    }
    if let Some(value) = value_of(words, "--desks") {
        if is_refused(alloc, &["--session", "--desks", value])? {
            return number_fault(alloc, "--desks", value, "1 to 16");
        }
    }
    match value_of(words, "--script") {
        Some(script) => script_fault(alloc, script),
        None => Text::from_slice(alloc, b"the words have no meaning together"),
    }
}

/// Which options may not stand together.
fn pair_fault(words: &[String]) -> Option<&'static [u8]> {
    let session = has_word(words, "--session");
    let desks = value_of(words, "--desks").is_some();
    if session && value_of(words, "--gen").is_some() {
        return Some(b"'--session' and '--gen' exclude each other");
    }
    if desks && !session {
        return Some(b"'--desks' needs '--session'");
    }
    if desks && value_of(words, "--workers").is_some() {
        return Some(b"'--desks' and '--workers' exclude each other: each desk works in one thread");
    }
    None
}

/// Whether one of the words is this.
fn has_word(words: &[String], name: &str) -> bool {
    words.iter().any(|word| word.as_str() == name)
}

/// The word after this one.
fn value_of<'a>(words: &'a [String], name: &str) -> Option<&'a str> {
    let mut is_next = false;
    for word in words {
        if is_next {
            return Some(word.as_str());
        }
        is_next = word.as_str() == name;
    }
    None
}

/// Whether the rule of words refuses these.
fn is_refused(alloc: Global, texts: &[&str]) -> Result<bool, Memory> {
    let mut words = Vec::new(alloc);
    for text in texts {
        words.push(String::from_str(alloc, text)?)?;
    }
    match read_words(alloc, words.as_slice()) {
        Ok(_) => Ok(false),
        Err(WordFault::Usage) => Ok(true),
        Err(WordFault::Memory) => Err(Memory),
    }
}

/// What is told of a number that is none of the range.
fn number_fault(alloc: Global, name: &str, value: &str, range: &str) -> Result<Text, Memory> {
    let mut line = Text::from_slice(alloc, b"the value '")?;
    line.extend(value.as_bytes())?;
    line.extend(b"' of '")?;
    line.extend(name.as_bytes())?;
    line.extend(b"' is no number from ")?;
    line.extend(range.as_bytes())?;
    line.extend(b" in decimal digits without a leading zero")?;
    Ok(line)
}

/// What is told of a text that is no script.
fn script_fault(alloc: Global, script: &str) -> Result<Text, Memory> {
    match parse_script(alloc, script.as_bytes()) {
        Err(ScriptFault::Bad(number)) => word_fault(alloc, script.as_bytes(), number),
        Err(ScriptFault::Memory) => Err(Memory),
        Ok(_) => Text::from_slice(alloc, b"the value of '--script' begins with '-'"),
    }
}

/// The word with this number, from 1, of a script; empty where there is none.
fn script_word(script: &[u8], number: u32) -> &[u8] {
    let mut left = number;
    for word in script.split(|byte| matches!(*byte, b' ' | b'\t' | b';')) {
        if !word.is_empty() {
            left = left.saturating_sub(1);
            if left == 0 {
                return word;
            }
        }
    }
    &[]
}

/// What is told of a bad word of a script.
fn word_fault(alloc: Global, script: &[u8], number: u32) -> Result<Text, Memory> {
    let word = script_word(script, number);
    if word.is_empty() {
        return Text::from_slice(alloc, b"the script has no word");
    }
    let mut line = Text::from_slice(alloc, b"script word ")?;
    line.extend(number.to_string(alloc)?.as_bytes())?;
    line.extend(b", '")?;
    line.extend(word)?;
    line.extend(b"', ")?;
    line.extend(word_trouble(alloc, word, number)?.as_slice())?;
    Ok(line)
}

/// What is wrong with the word: it is unknown, or may not stand there.
fn word_trouble(alloc: Global, word: &[u8], number: u32) -> Result<Text, Memory> {
    let near = near_word(alloc, word)?;
    if near == Some(word) || word == b"clean".as_slice() {
        return Text::from_slice(alloc, place_rule(number));
    }
    let mut line = Text::from_slice(alloc, b"is unknown")?;
    if let Some(near) = near {
        line.extend(b"; near: ")?;
        line.extend(near)?;
    }
    Ok(line)
}

/// Why a known word may not stand at this number.
fn place_rule(number: u32) -> &'static [u8] {
    if number == 1 {
        b"may not be the first: a script begins with 'proc'"
    } else if number == 65 {
        b"is past the 64 that a script may have"
    } else {
        b"may only be the second"
    }
}
