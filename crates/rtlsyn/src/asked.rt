//! The words of a call as people write them: files beside the options of the rule of words.

use crate::options::people_command;
use clap::{ArgMatches, Error};
use std::alloc::{AllocError, Global};

/// What was asked for: the files, and the words that the rule of words is to take.
#[derive(Drop)]
pub(crate) struct Asked<'a> {
    pub(crate) input: Option<&'a str>,
    pub(crate) output: Option<&'a str>,
    pub(crate) words: Vec<String>,
}

impl Asked<'_> {
    /// Whether a file was named.
    pub(crate) fn has_files(&self) -> bool {
        self.input.is_some() || self.output.is_some()
    }
}

/// The options whose values are handed on, by their names to clap and as words.
static VALUED: [(&str, &str); 4] = [
    ("script", "--script"),
    ("workers", "--workers"),
    ("gen", "--gen"),
    ("desks", "--desks"),
];

/// Whether words that have a meaning ask for the netlist of one text: they hold no session, and make no design.
pub(crate) fn is_synth(words: &[String]) -> bool {
    for word in words {
        if word.as_str() == "--session" || word.as_bytes().starts_with(b"--gen") {
            return false;
        }
    }
    true
}

/// What the words ask for, as clap reads them; else what clap shows in place of it, as the help.
pub(crate) fn read_asked<'a>(alloc: Global, words: &'a [String]) -> Result<Asked<'a>, Error> {
    let matches = people_command(alloc)?.try_get_matches_from(words)?;
    let words = handed_on(alloc, &matches)?;
    Ok(Asked {
        input: matches.get_str("input"),
        output: matches.get_str("output"),
        words,
    })
}

/// The options without the files, as words.
fn handed_on(alloc: Global, matches: &ArgMatches<'_>) -> Result<Vec<String>, AllocError> {
    let mut words = Vec::new(alloc);
    if matches.get_flag("session") {
        words.push(String::from_str(alloc, "--session")?)?;
    }
    for (id, name) in &VALUED {
        if let Some(value) = matches.get_str(id) {
            words.push(String::from_str(alloc, name)?)?;
            words.push(String::from_str(alloc, value)?)?;
        }
    }
    Ok(words)
}
