//! The options of a call, and the rule by which words are options.

ghost use Rattle.std.specs.Prelude.{◌≡◌, ◌≤◌, ◌∷◌, None, IfSome, MatchOption, is_some, length, map, string_bytes};
ghost use Rattle.std.specs.Option.{option_map};
ghost use Rattle.synth_run.specs.Options.{form_of, given_from, holds_by, is_value, nothing_given, one_word};
ghost use Rattle.synth_run.specs.Options.{with_session, with_value};
ghost use Rattle.synth_run.specs.Spelled.{form_as, given_as};

/// An option that has a value.
#[derive(Clone, Copy, Debug, PartialEq, Eq)]
pub(crate) enum Name {
    Script,
    Workers,
    Generate,
    Desks,
}

/// What a word of a call is.
#[derive(Clone, Copy)]
pub(crate) enum Form<'a> {
    /// `--session`.
    Session,
    /// An option whose value is the next word.
    Before(Name),
    /// An option and its value.
    Holds(Name, &'a str),
    /// No option.
    Nothing,
}

/// What the word is.
fn form_of(word: &str) -> Form<'_>
    ensures value { form_as result ≡ form_of word.now }
{
    if word == "--session" {
        Form::Session
    } else if word == "--script" {
        Form::Before(Name::Script)
    } else if word == "--workers" {
        Form::Before(Name::Workers)
    } else if word == "--gen" {
        Form::Before(Name::Generate)
    } else if word == "--desks" {
        Form::Before(Name::Desks)
    } else {
        one_word(word)
    }
}

/// What the word is, where it is none of the options alone: an option and its value around the first `=`.
#[tactic(auto, using(std::proofs::lemmas::Str::Pattern::split_once_first))]
fn one_word(word: &str) -> Form<'_>
    ensures value { form_as result ≡ one_word word.now }
{
    match word.split_once('=') {
        Some((name, value)) => holds_by(name, value),
        None => Form::Nothing,
    }
}

/// The option of this name, with its value.
fn holds_by<'a>(name: &str, value: &'a str) -> Form<'a>
    ensures value { form_as result ≡ holds_by name.now value.now }
{
    if name == "--script" {
        Form::Holds(Name::Script, value)
    } else if name == "--workers" {
        Form::Holds(Name::Workers, value)
    } else if name == "--gen" {
        Form::Holds(Name::Generate, value)
    } else if name == "--desks" {
        Form::Holds(Name::Desks, value)
    } else {
        Form::Nothing
    }
}

/// Whether the text may be the value of an option: it is not empty and does not begin with `-`.
fn is_value(text: &str) -> bool
    ensures value { result ≡ is_value text.now }
{
    match text.as_bytes() {
        [] => false,
        [first, ..] => *first != b'-',
    }
}

/// The options of a call.
#[derive(Clone, Copy)]
pub(crate) struct Given<'a> {
    /// Whether it is a session.
    pub(crate) session: bool,
    /// The text of the script.
    pub(crate) script: Option<&'a str>,
    /// The text of the number of workers.
    pub(crate) workers: Option<&'a str>,
    /// The text of the number of modules that are made.
    pub(crate) generate: Option<&'a str>,
    /// The text of the number of desks.
    pub(crate) desks: Option<&'a str>,
}

impl<'a> Given<'a> {
    /// No option.
    fn nothing() -> Given<'a>
        ensures value { given_as result ≡ nothing_given }
    {
        Given {
            session: false,
            script: None,
            workers: None,
            generate: None,
            desks: None,
        }
    }

    /// With `--session`, where that was not given before.
    fn with_session(self) -> Option<Given<'a>>
        ensures value { option_map given_as result ≡ with_session (given_as self.entry) }
    {
        if self.session {
            return None;
        }
        Some(Given {
            session: true,
            ..self
        })
    }

    /// With this value of an option, where that was not given before.
    fn with_value(self, name: Name, value: &'a str) -> Option<Given<'a>>
        ensures value { option_map given_as result ≡ with_value name value.now (given_as self.entry) }
    {
        match name {
            Name::Script if is_value(value) && self.script.is_none() => Some(Given {
                script: Some(value),
                ..self
            }),
            Name::Workers if is_value(value) && self.workers.is_none() => Some(Given {
                workers: Some(value),
                ..self
            }),
            Name::Generate if is_value(value) && self.generate.is_none() => Some(Given {
                generate: Some(value),
                ..self
            }),
            Name::Desks if is_value(value) && self.desks.is_none() => Some(Given {
                desks: Some(value),
                ..self
            }),
            _ => None,
        }
    }

    /// With the option that the words begin with, and the words after it.
    fn with_first(self, word: &'a str, more: &'a [String]) -> Option<(Given<'a>, &'a [String])>
        ensures value { MatchOption result
            (given_from (given_as self.entry) (word.now ∷ map string_bytes more.now) ≡ None)
            (λ (next, rest). given_from (given_as self.entry) (word.now ∷ map string_bytes more.now) ≡
            given_from (given_as next) (map string_bytes rest.now)) }
        ensures less { IfSome result (λ (next, rest). length rest.now ≤ length more.now) }
    {
        match form_of(word) {
            Form::Session => Some((self.with_session()?, more)),
            Form::Holds(name, value) => Some((self.with_value(name, value)?, more)),
            Form::Before(name) => {
                let [value, rest @ ..] = more else {
                    return None;
                };
                Some((self.with_value(name, value.as_str())?, rest))
            }
            Form::Nothing => None,
        }
    }
}

/// The options of the words, with those that were given before them; None where a word is no option, or an option is
/// given twice.
fn given_from<'a>(given: Given<'a>, words: &'a [String]) -> Option<Given<'a>>
    ensures value { option_map given_as result ≡ given_from (given_as given.entry) (map string_bytes words.now) }
{
    let [word, more @ ..] = words else {
        return Some(given);
    };
    let (next, rest) = given.with_first(word.as_str(), more)?;
    given_from(next, rest)
}

/// Whether the words of a call are options, each used as it may be.
pub(crate) fn are_options(words: &[String]) -> bool
    ensures value { result ≡ is_some (given_from nothing_given (map string_bytes words.now)) }
{
    given_from(Given::nothing(), words).is_some()
}
