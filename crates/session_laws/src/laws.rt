//! Laws of sessions. Each is the contract of a function that does nothing.

ghost use Rattle.std.specs.Prelude.{◌≡◌, ◌↔◌, ℕ, List, Option};
ghost use Rattle.script_core.specs.declared.word.Word.{Word};
ghost use Rattle.session_laws.specs.Out.{RepliesAreOut};
ghost use Rattle.session_laws.specs.Own.{IsWithoutDesks, own_lines};
ghost use Rattle.session_laws.specs.Sessions.{IsSessionOf, input_lines, turns_of};
ghost use Rattle.synth_run.specs.Desks as desks;
ghost use Rattle.synth_run.specs.Desks.{IsDesks};
ghost use Rattle.synth_run.specs.declared.words.Mode.{Mode};
ghost use Rattle.synth_run.specs.Replies.{AnswersTaken, IsReply};
ghost use Rattle.synth_run.specs.Said.{Said};
ghost use Rattle.synth_run.specs.Session.{IsSession, Turn, is_long};

/// The session of an input is the one of its lines. Of several desks that share an input, each has the turns of the
/// session of its own lines, up to the one that ends the input.
pub fn desks_are_sessions()
    ensures input { (script : List Word) (input : List ℕ) (turns : List Turn) →
        IsSession script input turns ↔ IsSessionOf script (is_long input) (input_lines input) turns }
    ensures own { (count desk : ℕ) (script : List Word) (input : List ℕ) (turns : List desks.Turn) →
        IsDesks count script input turns →
        IsSessionOf script (is_long input) (own_lines count desk (input_lines input)) (turns_of desk turns) }
{}

/// Where no line speaks of desks, the reply to the input is that of a session.
pub fn one_desk_is_a_session()
    ensures { (count : ℕ) (script : List Word) (input : List ℕ) (said : Said) →
        IsWithoutDesks count (input_lines input) →
        IsReply (Mode.Desks count) script input said ↔ IsReply Mode.Session script input said }
{}

/// Where the source of a session fails, the replies are out to all commands that were read by then, and these are the
/// first of the session, however it goes on. Any read may be the one that fails, so at each read they are out.
pub fn replies_are_out()
    ensures { (script : List Word) (before after had has : Option (List ℕ)) →
        AnswersTaken script before after had has → RepliesAreOut script before after had has }
{}
