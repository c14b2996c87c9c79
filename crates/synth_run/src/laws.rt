//! Laws of the definitions.

ghost use Rattle.std.specs.Prelude.{◌≡◌, List, ℕ};
ghost use Rattle.script_core.specs.declared.word.Word.{Word};
ghost use Rattle.script_core.specs.Words.{IsScript};
ghost use Rattle.desk_core.specs.State.{first_state};
ghost use Rattle.synth_run.specs.declared.words.Mode.{Mode};
ghost use Rattle.synth_run.specs.Refined.{PrintNetlists};
ghost use Rattle.synth_run.specs.Replies.{IsReply};
ghost use Rattle.synth_run.specs.Said.{Said};
ghost use Rattle.synth_run.specs.Session.{AreTurns, Turn};

/// Each input has a reply, by what is done with it and the script, and no other.
#[tactic(auto, using(crate::proofs::Replying::some_reply, crate::proofs::Desking::same_reply))]
pub fn one_reply()
    ensures some { (mode : Mode) (script : List Word) (input : List ℕ) → IsScript script →
        (said : Said) × IsReply mode script input said }
    ensures same { (mode : Mode) (script : List Word) (input : List ℕ) (said other : Said) →
        IsReply mode script input said → IsReply mode script input other → said ≡ other }
{}

/// In each session, each netlist that is printed is what the script makes of the design that is present then.
#[tactic(auto, using(crate::proofs::Printing::prints_in_session))]
pub fn sessions_print_netlists()
    ensures { (script : List Word) (turns : List Turn) → IsScript script → AreTurns (first_state script) turns →
        PrintNetlists turns }
{}
