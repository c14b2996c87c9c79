//! Laws of the steps of a desk.

ghost use Rattle.std.specs.Prelude.{◌≡◌, ◌++◌, ℕ, List, [], ◌∷◌, false};
ghost use Rattle.desk_read.specs.declared.command.Command.{Command};
ghost use Rattle.rtl_ir.specs.Faults.{check_faults};
ghost use Rattle.rtl_readable.specs.Readable.{IsReadable};
ghost use Rattle.net_model.specs.Refine.{Refines};
ghost use Rattle.script_core.specs.Words.{IsScript};
ghost use Rattle.reply_lines.specs.declared.reply.Reply.{Reply};
ghost use Rattle.script_core.specs.declared.built.Built.{Built};
ghost use Rattle.desk_core.specs.Ages.{texts_of};
ghost use Rattle.net_model.specs.declared.order.Order.{Order};
ghost use Rattle.desk_core.specs.Answers.{netlist_run_answer, print_answer};
ghost use Rattle.desk_core.specs.Crew.{Crew, Event};
ghost use Rattle.desk_core.specs.CrewBuilds.{AgreesWithDesk, BuildHolds, IsBuild};
ghost use Rattle.desk_core.specs.CrewRuns.{AllDone, KnowsFilled};
ghost use Rattle.desk_core.specs.Netlist.{netlist_of};
ghost use Rattle.desk_core.specs.State.{State};
ghost use Rattle.desk_core.specs.Step.{AreReplies, IsStep};
ghost use Rattle.desk_core.specs.Traces.{HasTraces};

use crate::desk::Desk;

/// The replies to commands are those of their steps, one after another: one command more gives one reply more, by a
/// step from the state that the others led to.
pub fn replies_go_on()
    ensures none { (s : State) → AreReplies [] s [] s }
    ensures one_more { (commands : List Command) (command : Command) (replies : List Reply) (reply : Reply)
        (first before after : State) →
        AreReplies commands first replies before → IsStep command before reply after →
        AreReplies (commands ++ command ∷ []) first (replies ++ reply ∷ []) after }
{}

/// The present design of a desk is one that a text can give, and it has no fault; its script is one.
pub fn desks_are_sound(desk: &Desk)
    ensures readable { IsReadable desk.now.state.design }
    ensures faultless { check_faults desk.now.state.design.modules ≡ [] }
    ensures script { IsScript desk.now.state.script }
{
    let _script = desk.present.script.as_slice();
    let _design = desk.present.design.design();
}

/// A netlist that is printed refines the present design: no known output bit of any module is lost, whatever the
/// stimulus.
pub fn printed_netlists_refine()
    ensures { (s : State) → IsReadable s.design → check_faults s.design.modules ≡ [] → IsScript s.script →
        (print_answer s).reply.error ≡ false → Refines s.design (netlist_of s) }
{}

/// Workers that build the modules of a design over one cache, for every list of events of theirs, in whatever order:
/// each job is in just one place, each key is held by at most one worker, each output is the value of its job's key,
/// and as many keys were built as were filled. Where all jobs are done, the outputs, the number of builds, the keys
/// that are kept until some are given up, and what is told are those of a desk on one thread.
pub fn crew_runs()
    ensures holds { (s : State) (workers : ℕ) (first last : Crew Built) (events : List (Event Built)) →
        IsBuild s workers first events last → BuildHolds s first events last }
    ensures agrees { (s : State) (workers : ℕ) (first last : Crew Built) (events : List (Event Built)) →
        IsReadable s.design → IsBuild s workers first events last → KnowsFilled (texts_of s.kept) first → AllDone last →
        AgreesWithDesk s last }
{}

/// Where `sim netlist` is answered with a trace, so is `sim source` of the same module over the same stimulus in the same
/// order of time, and the trace of the source is below that of the netlist: of each step and output bit it says no more.
pub fn source_traces_are_below()
    ensures { (s : State) → IsReadable s.design → check_faults s.design.modules ≡ [] → IsScript s.script →
        (order : Order) (name text : List ℕ) →
        (netlist_run_answer s order name text).reply.error ≡ false → HasTraces s order name text }
{}
