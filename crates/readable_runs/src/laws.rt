//! Laws of scripts and of cold runs over modules that a text can give. Each is the contract of a function that does
//! nothing.

ghost use Rattle.std.specs.Prelude.{◌≡◌, ℕ, List, [], Some, slice_get, true};
ghost use Rattle.rtl_ir.specs.Faults.{check_faults, faults_within};
ghost use Rattle.rtl_ir.specs.Faults.Recursion.{recursion_faults};
ghost use Rattle.rtl_ir.specs.Scope.{without_processes};
ghost use Rattle.net_model.specs.Refine.{HasOneDriver};
ghost use Rattle.net_model.specs.Within.{Each};
ghost use Rattle.rtl_read.specs.Reads.{Reads};
ghost use Rattle.rtl_write.specs.Text.{text_of};
ghost use Rattle.rtl_readable.specs.Readable.{IsReadable, IsReadableModule};
ghost use Rattle.script_core.specs.declared.outcome.Outcome.TheVariants.{Done};
ghost use Rattle.script_core.specs.declared.word.Word.{Word};
ghost use Rattle.script_core.specs.Built.{IsValueOf};
ghost use Rattle.script_core.specs.Cold.{IsNetlist, cold};
ghost use Rattle.script_core.specs.Fold.{AreFlatApplicable, MayBeGiven, MayStart, StartsWithProc, fold_flat};
ghost use Rattle.script_core.specs.Fold.{fold_words, pass_of};
ghost use Rattle.script_core.specs.Keys.{key_of};
ghost use Rattle.script_core.specs.Mapping.{maps_all};
ghost use Rattle.script_core.specs.Words.{flattens};
ghost use Rattle.readable_runs.specs.Short.{HasShortMemories, NamesShortMemories};

use rtl_ir::{Design, Module, PortTable};

/// Where no line of a process writes a memory of a longer name than a constant holds, what the pass of a word makes of
/// a module that a text can give is such a module; and so is what words make of it of which the first is `proc`. So is
/// what `proc`, `flatten` and words behind them make of it over such modules.
pub fn scripts_keep_readable_modules()
    ensures word { (table : PortTable) (word : Word) (m n : Module) → MayBeGiven table word m → NamesShortMemories m →
        IsReadableModule m → pass_of table word m ≡ Some n → IsReadableModule n }
    ensures script { (script : List Word) (table : PortTable) (m n : Module) → StartsWithProc script →
        MayStart table m → NamesShortMemories m → IsReadableModule m → fold_words script table m ≡ Done n →
        IsReadableModule n }
    ensures flat { (words : List Word) (table : PortTable) (below : List Module) (m n : Module) →
        AreFlatApplicable words table below m → NamesShortMemories m → Each NamesShortMemories below →
        IsReadableModule m → Each IsReadableModule below → fold_flat words table below m ≡ Done n → IsReadableModule n }
{}

/// Where the cold run of an accepted design is a netlist, this is a design that a text can give, if no line of a
/// process writes a memory of a longer name than a constant holds; and its text is read as it, and as no other.
pub fn cold_runs_are_readable()
    ensures readable { (d netlist : Design) (script : List Word) → IsReadable d → HasShortMemories d →
        check_faults d.modules ≡ [] → StartsWithProc script → IsNetlist (cold script d) netlist →
        IsReadable netlist }
    ensures round_trip { (d netlist : Design) (script : List Word) → IsReadable d → HasShortMemories d →
        check_faults d.modules ≡ [] → StartsWithProc script → IsNetlist (cold script d) netlist →
        Reads (text_of netlist) netlist }
    ensures only { (d netlist other : Design) (script : List Word) → IsReadable d → HasShortMemories d →
        check_faults d.modules ≡ [] → StartsWithProc script → IsNetlist (cold script d) netlist →
        Reads (text_of netlist) other → other ≡ netlist }
{}

/// What is kept for the key of a module of an accepted design is a module that a text can give, where it is a module,
/// if no line of a process writes a memory of a longer name than a constant holds. Where the script flattens, that is
/// asked of all modules of the design.
pub fn built_modules_are_readable()
    ensures { (d : Design) (at : ℕ) (before after : Module) (script : List Word) → IsReadable d →
        NamesShortMemories before → (flattens script ≡ true → HasShortMemories d) → check_faults d.modules ≡ [] →
        slice_get d.modules at ≡ Some before → StartsWithProc script →
        IsValueOf (key_of d.modules at script) (Done after) → IsReadableModule after }
{}

/// Where the cold run of an accepted design is a netlist, no bit of it has two drivers, no module stands in itself, and
/// the check finds no fault in it: none at all where the script maps all to gates, and else none as far as the clocks
/// of the write ports of a memory are not compared, since a pass may join two of them or take them apart.
pub fn cold_runs_are_well_formed()
    ensures one_driver { (d netlist : Design) (script : List Word) → IsReadable d → check_faults d.modules ≡ [] →
        StartsWithProc script → IsNetlist (cold script d) netlist → HasOneDriver netlist }
    ensures no_recursion { (d netlist : Design) (script : List Word) → IsReadable d → check_faults d.modules ≡ [] →
        StartsWithProc script → IsNetlist (cold script d) netlist → recursion_faults netlist.modules ≡ [] }
    ensures faultless { (d netlist : Design) (script : List Word) → IsReadable d → check_faults d.modules ≡ [] →
        StartsWithProc script → IsNetlist (cold script d) netlist →
        faults_within without_processes netlist.modules ≡ [] }
    ensures accepted { (d netlist : Design) (script : List Word) → IsReadable d → check_faults d.modules ≡ [] →
        StartsWithProc script → maps_all script ≡ true → IsNetlist (cold script d) netlist →
        check_faults netlist.modules ≡ [] }
{}
