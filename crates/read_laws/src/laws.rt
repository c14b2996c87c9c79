//! What signals, constants and processes stand for.

ghost use Rattle.std.specs.Prelude.{
  ◌≡◌,
  ℕ,
  ◌+◌,
  ◌<◌,
  ◌≤◌,
  ◌^◌,
  ℤ,
  List,
  ◌∷◌,
  ◌++◌,
  length,
  Some,
  Ok,
  Bool,
  true,
  false,
};
ghost use Rattle.rtl_bits.specs.declared.bit.Bit.{Bit};
ghost use Rattle.rtl_lex.specs.declared.sort.Sort.TheVariants as sorts;
ghost use Rattle.rtl_lex.specs.Items.{Seen};
ghost use Rattle.rtl_lex.specs.Numbers.{in_range};
ghost use Rattle.rtl_lex.specs.Values.{width_of};
ghost use Rattle.rtl_ir.specs.declared.process.Process.{Process};
ghost use Rattle.rtl_ir.specs.declared.process.SyncRule.{SyncRule};
ghost use Rattle.rtl_read.specs.Meaning.Module.{is_taken};
ghost use Rattle.rtl_ir.specs.declared.module.Link.{Link};
ghost use Rattle.rtl_ir.specs.Tree.{SwitchView};
ghost use Rattle.rtl_ir.specs.declared.wire.Wire.{Wire};
ghost use Rattle.rtl_read.specs.declared.tree.OpenCase.{OpenCase};
ghost use Rattle.rtl_read.specs.declared.tree.OpenSwitch.{OpenSwitch};
ghost use Rattle.rtl_ir.specs.declared.value.Value.{Value};
ghost use Rattle.rtl_ir.specs.declared.value.Value.TheVariants as values;
ghost use Rattle.rtl_sig.specs.declared.sig.SigBit.{SigBit};
ghost use Rattle.rtl_grammar.specs.declared.expect.Expect.{Expect};
ghost use Rattle.rtl_grammar.specs.declared.expect.Expect.TheVariants as expects;
ghost use Rattle.rtl_grammar.specs.Grammar.{Derives};
ghost use Rattle.rtl_grammar.specs.Uses.{Use, roles_of, items_of, run};
ghost use Rattle.rtl_read.specs.declared.draft.Draft.{Draft};
ghost use Rattle.rtl_ir.specs.declared.limits.TheConstants.{MAX_DEPTH};
ghost use Rattle.rtl_read.specs.declared.signal.OpenSignal.{OpenSignal};
ghost use Rattle.rtl_read.specs.Act.{act};
ghost use Rattle.read_laws.specs.SignalBits.{
  Written,
  Plain,
  IsWritten,
  StandsFor,
  depth_of,
  places_of,
  may_stand,
  expected_at,
  taken_at,
};
ghost use Rattle.read_laws.specs.Lines.{between_lines};
ghost use Rattle.read_laws.specs.Rules.{WrittenRule, GivesRule, rule_places, with_rule, after_rule};
ghost use Rattle.read_laws.specs.Trees.{
  BodyLines,
  GivesBody,
  body_places,
  may_hold,
  in_case,
  with_body,
};
ghost use Rattle.read_laws.specs.Processes.{
  WrittenProcess,
  GivesProcess,
  process_places,
  before_process,
  after_process,
};
ghost use Rattle.read_laws.specs.ConstantBits.{
  is_constant,
  HasValue,
  takes_value,
  with_value_at,
  signal_of,
  IsWord,
  IsOnTop,
};

/// Wherever a signal may stand, its items stand in these places and no others, and what they do
/// there gives the bits that the signal stands for by its parts.
pub fn signals_by_parts()
    ensures stands { (signal : Written) (first behind : Expect) (roles : List Expect) (more : List Use) →
        may_stand first behind ≡ true → IsWritten signal → Derives (behind ∷ roles) (roles_of more) →
        Derives (expected_at first behind roles) (roles_of (places_of first behind signal ++ more)) }
    ensures only_so { (signal : Written) (first behind : Expect) (roles : List Expect) (uses more : List Use) →
        may_stand first behind ≡ true → IsWritten signal → items_of uses ≡ items_of (places_of first behind signal) →
        Derives (expected_at first behind roles) (roles_of (uses ++ more)) → uses ≡ places_of first behind signal }
    ensures bits { (signal : Written) (bits : List SigBit) (first behind : Expect) (before d : Draft) →
        may_stand first behind ≡ true → taken_at first before ≡ Some d → IsWritten signal →
        StandsFor d.current.body.wires d.current.wire_names signal bits →
        depth_of signal + length d.signal.braces ≤ MAX_DEPTH →
        (s : OpenSignal) × (run act before (places_of first behind signal) ≡ Ok (record d { signal = s }))
        × (s.part ≡ bits) × (s.braces ≡ d.signal.braces) }
{}

/// A constant has one value as an attribute and as a parameter, and in a signal it stands for the
/// bits of that value: as many as its width says, the 32 bits of an integer in two's complement,
/// or the characters of a string with the first one on top.
pub fn constants_agree()
    ensures as_value { (i : Seen) (v : Value) (place : Expect) (d : Draft) → takes_value place ≡ true → HasValue i v →
        act place i d ≡ Ok (with_value_at place v d) }
    ensures as_signal { (i : Seen) (v : Value) (wires : List Wire) (names : List (List ℕ)) → HasValue i v →
        StandsFor wires names (Plain i) (signal_of v) }
    ensures only_values { (i : Seen) (place : Expect) (d after : Draft) → takes_value place ≡ true →
        is_constant i.sort ≡ true → act place i d ≡ Ok after → (v : Value) × HasValue i v }
    ensures only_signals { (i : Seen) (wires : List Wire) (names : List (List ℕ)) (bits : List SigBit) →
        is_constant i.sort ≡ true → StandsFor wires names (Plain i) bits → (v : Value) × HasValue i v }
    ensures sized { (i : Seen) (bits : List Bit) (signed : Bool) → HasValue i (values.Bits bits signed) →
        length bits ≡ width_of i.text }
    ensures integer { (n : ℤ) → in_range n ≡ true → IsWord n }
    ensures string { (char : ℕ) (text : List ℕ) → char < 2 ^ 8 → IsOnTop char text }
{}

/// The items of a rule stand in these places and no others, and what they do there leaves the rule
/// that is written, by its parts: its event, its updates and its writes, each in the order of their
/// lines. The word `sync` after them puts this rule after those above it.
pub fn rules_by_parts()
    ensures stands { (r : WrittenRule) (rule : SyncRule) (wires : List Wire) (names : List (List ℕ))
        (roles : List Expect) (more : List Use) → GivesRule wires names r rule →
        Derives (expects.SyncBody ∷ roles) (roles_of more) →
        Derives (expects.SyncEvent ∷ expects.SyncBody ∷ roles) (roles_of (rule_places r ++ more)) }
    ensures only_so { (r : WrittenRule) (rule : SyncRule) (wires : List Wire) (names : List (List ℕ))
        (roles : List Expect) (uses more : List Use) → GivesRule wires names r rule →
        items_of uses ≡ items_of (rule_places r) →
        Derives (expects.SyncEvent ∷ expects.SyncBody ∷ roles) (roles_of (uses ++ more)) → uses ≡ rule_places r }
    ensures parts { (r : WrittenRule) (rule : SyncRule) (d : Draft) →
        GivesRule d.current.body.wires d.current.wire_names r rule →
        run act (between_lines d) (rule_places r) ≡ Ok (with_rule rule (between_lines d)) }
    ensures closes { (i : Seen) (rule : SyncRule) (d : Draft) → i.sort ≡ sorts.Sync →
        act expects.SyncBody i (with_rule rule d) ≡ Ok (after_rule rule d) }
{}

/// The items of the lines of a case or a process stand in these places and no others, and what they
/// do there leaves the assigns and the switches that are written, by their parts, each in the order
/// of their lines and each switch with its cases.
pub fn trees_by_parts()
    ensures stands { (lines : BodyLines) (assigns : List Link) (switches : List SwitchView) (wires : List Wire)
        (names : List (List ℕ)) (level : ℕ) (place next : Expect) (roles : List Expect) (more : List Use) →
        may_hold place next ≡ true → GivesBody wires names level lines assigns switches →
        Derives (place ∷ roles) (roles_of more) →
        Derives (place ∷ roles) (roles_of (body_places place next lines ++ more)) }
    ensures only_so { (lines : BodyLines) (assigns : List Link) (switches : List SwitchView) (wires : List Wire)
        (names : List (List ℕ)) (level : ℕ) (place next : Expect) (roles : List Expect) (uses more : List Use) →
        may_hold place next ≡ true → GivesBody wires names level lines assigns switches →
        items_of uses ≡ items_of (body_places place next lines) →
        Derives (place ∷ roles) (roles_of (uses ++ more)) → uses ≡ body_places place next lines }
    ensures parts { (lines : BodyLines) (assigns : List Link) (switches : List SwitchView) (place next : Expect)
        (c : OpenCase) (outer : List OpenSwitch) (d : Draft) → may_hold place next ≡ true →
        GivesBody d.current.body.wires d.current.wire_names (length outer) lines assigns switches →
        run act (in_case c outer d) (body_places place next lines)
        ≡ Ok (in_case (with_body assigns switches c) outer d) }
{}

/// The items of a process, from its name on, stand in these places and no others, and where no other
/// item of the module has the name, they give the module the process that is written, by its parts:
/// its name, its assigns and switches, and its rules.
pub fn processes_by_parts()
    ensures stands { (p : WrittenProcess) (process : Process) (wires : List Wire) (names : List (List ℕ))
        (roles : List Expect) (more : List Use) → GivesProcess wires names p process → Derives roles (roles_of more) →
        Derives (expects.ProcessName ∷ roles) (roles_of (process_places p ++ more)) }
    ensures only_so { (p : WrittenProcess) (process : Process) (wires : List Wire) (names : List (List ℕ))
        (roles : List Expect) (uses more : List Use) → GivesProcess wires names p process →
        items_of uses ≡ items_of (process_places p) →
        Derives (expects.ProcessName ∷ roles) (roles_of (uses ++ more)) → uses ≡ process_places p }
    ensures parts { (p : WrittenProcess) (process : Process) (d : Draft) →
        GivesProcess d.current.body.wires d.current.wire_names p process → is_taken process.name d.current ≡ false →
        run act (before_process process d) (process_places p) ≡ Ok (after_process process d) }
{}
