//! A module whose machines get the code with one bit for each state keeps its name, ports and instances, no bit gets a
//! second driver, and it may be given to the next pass. Each law is the contract of a function that does nothing.

ghost use Rattle.std.specs.Prelude.{◌≡◌, ◌+◌, ℕ, Some, length};
ghost use Rattle.rtl_ir.specs.Build.{building_of, first_number, fresh_wire};
ghost use Rattle.rtl_ir.specs.Flat.Cell as flat;
ghost use Rattle.rtl_ir.specs.Flat.Cell.{instances};
ghost use Rattle.rtl_ir.specs.Ports.{ports_of};
ghost use Rattle.rtl_ir.specs.Types.{Ports};
ghost use Rattle.fsm_laws.specs.Short.{AreShort, IsShort};
ghost use Rattle.pass_laws.specs.OwnNames.{HaveOwnNames};
ghost use Rattle.net_model.specs.Fsm.Code.{code_init, fresh_outputs, fsm_of, recoded_of};
ghost use Rattle.net_model.specs.Fsm.Find.{machine_of};
ghost use Rattle.net_model.specs.Refine.{IsWellDriven};
ghost use Rattle.pass_laws.specs.Ready.{IsReady};

use rtl_ir::{Machine, Module};

/// Where a module may be given to a pass, and the fresh names of a machine of it are numbers of up to nine digits, the
/// module in which the machine has its code has the same name, ports, instances, memories and processes, no bit gets a
/// second driver, in whatever design it stands, and it may be given to the next pass, and to this one again. Its
/// memories have names of their own as before.
pub fn recoded_fits()
    ensures same_id { (ports : Ports) (m : Module) (at : ℕ) (machine : Machine) →
        IsReady ports m → machine_of ports m at ≡ Some machine → IsShort m machine →
        m.id ≡ (recoded_of m machine).id }
    ensures same_ports { (ports : Ports) (m : Module) (at : ℕ) (machine : Machine) →
        IsReady ports m → machine_of ports m at ≡ Some machine → IsShort m machine →
        ports_of m.wires ≡ ports_of (recoded_of m machine).wires }
    ensures same_instances { (ports : Ports) (m : Module) (at : ℕ) (machine : Machine) →
        IsReady ports m → machine_of ports m at ≡ Some machine → IsShort m machine →
        instances m.cells ≡ instances (recoded_of m machine).cells }
    ensures same_memories { (ports : Ports) (m : Module) (at : ℕ) (machine : Machine) →
        IsReady ports m → machine_of ports m at ≡ Some machine → IsShort m machine →
        m.memories ≡ (recoded_of m machine).memories }
    ensures same_processes { (ports : Ports) (m : Module) (at : ℕ) (machine : Machine) →
        IsReady ports m → machine_of ports m at ≡ Some machine → IsShort m machine →
        m.processes ≡ (recoded_of m machine).processes }
    ensures driven { (ports : Ports) (over : flat.Ports) (m : Module) (at : ℕ) (machine : Machine) →
        IsReady ports m → machine_of ports m at ≡ Some machine → IsShort m machine →
        IsWellDriven over m → IsWellDriven over (recoded_of m machine) }
    ensures ready { (ports : Ports) (m : Module) (at : ℕ) (machine : Machine) →
        IsReady ports m → machine_of ports m at ≡ Some machine → IsShort m machine →
        IsReady ports (recoded_of m machine) }
    ensures named { (ports : Ports) (m : Module) (at : ℕ) (machine : Machine) →
        IsReady ports m → machine_of ports m at ≡ Some machine → IsShort m machine →
        HaveOwnNames m → HaveOwnNames (recoded_of m machine) }
{}

/// A module stays in form where the machines of all its wires are recoded, one after another.
pub fn machines_fit()
    ensures same_id { (ports : Ports) (m : Module) →
        IsReady ports m → AreShort ports 0 (length m.wires) m →
        m.id ≡ (fsm_of ports m).id }
    ensures same_ports { (ports : Ports) (m : Module) →
        IsReady ports m → AreShort ports 0 (length m.wires) m →
        ports_of m.wires ≡ ports_of (fsm_of ports m).wires }
    ensures same_instances { (ports : Ports) (m : Module) →
        IsReady ports m → AreShort ports 0 (length m.wires) m →
        instances m.cells ≡ instances (fsm_of ports m).cells }
    ensures same_memories { (ports : Ports) (m : Module) →
        IsReady ports m → AreShort ports 0 (length m.wires) m →
        m.memories ≡ (fsm_of ports m).memories }
    ensures same_processes { (ports : Ports) (m : Module) →
        IsReady ports m → AreShort ports 0 (length m.wires) m →
        m.processes ≡ (fsm_of ports m).processes }
    ensures driven { (ports : Ports) (over : flat.Ports) (m : Module) →
        IsReady ports m → AreShort ports 0 (length m.wires) m →
        IsWellDriven over m → IsWellDriven over (fsm_of ports m) }
    ensures ready { (ports : Ports) (m : Module) →
        IsReady ports m → AreShort ports 0 (length m.wires) m →
        IsReady ports (fsm_of ports m) }
    ensures named { (ports : Ports) (m : Module) →
        IsReady ports m → AreShort ports 0 (length m.wires) m →
        HaveOwnNames m → HaveOwnNames (fsm_of ports m) }
{}

/// A machine takes one fresh name for its code, and one for each cell of its tree.
pub fn numbers_taken()
    ensures next { (m : Module) (machine : Machine) →
        (fresh_outputs (length machine.states) m.cells machine.muxes
        (fresh_wire (length machine.states) (code_init machine.states machine.start) (building_of m)).1).1.next
        ≡ first_number m + 1 + length machine.muxes }
{}
