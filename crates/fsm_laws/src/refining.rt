//! A module whose machine gets its code refines the module. Each law is the contract of a function that does
//! nothing.

ghost use Rattle.std.specs.Prelude.{◌≡◌, ◌++◌, [], List, Some, length, ℕ};
ghost use Rattle.rtl_bits.specs.declared.bit.Bit.{Bit};
ghost use Rattle.rtl_sig.specs.declared.sig.SigBit.{SigBit};
ghost use Rattle.rtl_ir.specs.Flat.Cell as flat;
ghost use Rattle.rtl_ir.specs.Types.{table_ports};
ghost use Rattle.net_model.specs.Fsm.Code.{Output, fsm_of, recoded, recoded_of};
ghost use Rattle.net_model.specs.Refine.{RefinesIn, RefinesOver};
ghost use Rattle.net_model.specs.Within.{IsWithin};
ghost use Rattle.net_model.specs.Fsm.Find.{machine_of};
ghost use Rattle.fsm_laws.specs.Recoded.{recoded_with};
ghost use Rattle.fsm_laws.specs.Recodes.{Recodes};
ghost use Rattle.fsm_laws.specs.Short.{AreShort};
ghost use Rattle.pass_laws.specs.Ready.{IsReady};

use rtl_ir::{Cell, Link, Machine, Module, PortTable, Wire};

/// Where a module without processes has what is asked of it, part by part, the module with fresh wires, cells in the
/// place of its own and further connections loses no known output bit.
pub fn recodes_refine()
    ensures refines { (n : Module) (fresh : List Wire) (cells : List Cell) (more : List Link) (width : ℕ)
        (states : List (List Bit)) (outputs : List Output) (code : ℕ) (over : flat.Ports) →
        n.processes ≡ [] → IsWithin n → Recodes n fresh cells more width states outputs code over →
        RefinesOver n (record n { wires = n.wires ++ fresh; cells = cells; links = n.links ++ more }) over }
{}

/// A recoded module is the one with fresh wires behind its own, with what stands for each cell in the cell's place,
/// and with the connections that come for its cells behind its own.
pub fn recoded_by_parts()
    ensures parts { (m : Module) (machine : Machine) (state : List SigBit) →
        recoded m machine state ≡ recoded_with m machine state }
{}

/// Where a module may be given to a pass, the module in which a machine of it has its code loses no known output bit.
pub fn recoded_refines()
    ensures refines { (table : PortTable) (m : Module) (at : ℕ) (machine : Machine) →
        IsReady (table_ports table.modules) m →
        machine_of (table_ports table.modules) m at ≡ Some machine → RefinesIn m (recoded_of m machine) table }
{}

/// Where besides the fresh names are numbers of up to nine digits, a module all of whose machines get their codes, one
/// after another, loses no known output bit.
pub fn machines_refine()
    ensures refines { (table : PortTable) (m : Module) →
        IsReady (table_ports table.modules) m →
        AreShort (table_ports table.modules) 0 (length m.wires) m →
        RefinesIn m (fsm_of (table_ports table.modules) m) table }
{}
