//! Whether modules have the same ports.

ghost use Rattle.std.specs.Prelude.{◌≡◌, ◌≢◌, ◌≤◌, ◌∷◌, List, [], true, false, drop, length, IfSome, IfNone};
ghost use Rattle.rtl_ir.specs.declared.ports.PortLine.{PortLine};
ghost use Rattle.rtl_ir.specs.Ports.{line_of};
ghost use Rattle.rtl_ir.specs.Types.{port_lines};

use rtl_ir::{Wire, is_port};

/// Whether these wires have the same ports as others, in the same order.
pub(crate) fn same_ports(wires: &[Wire], others: &[Wire]) -> bool
    ensures equal { result ≡ true → port_lines wires.now ≡ port_lines others.now }
    ensures complete { port_lines wires.now ≡ port_lines others.now → result ≡ true }
{
    let mut from = 0;
    for wire in wires {
        if is_port(wire.role) {
            match past_line(others, from, wire) {
                Some(next) => from = next,
                None => return false,
            }
        }
    }
    has_no_port(others, from)
}

/// The place behind the first port from a place on, if it shows the same as this wire.
fn past_line(wires: &[Wire], from: usize, line: &Wire) -> Option<usize>
    requires in_range { from ≤ length wires.now }
    ensures within { IfSome result (λ next. next ≤ length wires.now) }
    ensures found { IfSome result (λ next. port_lines (drop from wires.now) ≡
        line_of line.now ∷ port_lines (drop next wires.now)) }
    ensures other { IfNone result ((rest : List PortLine) →
        port_lines (drop from wires.now) ≢ line_of line.now ∷ rest) }
{
    for at in from..wires.len() {
        let wire = &wires[at];
        if is_port(wire.role) {
            if same_line(wire, line) {
                return Some(at + 1);
            }
            return None;
        }
    }
    None
}

/// Whether no wire from a place on is a port.
fn has_no_port(wires: &[Wire], from: usize) -> bool
    requires in_range { from ≤ length wires.now }
    ensures none { result ≡ true → port_lines (drop from wires.now) ≡ [] }
    ensures some { port_lines (drop from wires.now) ≡ [] → result ≡ true }
{
    for at in from..wires.len() {
        if is_port(wires[at].role) {
            return false;
        }
    }
    true
}

/// Whether two wires show the same to other modules.
fn same_line(wire: &Wire, other: &Wire) -> bool
    ensures equal { result ≡ true → line_of wire.now ≡ line_of other.now }
    ensures complete { line_of wire.now ≡ line_of other.now → result ≡ true }
{
    wire.name.as_slice() == other.name.as_slice()
        && wire.role == other.role
        && wire.width == other.width
        && wire.number == other.number
}
