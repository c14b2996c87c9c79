//! What the assigns of a tree give each bit, by a table of the bits.

ghost use Rattle.std.specs.Prelude.{◌≡◌, ◌+◌, ◌++◌, ◌∷◌, [], IfOk, OnOk, if◌then◌else◌};
ghost use Rattle.rtl_sig.specs.declared.sig.WireBit.{WireBit};
ghost use Rattle.rtl_ir.specs.Follow.{all_joins, joins};
ghost use Rattle.rtl_ir.specs.Signals.{same_bit};
ghost use Rattle.match_cells.specs.Numbers.{behind_case, behind_switch};
ghost use Rattle.proc_latch.specs.Givens.{case_given, given_in, own_given, switch_given};

use crate::given::Given;
use rtl_bits::Memory;
use rtl_ir::{Case, Link, Switch};
use rtl_sig::{SigBit, WireBit};
use std::alloc::Global;
use std::collections::HashMap;

/// What the assigns of a tree give each bit, in the order of the nodes.
#[derive(Drop)]
pub(crate) struct Sources {
    alloc: Global,
    pub(crate) given: HashMap<WireBit, Vec<Given>>,
}

impl Sources {
    /// What the assigns of the tree give. The root is node 0.
    pub(crate) fn of(alloc: Global, root: &Case) -> Result<Sources, Memory>
        ensures value { IfOk result (λ sources. (b : WireBit) → given_in sources b ≡ case_given b 0 root.now) }
    {
        let mut sources = Sources {
            alloc,
            given: HashMap::new(alloc),
        };
        sources.put_case(0, root)?;
        Ok(sources)
    }

    /// What is given to a bit.
    pub(crate) fn of_bit(&self, bit: WireBit) -> &[Given]
        ensures value { result.now ≡ given_in self.now bit }
    {
        match self.given.get(&bit) {
            Some(given) => given.as_slice(),
            None => &[],
        }
    }

    /// Puts last what is given to a bit.
    fn put(&mut self, bit: WireBit, given: Given) -> Result<(), Memory>
        ensures ok { OnOk result ((b : WireBit) →
            given_in self.new b ≡ given_in self.old b ++ (if same_bit bit b then given ∷ [] else [])) }
    {
        let mut list = match self.given.remove(&bit) {
            Some(list) => list,
            None => Vec::new(self.alloc),
        };
        list.push(given)?;
        self.given.insert(bit, list)?;
        Ok(())
    }

    /// Puts last what a place of an assign gives, where it names a bit.
    fn put_place(&mut self, node: usize, left: SigBit, source: SigBit) -> Result<(), Memory>
        ensures ok { OnOk result ((b : WireBit) →
            given_in self.new b ≡ given_in self.old b ++ own_given b node (joins (left ∷ []) (source ∷ []))) }
    {
        if let SigBit::Wire(bit) = left {
            self.put(bit, Given { node, source })?;
        }
        Ok(())
    }

    /// Puts last what an assign of the case at this node gives.
    fn put_line(&mut self, node: usize, left: &[SigBit], right: &[SigBit]) -> Result<(), Memory>
        ensures ok { OnOk result ((b : WireBit) →
            given_in self.new b ≡ given_in self.old b ++ own_given b node (joins left.now right.now)) }
    {
        for at in 0..left.len().min(right.len()) {
            self.put_place(node, left[at], right[at])?;
        }
        Ok(())
    }

    /// Puts last what the assigns of the case at this node give.
    fn put_lines(&mut self, node: usize, lines: &[Link]) -> Result<(), Memory>
        ensures ok { OnOk result ((b : WireBit) →
            given_in self.new b ≡ given_in self.old b ++ own_given b node (all_joins lines.now)) }
    {
        for line in lines {
            self.put_line(node, line.left.as_slice(), line.right.as_slice())?;
        }
        Ok(())
    }

    /// Puts last what is given in the case and below it. The answer is the first node behind the case.
    #[cycle(sources)]
    fn put_case(&mut self, node: usize, case: &Case) -> Result<usize, Memory>
        ensures given { OnOk result ((b : WireBit) →
            given_in self.new b ≡ given_in self.old b ++ case_given b node case.now) }
        ensures behind { IfOk result (λ behind. behind ≡ behind_case node case.now.switches) }
    {
        self.put_lines(node, case.assigns.as_slice())?;
        let mut next = next_node(node)?;
        for switch in &case.switches {
            next = self.put_switch(next, switch)?;
        }
        Ok(next)
    }

    /// Puts last what is given below the switch. The answer is the first node behind the switch.
    #[cycle(sources)]
    fn put_switch(&mut self, node: usize, switch: &Switch) -> Result<usize, Memory>
        ensures given { OnOk result ((b : WireBit) →
            given_in self.new b ≡ given_in self.old b ++ switch_given b node switch.now) }
        ensures behind { IfOk result (λ behind. behind ≡ behind_switch node switch.now.cases) }
    {
        let mut next = next_node(node)?;
        for case in &switch.cases {
            next = self.put_case(next, case)?;
        }
        Ok(next)
    }
}

/// The node behind a node. More than 2^64 of them are taken for want of memory.
fn next_node(node: usize) -> Result<usize, Memory>
    ensures value { IfOk result (λ next. next ≡ node + 1) }
{
    node.checked_add(1).ok_or(Memory)
}
