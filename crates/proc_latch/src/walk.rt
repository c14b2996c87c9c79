//! The way through a tree for the chain of a bit, and from its leaves to other chains.

ghost use Rattle.std.specs.Prelude.{◌≡◌, ◌+◌, Err, IfOk, OnOk, Option, Some, slice_get};
ghost use Rattle.rtl_ir.specs.Tree.{cases_of, switches_of};
ghost use Rattle.net_index.specs.Builder.{IsInLimits, PassesLimit};
ghost use Rattle.match_cells.specs.Numbers.{HasCases, HasSwitches, behind_case, behind_switch};
ghost use Rattle.proc_latch.specs.Chains.{
  IsRead,
  case_chain,
  cases_chain,
  chain_of,
  new_chain,
  reads,
  seen,
  start_leaf,
  switch_chain,
  switches_chain,
};
ghost use Rattle.proc_latch.specs.Givens.{AreInOrder};
ghost use Rattle.proc_latch.specs.Sides.{side_of};

use crate::chains::Chains;
use crate::given::{Given, has_between, value_at};
use crate::reading::Reading;
use match_cells::{behind, case_nodes};
use net_index::PassFault;
use rtl_ir::{Case, Switch};
use rtl_sig::{SigBit, WireBit};

/// How the chain of a bit is made: how leaves are read, how many chains may be made one in another, and what the
/// assigns give the bit.
#[derive(Clone, Copy)]
struct Way<'a> {
    read: &'a Reading<'a>,
    depth: usize,
    given: &'a [Given],
}

/// A case with the number of its node, and the signal that it is chosen by.
#[derive(Clone, Copy)]
struct Arm<'a> {
    node: usize,
    signal: &'a [SigBit],
    case: &'a Case,
}

impl Chains {
    /// A leaf as it is read. So many chains may be made one in another.
    #[cycle(chain)]
    pub(crate) fn leaf(
        &mut self,
        read: &Reading<'_>,
        depth: usize,
        leaf: SigBit,
    ) -> Result<SigBit, PassFault>
        requires read { IsRead read.now }
        ensures exact { IfOk result (λ bit. (bit, seen self.new) ≡ reads read.now depth leaf (seen self.old)) }
        ensures over { result ≡ Err PassFault.Over →
            PassesLimit (reads read.now depth leaf (seen self.old)).1.trees.building }
        ensures within { IsInLimits self.old.trees.builder → OnOk result (IsInLimits self.new.trees.builder) }
    {
        let bit = match leaf {
            SigBit::Fixed(_) => return Ok(read.side.other_leaf(leaf)),
            SigBit::Wire(bit) => bit,
        };
        if bit == read.own {
            return Ok(read.side.own_leaf());
        }
        if depth == 0 {
            return Ok(read.side.other_leaf(leaf));
        }
        if !read.tables.bits.has(bit) {
            return Ok(read.side.other_leaf(leaf));
        }
        self.chain(read, depth - 1, bit)
    }

    /// The chain of a tree bit: it is made once.
    #[cycle(chain)]
    fn chain(&mut self, read: &Reading<'_>, depth: usize, bit: WireBit) -> Result<SigBit, PassFault>
        requires read { IsRead read.now }
        ensures exact { IfOk result (λ value. (value, seen self.new) ≡
            chain_of (reads read.now depth) (side_of read.now.side) read.now.root.now bit (seen self.old)) }
        ensures over { result ≡ Err PassFault.Over →
            PassesLimit (chain_of (reads read.now depth) (side_of read.now.side) read.now.root.now bit
            (seen self.old)).1.trees.building }
        ensures within { IsInLimits self.old.trees.builder → OnOk result (IsInLimits self.new.trees.builder) }
    {
        match self.chain_at(bit) {
            Some(value) => Ok(value),
            None => self.new_chain(read, depth, bit),
        }
    }

    /// The chain of a tree bit is made now.
    #[cycle(chain)]
    fn new_chain(
        &mut self,
        read: &Reading<'_>,
        depth: usize,
        bit: WireBit,
    ) -> Result<SigBit, PassFault>
        requires read { IsRead read.now }
        ensures exact { IfOk result (λ value. (value, seen self.new) ≡
            new_chain (reads read.now depth) (side_of read.now.side) read.now.root.now bit (seen self.old)) }
        ensures over { result ≡ Err PassFault.Over →
            PassesLimit (new_chain (reads read.now depth) (side_of read.now.side) read.now.root.now bit
            (seen self.old)).1.trees.building }
        ensures within { IsInLimits self.old.trees.builder → OnOk result (IsInLimits self.new.trees.builder) }
    {
        let given = read.tables.sources.of_bit(bit);
        let missing = read.side.missing_leaf();
        let start = self.start(read, depth, value_at(given, 0), missing)?;
        let root = read.root;
        let switches = root.switches.as_slice();
        let way = Way {
            read: &*read,
            depth,
            given,
        };
        let value = self.switches_chain(&way, 1, switches, start)?;
        self.put_chain(bit, value)?;
        Ok(value)
    }

    /// What is assigned to a bit as it is read, or what the bit had.
    #[cycle(chain)]
    fn start(
        &mut self,
        read: &Reading<'_>,
        depth: usize,
        source: Option<SigBit>,
        prior: SigBit,
    ) -> Result<SigBit, PassFault>
        requires read { IsRead read.now }
        ensures exact { IfOk result (λ value. (value, seen self.new) ≡
            start_leaf (reads read.now depth) source prior (seen self.old)) }
        ensures over { result ≡ Err PassFault.Over →
            PassesLimit (start_leaf (reads read.now depth) source prior (seen self.old)).1.trees.building }
        ensures within { IsInLimits self.old.trees.builder → OnOk result (IsInLimits self.new.trees.builder) }
    {
        match source {
            Some(leaf) => self.leaf(read, depth, leaf),
            None => Ok(prior),
        }
    }

    /// The switches act in order on the value of a bit. The first of them is the node of this number.
    #[cycle(chain)]
    fn switches_chain(
        &mut self,
        way: &Way<'_>,
        node: usize,
        switches: &[Switch],
        prior: SigBit,
    ) -> Result<SigBit, PassFault>
        requires read { IsRead way.now.read.now }
        requires in_order { AreInOrder way.now.given.now }
        requires table { HasSwitches way.now.read.now.tables.now.nodes.items node (switches_of switches.now) }
        ensures exact { IfOk result (λ value. (value, seen self.new) ≡
            switches_chain (reads way.now.read.now way.now.depth) way.now.given.now node (switches_of switches.now)
            prior (seen self.old)) }
        ensures over { result ≡ Err PassFault.Over →
            PassesLimit (switches_chain (reads way.now.read.now way.now.depth) way.now.given.now node
            (switches_of switches.now) prior (seen self.old)).1.trees.building }
        ensures within { IsInLimits self.old.trees.builder → OnOk result (IsInLimits self.new.trees.builder) }
    {
        let mut node = node;
        let mut value = prior;
        for switch in switches {
            value = self.switch_chain(way, node, switch, value)?;
            node = behind(way.read.tables.nodes.as_slice(), node);
        }
        Ok(value)
    }

    /// The switch acts on the value of a bit, where it assigns the bit.
    #[cycle(chain)]
    fn switch_chain(
        &mut self,
        way: &Way<'_>,
        node: usize,
        switch: &Switch,
        prior: SigBit,
    ) -> Result<SigBit, PassFault>
        requires read { IsRead way.now.read.now }
        requires in_order { AreInOrder way.now.given.now }
        requires behind { slice_get way.now.read.now.tables.now.nodes.items node ≡
            Some (behind_switch node switch.now.cases) }
        requires table { HasCases way.now.read.now.tables.now.nodes.items (node + 1) switch.now.cases }
        ensures exact { IfOk result (λ value. (value, seen self.new) ≡
            switch_chain (reads way.now.read.now way.now.depth) way.now.given.now node switch.now.signal
            switch.now.cases prior (seen self.old)) }
        ensures over { result ≡ Err PassFault.Over →
            PassesLimit (switch_chain (reads way.now.read.now way.now.depth) way.now.given.now node switch.now.signal
            switch.now.cases prior (seen self.old)).1.trees.building }
        ensures within { IsInLimits self.old.trees.builder → OnOk result (IsInLimits self.new.trees.builder) }
    {
        let next = behind(way.read.tables.nodes.as_slice(), node);
        if !has_between(way.given, node, next) {
            return Ok(prior);
        }
        let signal = switch.signal.as_slice();
        let cases = switch.cases.as_slice();
        self.cases_chain(way, node + 1, signal, cases, prior)
    }

    /// The cases of a switch act, the last one first, on the value of a bit before the switch.
    #[cycle(chain)]
    fn cases_chain(
        &mut self,
        way: &Way<'_>,
        node: usize,
        signal: &[SigBit],
        cases: &[Case],
        prior: SigBit,
    ) -> Result<SigBit, PassFault>
        requires read { IsRead way.now.read.now }
        requires in_order { AreInOrder way.now.given.now }
        requires table { HasCases way.now.read.now.tables.now.nodes.items node (cases_of cases.now) }
        ensures exact { IfOk result (λ value. (value, seen self.new) ≡
            cases_chain (reads way.now.read.now way.now.depth) way.now.given.now node signal.now (cases_of cases.now)
            prior (seen self.old)) }
        ensures over { result ≡ Err PassFault.Over →
            PassesLimit (cases_chain (reads way.now.read.now way.now.depth) way.now.given.now node signal.now
            (cases_of cases.now) prior (seen self.old)).1.trees.building }
        ensures within { IsInLimits self.old.trees.builder → OnOk result (IsInLimits self.new.trees.builder) }
    {
        let tables = way.read.tables;
        let nodes = case_nodes(self.trees.alloc, tables.nodes.as_slice(), node, cases)?;
        let nodes = nodes.as_slice();
        let mut value = prior;
        for at in (0..cases.len()).rev() {
            let arm = Arm {
                node: nodes[at],
                signal,
                case: &cases[at],
            };
            value = self.case_chain(way, &arm, prior, value)?;
        }
        Ok(value)
    }

    /// The case acts on what stands for the cases behind it.
    #[cycle(chain)]
    fn case_chain(
        &mut self,
        way: &Way<'_>,
        arm: &Arm<'_>,
        prior: SigBit,
        acc: SigBit,
    ) -> Result<SigBit, PassFault>
        requires read { IsRead way.now.read.now }
        requires in_order { AreInOrder way.now.given.now }
        requires behind { slice_get way.now.read.now.tables.now.nodes.items arm.now.node ≡
            Some (behind_case arm.now.node arm.now.case.now.switches) }
        requires table { HasSwitches way.now.read.now.tables.now.nodes.items (arm.now.node + 1)
            arm.now.case.now.switches }
        ensures exact { IfOk result (λ value. (value, seen self.new) ≡
            case_chain (reads way.now.read.now way.now.depth) way.now.given.now arm.now.node arm.now.signal.now
            arm.now.case.now.patterns arm.now.case.now.switches prior acc (seen self.old)) }
        ensures over { result ≡ Err PassFault.Over →
            PassesLimit (case_chain (reads way.now.read.now way.now.depth) way.now.given.now arm.now.node
            arm.now.signal.now arm.now.case.now.patterns arm.now.case.now.switches prior acc
            (seen self.old)).1.trees.building }
        ensures within { IsInLimits self.old.trees.builder → OnOk result (IsInLimits self.new.trees.builder) }
    {
        let node = arm.node;
        let case = arm.case;
        let given = value_at(way.given, node);
        let start = self.start(way.read, way.depth, given, prior)?;
        let switches = case.switches.as_slice();
        let body = self.switches_chain(way, node + 1, switches, start)?;
        self.with_case(node, arm.signal, case.patterns.as_slice(), body, acc)
    }
}
