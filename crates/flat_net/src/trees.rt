//! The parts of the trees of processes.

ghost use Rattle.std.specs.Prelude.{◌≡◌, ◌<◌, List, [], ◌∷◌, ◌++◌, Some, IfOk, OnOk, length, reverse, slice_get};
ghost use Rattle.rtl_bits.specs.declared.bit.Bit.{Bit};
ghost use Rattle.rtl_sig.specs.declared.sig.SigBit.{SigBit};
ghost use Rattle.rtl_ir.specs.Faults.TwoEdges.{SwitchTest};
ghost use Rattle.rtl_ir.specs.Flat.Place.{Path};
ghost use Rattle.rtl_ir.specs.Flat.Process.{tree_bit_rows};
ghost use Rattle.rtl_ir.specs.Follow.{all_joins, joins};
ghost use Rattle.rtl_ir.specs.declared.follow.Join.{Join};
ghost use Rattle.flat_net.specs.Known.{Extends};
ghost use Rattle.flat_net.specs.Resets.{IsTest};
ghost use Rattle.flat_net.specs.Sources.{IsRoot};
ghost use Rattle.flat_net.specs.Trees.{AreAssigns, AreOutputs, AreSignals, IsBranchAt, IsChoice, IsTree};

use crate::choices::{Assign, Branch, Choice, Tree};
use crate::net::{Output, Point};
use crate::places::{Places, number_at};
use crate::resets::{Reset, test_of};
use crate::rooted::Rooted;
use crate::scope::Scope;
use crate::tree_bits::TreeBits;
use rtl_bits::{Memory, Seq};
use rtl_ir::{Case, Link, Switch};
use rtl_sig::{SigBit, SigSpec};

impl Places {
    /// The tree of a process, in numbers.
    pub(crate) fn tree(&mut self, scope: &Scope, rooted: &Rooted) -> Result<Tree, Memory>
        requires in_range { scope.now.path < length self.old.paths }
        ensures grows { OnOk result (Extends self.old self.new) }
        ensures value { (p : Path) → slice_get self.old.paths scope.now.path ≡ Some p → (start : SigBit → Bit) →
            IfOk result (λ tree. IsTree self.new.places tree (tree_bit_rows start p scope.now.wires.now
            rooted.now.root (reverse rooted.now.bits))) }
    {
        let tree = self.root(scope, None, rooted)?;
        Ok(Tree {
            width: tree.width,
            root: tree.root,
            outputs: self.tree_outputs(scope, &rooted.bits)?,
        })
    }

    /// The tree of a process in numbers, where it drives nothing. Its choices tell which of them test the reset.
    pub(crate) fn root(
        &mut self,
        scope: &Scope,
        reset: Option<Reset>,
        rooted: &Rooted,
    ) -> Result<Tree, Memory>
        requires in_range { scope.now.path < length self.old.paths }
        ensures grows { OnOk result (Extends self.old self.new) }
        ensures value { (p : Path) → slice_get self.old.paths scope.now.path ≡ Some p → (test : SwitchTest) →
            IsTest reset.entry test →
            IfOk result (λ tree.
            IsRoot self.new.places test p scope.now.wires.now rooted.now.bits tree rooted.now.root) }
    {
        let bits = &rooted.bits;
        let root = self.branch(scope, bits, reset, &[], &rooted.root)?;
        Ok(Tree {
            width: number_at(bits.len())?,
            root,
            outputs: Seq::make(scope.alloc),
        })
    }

    /// The tree bits, in order.
    fn tree_outputs(&mut self, scope: &Scope, bits: &TreeBits) -> Result<Seq<Output>, Memory>
        requires in_range { scope.now.path < length self.old.paths }
        ensures grows { OnOk result (Extends self.old self.new) }
        ensures value { (p : Path) → slice_get self.old.paths scope.now.path ≡ Some p →
            IfOk result (λ outputs.
            AreOutputs self.new.places p scope.now.wires.now bits.now outputs (reverse bits.now)) }
    {
        let mut outputs = Vec::with_capacity(scope.alloc, bits.len())?;
        for at in (0..bits.len()).rev() {
            let number = self.bit(scope, bits.at(at))?;
            let at = number_at(at)?;
            outputs.push(Output { number, at })?;
        }
        Ok(Seq::from_vec(outputs))
    }

    /// The branch that a case with these patterns is.
    #[cycle(branches)]
    fn branch(
        &mut self,
        scope: &Scope,
        bits: &TreeBits,
        reset: Option<Reset>,
        patterns: &[SigSpec],
        case: &Case,
    ) -> Result<Branch, Memory>
        requires in_range { scope.now.path < length self.old.paths }
        ensures grows { OnOk result (Extends self.old self.new) }
        ensures value { (p : Path) → slice_get self.old.paths scope.now.path ≡ Some p → (test : SwitchTest) →
            IsTest reset.entry test →
            IfOk result (λ branch.
            IsBranchAt self.new.places test p scope.now.wires.now bits.now patterns.now branch case.now) }
    {
        let patterns = self.signals(scope, patterns)?;
        let assigns = self.assigns(scope, bits, case.assigns.as_slice())?;
        let mut choices = Vec::with_capacity(scope.alloc, case.switches.len())?;
        for switch in &case.switches {
            choices.push(self.choice(scope, bits, reset, switch)?)?;
        }
        Ok(Branch {
            patterns,
            assigns,
            choices,
        })
    }

    /// The choice that a switch is.
    #[cycle(branches)]
    fn choice(
        &mut self,
        scope: &Scope,
        bits: &TreeBits,
        reset: Option<Reset>,
        switch: &Switch,
    ) -> Result<Choice, Memory>
        requires in_range { scope.now.path < length self.old.paths }
        ensures grows { OnOk result (Extends self.old self.new) }
        ensures value { (p : Path) → slice_get self.old.paths scope.now.path ≡ Some p → (test : SwitchTest) →
            IsTest reset.entry test →
            IfOk result (λ choice. IsChoice self.new.places test p scope.now.wires.now bits.now choice switch.now) }
    {
        let signal = self.points(scope, switch.signal.as_slice())?;
        let test = test_of(scope.alloc, reset, switch)?;
        let mut branches = Vec::with_capacity(scope.alloc, switch.cases.len())?;
        for case in &switch.cases {
            let patterns = case.patterns.as_slice();
            branches.push(self.branch(scope, bits, reset, patterns, case)?)?;
        }
        Ok(Choice {
            signal,
            test,
            branches,
        })
    }

    /// The points of several signals.
    fn signals(&mut self, scope: &Scope, signals: &[SigSpec]) -> Result<Seq<Seq<Point>>, Memory>
        requires in_range { scope.now.path < length self.old.paths }
        ensures grows { OnOk result (Extends self.old self.new) }
        ensures value { (p : Path) → slice_get self.old.paths scope.now.path ≡ Some p →
            IfOk result (λ words. AreSignals self.new.places p scope.now.wires.now words signals.now) }
    {
        let mut words = Vec::with_capacity(scope.alloc, signals.len())?;
        for signal in signals {
            words.push(self.points(scope, signal.as_slice())?)?;
        }
        Ok(Seq::from_vec(words))
    }

    /// The places of the assigns of a case.
    fn assigns(
        &mut self,
        scope: &Scope,
        bits: &TreeBits,
        lines: &[Link],
    ) -> Result<Seq<Assign>, Memory>
        requires in_range { scope.now.path < length self.old.paths }
        ensures grows { OnOk result (Extends self.old self.new) }
        ensures value { (p : Path) → slice_get self.old.paths scope.now.path ≡ Some p → (test : SwitchTest) →
            IfOk result (λ assigns.
            AreAssigns self.new.places test p scope.now.wires.now bits.now assigns (all_joins lines.now)) }
    {
        let mut assigns = Vec::new(scope.alloc);
        for line in lines {
            let left = line.left.as_slice();
            self.put_line(scope, bits, left, line.right.as_slice(), &mut assigns)?;
        }
        Ok(Seq::from_vec(assigns))
    }

    /// Puts the places of an assign last.
    fn put_line(
        &mut self,
        scope: &Scope,
        bits: &TreeBits,
        left: &[SigBit],
        right: &[SigBit],
        assigns: &mut Vec<Assign>,
    ) -> Result<(), Memory>
        requires in_range { scope.now.path < length self.old.paths }
        ensures grows { OnOk result (Extends self.old self.new) }
        ensures value { (p : Path) → slice_get self.old.paths scope.now.path ≡ Some p →
            (test : SwitchTest) → (js : List Join) →
            AreAssigns self.old.places test p scope.now.wires.now bits.now assigns.old.items js →
            OnOk result (AreAssigns self.new.places test p scope.now.wires.now bits.now assigns.new.items
            (js ++ joins left.now right.now)) }
    {
        for at in 0..left.len().min(right.len()) {
            self.put_assign(scope, bits, left[at], right[at], assigns)?;
        }
        Ok(())
    }

    /// Puts a place of an assign last, where its left side is a tree bit.
    fn put_assign(
        &mut self,
        scope: &Scope,
        bits: &TreeBits,
        left: SigBit,
        right: SigBit,
        assigns: &mut Vec<Assign>,
    ) -> Result<(), Memory>
        requires in_range { scope.now.path < length self.old.paths }
        ensures grows { OnOk result (Extends self.old self.new) }
        ensures value { (p : Path) → slice_get self.old.paths scope.now.path ≡ Some p →
            (test : SwitchTest) → (js : List Join) →
            AreAssigns self.old.places test p scope.now.wires.now bits.now assigns.old.items js →
            OnOk result (AreAssigns self.new.places test p scope.now.wires.now bits.now assigns.new.items
            (js ++ joins (left ∷ []) (right ∷ []))) }
    {
        let SigBit::Wire(bit) = left else {
            return Ok(());
        };
        let Some(at) = bits.find(bit) else {
            return Ok(());
        };
        let from = self.point(scope, right)?;
        assigns.push(Assign {
            at: number_at(at)?,
            from,
            tree: bits.place(right)?,
        })?;
        Ok(())
    }
}
