//! Bits that connections make one.

ghost use Rattle.std.specs.Prelude.{◌≡◌, ◌+◌, List, [], ◌∷◌, ◌++◌, IfOk, OnOk};
ghost use Rattle.rtl_ir.specs.declared.module.Link.{Link};
ghost use Rattle.rtl_ir.specs.Follow.{follow, follow_joins, joins};
ghost use Rattle.rtl_ir.specs.declared.follow.Join.{Join};
ghost use Rattle.net_alias.specs.Aliases.{AreAliases, IsAliases, IsStep, step_to};

use crate::step_table::{Step, StepTable};
use rtl_bits::Memory;
use rtl_ir::{Link, Module};
use rtl_sig::{SigBit, WireBit};
use std::alloc::Global;

/// The ways back along connections, to which connections are added. In the Yosys manual, "The RTL Intermediate Language
/// (RTLIL)", the section "RTLIL::SigSpec" has signals that connections join.
#[derive(Drop)]
pub struct Aliases {
    table: StepTable,
    steps: usize,
}

impl Aliases {
    /// The ways along the connections of the module.
    pub fn of(alloc: Global, module: &Module) -> Result<Aliases, Memory>
        ensures value { IfOk result (λ aliases. IsAliases aliases «module».now.links) }
    {
        let mut aliases = Aliases {
            table: StepTable::of(alloc, module.wires.as_slice())?,
            steps: 1,
        };
        aliases.connect_all(module.links.as_slice())?;
        Ok(aliases)
    }

    /// The first bit or constant on the way back along the connections that none of them drives, and the bit itself
    /// where the way runs into a loop. It takes no memory; the ways that it passes become shorter.
    pub fn follow(&mut self, bit: SigBit) -> SigBit
        ensures value { (links : List Link) → IsAliases self.old links → result ≡ follow links bit }
        ensures keeps { (links : List Link) → IsAliases self.old links → IsAliases self.new links }
    {
        self.end_of(bit)
    }

    /// One connection more, behind the others: the right side drives the left. Of several connections that drive a bit
    /// the first counts, and of a connection the places that both sides have.
    pub fn connect(&mut self, left: &[SigBit], right: &[SigBit]) -> Result<(), Memory>
        ensures ok { OnOk result ((links : List Link) → IsAliases self.old links →
            IsAliases self.new (links ++ record { left = left.now; right = right.now } ∷ [])) }
    {
        self.connect_sides(left, right)
    }

    /// The connections, each behind those before it.
    fn connect_all(&mut self, links: &[Link]) -> Result<(), Memory>
        ensures ok { OnOk result ((before : List Link) → IsAliases self.old before →
            IsAliases self.new (before ++ links.now)) }
    {
        for link in links {
            self.connect(link.left.as_slice(), link.right.as_slice())?;
        }
        Ok(())
    }

    /// The places that both sides have, in order.
    fn connect_sides(&mut self, left: &[SigBit], right: &[SigBit]) -> Result<(), Memory>
        ensures ok { OnOk result ((all : List Join) → AreAliases self.old all →
            AreAliases self.new (all ++ joins left.now right.now)) }
    {
        for at in 0..left.len().min(right.len()) {
            self.connect_bit(left[at], right[at])?;
        }
        Ok(())
    }

    /// One place of a connection, where the left is a bit of a wire.
    fn connect_bit(&mut self, left: SigBit, source: SigBit) -> Result<(), Memory>
        ensures ok { OnOk result ((all : List Join) → AreAliases self.old all →
            AreAliases self.new (all ++ joins (left ∷ []) (source ∷ []))) }
    {
        let SigBit::Wire(bit) = left else {
            return Ok(());
        };
        self.join(bit, source)
    }

    /// The source drives the bit, where nothing drives it yet.
    fn join(&mut self, bit: WireBit, source: SigBit) -> Result<(), Memory>
        ensures ok { OnOk result ((all : List Join) → AreAliases self.old all →
            AreAliases self.new (all ++ record { bit = bit; source = source } ∷ [])) }
    {
        let end = self.end_of(source);
        self.steps = one_more(self.steps)?;
        match self.table.get(SigBit::Wire(bit)) {
            Some(_) => Ok(()),
            None => {
                self.table.put(bit, first_step(bit, end))?;
                Ok(())
            }
        }
    }

    /// Where the way from the bit ends, and the bit itself where it does not.
    fn end_of(&mut self, bit: SigBit) -> SigBit
        ensures value { (all : List Join) → AreAliases self.old all → result ≡ follow_joins all bit }
        ensures keeps { (all : List Join) → AreAliases self.old all → AreAliases self.new all }
    {
        let mut at = bit;
        for _step in 0..self.steps {
            match self.move_on(at) {
                Some(step) => match step {
                    Step::To(next) => at = next,
                    Step::Loop => return bit,
                },
                None => return at,
            }
        }
        bit
    }

    /// The step of the bit, or that of where it leads to, which the bit then has.
    fn move_on(&mut self, bit: SigBit) -> Option<Step>
        ensures step { (all : List Join) → AreAliases self.old all → IsStep all bit result }
        ensures keeps { (all : List Join) → AreAliases self.old all → AreAliases self.new all }
        ensures steps { self.new.steps ≡ self.old.steps }
    {
        let step = self.table.get(bit)?;
        let Step::To(next) = step else {
            return Some(step);
        };
        let Some(second) = self.table.get(next) else {
            return Some(step);
        };
        self.table.learn(bit, second);
        Some(second)
    }
}

/// The step from a bit that is joined to what leads to this end: where that is the bit, there is a loop.
fn first_step(bit: WireBit, end: SigBit) -> Step
    ensures value { result ≡ step_to bit end }
{
    match end {
        SigBit::Wire(last) if last == bit => Step::Loop,
        _ => Step::To(end),
    }
}

/// The next number. That there is none is taken for want of memory.
fn one_more(number: usize) -> Result<usize, Memory>
    ensures value { IfOk result (λ next. next ≡ number + 1) }
{
    number.checked_add(1).ok_or(Memory)
}
