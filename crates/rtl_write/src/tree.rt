//! Trees of decisions.

ghost use Rattle.std.specs.Prelude.{◌≡◌, ◌++◌, OnOk, IfOk, codes};
ghost use Rattle.std.specs.List.{flat_map};
ghost use Rattle.rtl_write.specs.Signal.{signal_text};
ghost use Rattle.rtl_write.specs.Text.{
  assign_text,
  patterns_text,
  case_head,
  switch_head,
  deeper,
  switches_text,
  cases_text,
};

use crate::signal::put_signal;
use crate::statement::put_attributes;
use rtl_bits::{Memory, Text};
use rtl_ir::{Attribute, Case, Link, Switch, Wire};
use rtl_sig::SigSpec;
use std::alloc::Global;

#[tactic(auto, unfolding(crate::specs::Text::assign_text))]
fn put_assign(out: &mut Text, wires: &[Wire], blanks: &[u8], link: &Link) -> Result<(), Memory>
    ensures ok { OnOk result (out.new ≡ out.old ++ assign_text wires.now blanks.now link.now) }
{
    out.extend(blanks)?;
    out.extend(b"assign ")?;
    put_signal(out, wires, link.left.as_slice())?;
    out.push(b' ')?;
    put_signal(out, wires, link.right.as_slice())?;
    out.push(b'\n')
}

fn put_assigns(out: &mut Text, wires: &[Wire], blanks: &[u8], links: &[Link]) -> Result<(), Memory>
    ensures ok { OnOk result (out.new ≡ out.old ++ flat_map (assign_text wires.now blanks.now) links.now) }
{
    for link in links {
        put_assign(out, wires, blanks, link)?;
    }
    Ok(())
}

/// Writes the patterns that follow the first one.
fn put_more_patterns(out: &mut Text, wires: &[Wire], patterns: &[SigSpec]) -> Result<(), Memory>
    ensures ok { OnOk result (out.new ≡ out.old
        ++ flat_map (λ pattern. codes " , " ++ signal_text wires.now pattern) patterns.now) }
{
    for pattern in patterns {
        out.extend(b" , ")?;
        put_signal(out, wires, pattern.as_slice())?;
    }
    Ok(())
}

#[tactic(auto, unfolding(crate::specs::Text::patterns_text))]
fn put_patterns(out: &mut Text, wires: &[Wire], patterns: &[SigSpec]) -> Result<(), Memory>
    ensures ok { OnOk result (out.new ≡ out.old ++ patterns_text wires.now patterns.now) }
{
    match patterns {
        [] => Ok(()),
        [first, more @ ..] => {
            out.push(b' ')?;
            put_signal(out, wires, first.as_slice())?;
            put_more_patterns(out, wires, more)
        }
    }
}

#[tactic(auto, unfolding(crate::specs::Text::case_head))]
fn put_case_head(out: &mut Text, wires: &[Wire], blanks: &[u8], case: &Case) -> Result<(), Memory>
    ensures ok { OnOk result (out.new ≡ out.old
        ++ case_head wires.now blanks.now case.now.patterns case.now.attributes) }
{
    put_attributes(out, blanks, case.attributes.as_slice())?;
    out.extend(blanks)?;
    out.extend(b"case")?;
    put_patterns(out, wires, case.patterns.as_slice())?;
    out.push(b'\n')
}

#[tactic(auto, unfolding(crate::specs::Text::switch_head))]
fn put_switch_head(
    out: &mut Text,
    wires: &[Wire],
    blanks: &[u8],
    signal: &SigSpec,
    attributes: &[Attribute],
) -> Result<(), Memory>
    ensures ok { OnOk result (out.new ≡ out.old ++ switch_head wires.now blanks.now signal.now attributes.now) }
{
    put_attributes(out, blanks, attributes)?;
    out.extend(blanks)?;
    out.extend(b"switch ")?;
    put_signal(out, wires, signal.as_slice())?;
    out.push(b'\n')
}

/// The blanks of one level more.
fn deeper(alloc: Global, blanks: &[u8]) -> Result<Vec<u8>, Memory>
    ensures value { IfOk result (λ more. more.items ≡ deeper blanks.now) }
{
    let mut more = Vec::from_slice(alloc, blanks)?;
    more.extend_from_slice(b"  ")?;
    Ok(more)
}

/// Writes the assigns of a case, and then its switches.
#[cycle(tree)]
pub fn put_case_body(
    out: &mut Text,
    wires: &[Wire],
    blanks: &[u8],
    case: &Case,
) -> Result<(), Memory>
    ensures ok { OnOk result (out.new ≡ out.old
        ++ (flat_map (assign_text wires.now blanks.now) case.now.assigns
        ++ switches_text wires.now blanks.now case.now.switches)) }
{
    put_assigns(out, wires, blanks, case.assigns.as_slice())?;
    for switch in &case.switches {
        put_switch(out, wires, blanks, switch)?;
    }
    Ok(())
}

/// Writes a switch with its cases.
#[cycle(tree)]
fn put_switch(out: &mut Text, wires: &[Wire], blanks: &[u8], switch: &Switch) -> Result<(), Memory>
    ensures ok { OnOk result (out.new ≡ out.old
        ++ (switch_head wires.now blanks.now switch.now.signal switch.now.attributes
        ++ cases_text wires.now (deeper blanks.now) switch.now.cases ++ blanks.now ++ codes "end\n")) }
{
    let alloc = out.allocator();
    put_switch_head(
        out,
        wires,
        blanks,
        &switch.signal,
        switch.attributes.as_slice(),
    )?;
    let inner = deeper(alloc, blanks)?;
    let innermost = deeper(alloc, inner.as_slice())?;
    for case in &switch.cases {
        put_case_head(out, wires, inner.as_slice(), case)?;
        put_case_body(out, wires, innermost.as_slice(), case)?;
    }
    out.extend(blanks)?;
    out.extend(b"end\n")?;
    Ok(())
}
