//! The connections that read the bits of a module, each bit once a connection.

ghost use Rattle.std.specs.Prelude.{◌≡◌, ◌+◌, OnOk, length};
ghost use Rattle.net_index.specs.Numbering.{bit_count};
ghost use Rattle.net_index.specs.ReaderFill.{Adds};
ghost use Rattle.net_index.specs.ReaderLinks.{AddsLink, AreMarks, readers_by_link};
ghost use Rattle.net_index.specs.Readers.{link_readers};

use crate::driver_fill::narrowed;
use crate::numbering::Numbering;
use crate::reader::Reader;
use crate::reader_fill::BitReader;
use rtl_bits::Memory;
use rtl_ir::Link;
use rtl_sig::{SigBit, WireBit};
use std::alloc::Global;

/// The connections, for the bits of their right sides.
pub(crate) fn add_links(
    alloc: Global,
    list: &mut Vec<BitReader>,
    numbering: &Numbering,
    links: &[Link],
) -> Result<(), Memory>
    ensures ok { OnOk result (Adds numbering.now list.old.items (link_readers 0 links.now) list.new.items) }
{
    // The last connection that was added for each bit, counted from 1.
    let mut marks = vec![in alloc; 0; numbering.count()]?;
    for (place, link) in links.iter().enumerate() {
        let right = link.right.as_slice();
        add_link(
            list,
            numbering,
            marks.as_mut_slice(),
            narrowed(place)?,
            right,
        )?;
    }
    Ok(())
}

/// The connection at this place, which has this right side, for each bit of it.
fn add_link(
    list: &mut Vec<BitReader>,
    numbering: &Numbering,
    marks: &mut [u64],
    link: u32,
    right: &[SigBit],
) -> Result<(), Memory>
    requires sized { length marks.old ≡ bit_count numbering.now }
    requires earlier { AreMarks link marks.old }
    ensures ok { OnOk result (Adds numbering.now list.old.items (readers_by_link link right.now) list.new.items) }
    ensures marks { OnOk result (AreMarks (link + 1) marks.new) }
{
    for at in 0..right.len() {
        if let SigBit::Wire(bit) = right[at] {
            add_once(list, numbering, marks, link, bit)?;
        }
    }
    Ok(())
}

/// The connection at this place for the bit, where a wire has it and its mark is of an earlier connection.
fn add_once(
    list: &mut Vec<BitReader>,
    numbering: &Numbering,
    marks: &mut [u64],
    link: u32,
    bit: WireBit,
) -> Result<(), Memory>
    requires sized { length marks.old ≡ bit_count numbering.now }
    ensures ok { OnOk result (
        AddsLink numbering.now link bit list.old.items marks.old list.new.items marks.new) }
{
    let Some(number) = numbering.find(bit) else {
        return Ok(());
    };
    let place = u64::from(link);
    if marks[number] <= place {
        marks[number] = place + 1;
        list.push(BitReader {
            number,
            reader: Reader::Link(place),
        })?;
    }
    Ok(())
}
