//! Lists without room for more.

ghost use Rattle.std.specs.Prelude.{◌≡◌, [], IfOk, OnOk};

use rtl_bits::{Memory, Seq};
use std::alloc::Global;
use std::mem;

/// The list, whose room for further items is given back: what is read whole gets no more of them.
pub(crate) fn fitted<T>(list: Seq<T>) -> Seq<T>
    ensures value { result ≡ list }
{
    let mut items = list.into_vec();
    items.shrink_to_fit();
    Seq::from_vec(items)
}

/// Takes all items away. Their room stays.
pub(crate) fn clear<T: Drop>(alloc: Global, list: &mut Seq<T>)
    ensures value { list.new ≡ [] }
{
    let mut items = mem::replace(list, Seq::make(alloc)).into_vec();
    items.clear();
    *list = Seq::from_vec(items);
}

/// Takes all items, into a list that has no room for more. Their room in the first list stays.
pub(crate) fn take_items<T: Drop>(alloc: Global, list: &mut Seq<T>) -> Result<Seq<T>, Memory>
    ensures items { IfOk result (λ items. items ≡ list.old) }
    ensures none { OnOk result (list.new ≡ []) }
{
    let mut room = mem::replace(list, Seq::make(alloc)).into_vec();
    let mut items = Vec::with_capacity(alloc, room.len())?;
    items.append(&mut room)?;
    *list = Seq::from_vec(room);
    Ok(Seq::from_vec(items))
}
