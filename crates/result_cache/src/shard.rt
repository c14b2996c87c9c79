//! One shard: its keys with what is kept of each, and the history of the calls on them.

ghost use Rattle.std.specs.Prelude.{◌≡◌, ◌≢◌, ◌+◌, ◌<◌, ◌≤◌, ◌↔◌, ℕ, List, [], Option, IfOk, IfSome, IsSome, OnErr};
ghost use Rattle.std.specs.Prelude.{OnOk, Some, None, length, slice_get, if◌then◌else◌, false};
ghost use Rattle.std.specs.Str.{bytes_eq};
ghost use Rattle.std.specs.Vec.{vec_capacity};
ghost use Rattle.rtl_sig.specs.Names.{has_name, AreDistinct};
ghost use Rattle.result_cache.specs.History.{held, IsFilled, IsLegal};
ghost use Rattle.result_cache.specs.Tickets.{given, returned};
ghost use Rattle.result_cache.specs.Stored.{value_at, mode_at, kept_mode, held_keys, KeepsValues, AddsCall};
ghost use Rattle.result_cache.specs.Claims.{Claimed, Forgot, IfDropped, IfHit, holder_of};

use crate::call::{Act, Entry, Kept};
use crate::keyed::Keyed;
use rtl_bits::{Copied, Memory, Text};
use rtl_sig::Names;
use std::alloc::Global;
use std::marker::Model;
use std::mem;

/// The right to fill a key, or to give it back. It must be spent by one of the two.
pub struct Ticket {
    pub(crate) seat: u32,
    pub(crate) key: Text,
}

/// The reply to a claim.
pub enum Claim<V> {
    /// The key is filled: a value that equals the kept one.
    Hit(V),
    /// The key was free: the seat holds it now.
    Yours(Ticket),
    /// Another seat holds the key: its number.
    Busy(u32),
}

/// The answer to giving up the value of a key.
#[derive(Drop)]
pub enum Forget<V> {
    /// The key was filled: its value. The key is free now.
    Dropped(V),
    /// The key is free.
    Free,
    /// A seat holds the key: its number.
    Busy(u32),
}

/// Keys with what is kept of each, and the history of the calls. `owed` counts the calls that are still to
/// come by right: for each key that is held the one that spends its ticket and one that gives up its value, for
/// each key that is filled the latter. The history has a place left for each, so that they take no memory.
#[derive(Drop)]
pub struct Shard<V: Keyed> {
    keys: Names,
    kept: Vec<Kept<V>>,
    entries: Vec<Entry>,
    owed: usize,
}

impl<V: Keyed> Model for Shard<V> {
    ghost use Rattle.std.specs.Vec.{vec_capacity};
    ghost use Rattle.result_cache.specs.Stored.{Contents, IsSound, calls_of};

    ghost Value = { Contents V };

    ghost view = { λ s. record { history = calls_of s.keys s.entries.items; keys = s.keys; kept = s.kept.items } };

    ghost invariant = { λ s.
        IsSound V V.stands_for s.keys s.kept.items s.entries.items s.owed (vec_capacity s.entries) };
}

impl<V: Keyed> Shard<V> {
    /// A shard in which every key is free, and of which no call was made. It takes no memory.
    pub fn make(alloc: Global) -> Shard<V>
        ensures history { result.history ≡ [] }
        ensures values { (key : List ℕ) → value_at result key ≡ None }
    {
        Shard {
            keys: Names::make(alloc),
            kept: Vec::new(alloc),
            entries: Vec::new(alloc),
            owed: 0,
        }
    }

    /// Asks for the key. The reply `Yours` takes the memory that spending the ticket, and giving up the key's
    /// value later, need. After an error the shard is as before.
    pub fn claim(&mut self, seat: u32, key: &Text) -> Result<Claim<V>, Memory>
        requires not_held { mode_at self.old key.now ≢ held seat }
        ensures ok { IfOk result (λ claim. Claimed self.old self.new seat key.now claim) }
        ensures stands { IfOk result (λ claim. IfHit claim (λ value. V.stands_for value key.now)) }
        ensures values { KeepsValues self.old self.new }
        ensures err { OnErr result (self.new ≡ self.old) }
    {
        match self.keys.find(key.as_slice()) {
            Some(id) => self.claim_known(seat, id.index, key),
            None => self.claim_new(seat, key),
        }
    }

    // Asks for a key that was claimed before.
    fn claim_known(&mut self, seat: u32, place: usize, key: &Text) -> Result<Claim<V>, Memory>
        requires not_held { mode_at self.old key.now ≢ held seat }
        requires within { place < length self.old.keys }
        requires text { slice_get self.old.keys place ≡ Some key.now }
        ensures ok { IfOk result (λ claim. Claimed self.old self.new seat key.now claim) }
        ensures stands { IfOk result (λ claim. IfHit claim (λ value. V.stands_for value key.now)) }
        ensures values { KeepsValues self.old self.new }
        ensures err { OnErr result (self.new ≡ self.old) }
    {
        make_room(&mut self.entries, self.owed)?;
        match &self.kept[place] {
            Kept::Filled(number, value) => {
                let value = value.share()?;
                let act = Act::Hit(*number);
                self.entries.push_reserved(Entry { seat, place, act });
                Ok(Claim::Hit(value))
            }
            Kept::Held(by) => {
                let by = *by;
                let act = Act::Busy(by);
                self.entries.push_reserved(Entry { seat, place, act });
                Ok(Claim::Busy(by))
            }
            Kept::Free => {
                let key = key.copy()?;
                let act = Act::Yours;
                self.entries.push_reserved(Entry { seat, place, act });
                self.kept[place] = Kept::Held(seat);
                self.owed += 2;
                Ok(Claim::Yours(Ticket { seat, key }))
            }
        }
    }

    // Asks for a key that was never claimed.
    fn claim_new(&mut self, seat: u32, key: &Text) -> Result<Claim<V>, Memory>
        requires absent { has_name self.old.keys key.now ≡ false }
        ensures ok { IfOk result (λ claim. Claimed self.old self.new seat key.now claim) }
        ensures stands { IfOk result (λ claim. IfHit claim (λ value. V.stands_for value key.now)) }
        ensures values { KeepsValues self.old self.new }
        ensures err { OnErr result (self.new ≡ self.old) }
    {
        let own = key.copy()?;
        make_room(&mut self.entries, self.owed)?;
        self.kept.reserve(1)?;
        let id = self.keys.intern_text(key)?;
        self.kept.push_reserved(Kept::Held(seat));
        let (place, act) = (id.index, Act::Yours);
        self.entries.push_reserved(Entry { seat, place, act });
        self.owed += 2;
        Ok(Claim::Yours(Ticket { seat, key: own }))
    }

    /// Fills the ticket's key with a value. It takes no memory.
    pub fn fill(&mut self, seat: u32, ticket: Ticket, value: V)
        requires held { mode_at self.old ticket.key ≡ held seat }
        requires stands { V.stands_for value ticket.key }
        ensures history { AddsCall self.old self.new seat ticket.key (Act.Fill (length self.old.history)) }
        ensures values { (key : List ℕ) → value_at self.new key ≡
            (if bytes_eq ticket.key key then Some value else value_at self.old key) }
    {
        let Ticket { seat: _, key } = ticket;
        let Some(id) = self.keys.find(key.as_slice()) else {
            unreachable!()
        };
        let place = id.index;
        let number = self.entries.len() as u64;
        let act = Act::Fill(number);
        self.entries.push_reserved(Entry { seat, place, act });
        self.kept[place] = Kept::Filled(number, value);
        self.owed -= 1;
    }

    /// Gives the ticket's key back: it is free again. It takes no memory.
    pub fn give_back(&mut self, seat: u32, ticket: Ticket)
        requires held { mode_at self.old ticket.key ≡ held seat }
        ensures history { AddsCall self.old self.new seat ticket.key Act.GiveBack }
        ensures values { KeepsValues self.old self.new }
    {
        let Ticket { seat: _, key } = ticket;
        let Some(id) = self.keys.find(key.as_slice()) else {
            unreachable!()
        };
        let place = id.index;
        let act = Act::GiveBack;
        self.entries.push_reserved(Entry { seat, place, act });
        self.kept[place] = Kept::Free;
        self.owed -= 2;
    }

    /// Gives up the value of the key, which is free then. A key that is free or held stays so. It takes no memory.
    pub fn forget(&mut self, seat: u32, key: &Text) -> Forget<V>
        ensures forgot { Forgot self.old self.new seat key.now result }
        ensures stands { IfDropped result (λ value. V.stands_for value key.now) }
        ensures values { (q : List ℕ) → value_at self.new q ≡
            (if bytes_eq key.now q then None else value_at self.old q) }
    {
        let Some(id) = self.keys.find(key.as_slice()) else {
            return Forget::Free;
        };
        let number = match &self.kept[id.index] {
            Kept::Free => return Forget::Free,
            Kept::Held(by) => return Forget::Busy(*by),
            Kept::Filled(number, _value) => *number,
        };
        let Kept::Filled(_number, value) = mem::replace(&mut self.kept[id.index], Kept::Free) else {
            unreachable!()
        };
        let (place, act) = (id.index, Act::Forget(number));
        self.entries.push_reserved(Entry { seat, place, act });
        self.owed -= 1;
        Forget::Dropped(value)
    }

    /// The seat that holds the key, or `None` where the key is free or filled. It takes no memory.
    pub fn holder(&self, key: &Text) -> Option<u32>
        ensures value { result ≡ holder_of (mode_at self.now key.now) }
    {
        match self.keys.find(key.as_slice()) {
            None => None,
            Some(id) => match &self.kept[id.index] {
                Kept::Held(by) => Some(*by),
                _ => None,
            },
        }
    }

    // What holds of every shard.
    pub(crate) fn facts(&self)
        ensures legal { IsLegal self.now.history }
        ensures replays { (key : List ℕ) → mode_at self.now key ≡ kept_mode self.now key }
        ensures distinct { AreDistinct self.now.keys }
        ensures filled { (key : List ℕ) → IsSome (value_at self.now key) ↔ IsFilled (mode_at self.now key) }
        ensures stands { (key : List ℕ) → IfSome (value_at self.now key) (λ value. V.stands_for value key) }
        ensures tickets { held_keys self.now + returned self.now.history ≡ given self.now.history }
    {
        let _owed = self.owed;
    }
}

// Makes room for a claim, for the two calls that a ticket owes, and for those that are owed already.
fn make_room(entries: &mut Vec<Entry>, owed: usize) -> Result<(), Memory>
    ensures room { OnOk result (length entries.old.items + 3 + owed ≤ vec_capacity entries.new) }
    ensures items { entries.new.items ≡ entries.old.items }
    ensures capacity { vec_capacity entries.old ≤ vec_capacity entries.new }
{
    let Some(room) = owed.checked_add(3) else {
        return Err(Memory);
    };
    entries.reserve(room)?;
    Ok(())
}
