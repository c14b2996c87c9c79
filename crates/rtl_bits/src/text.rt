//! Texts.

ghost use Rattle.std.specs.Prelude.{◌≡◌, ◌+◌, ◌<◌, ◌≤◌, [], ◌∷◌, ◌++◌, IfOk, OnErr, OnOk, length, if◌then◌else◌};
ghost use Rattle.std.proofs.Common.{ap};
ghost use Rattle.std.specs.Arc.{arc_value};
ghost use Rattle.std.specs.Cmp.{partial_equiv_from_equiv};
ghost use Rattle.std.specs.Cmp.Lexicographic.{bytes_decides, nat_list_eq_equiv};
ghost use Rattle.std.specs.Str.{bytes_eq};
ghost use Rattle.rtl_bits.specs.Text.{bytes_of};

use crate::memory::Memory;
use crate::seq::Copied;
use crate::short::Short;
use std::alloc::Global;
use std::hash::{Hash, Hasher};
use std::marker::Model;
use std::sync::Arc;

/// The most bytes that lie in the value itself.
const INLINE: usize = 14;

/// The most bytes that lie in a box of this size.
const BOXED: usize = 39;

/// A text, as its bytes. Up to 14 of them lie in the value itself, up to 39 in a box, more in a list on the heap, which
/// the copies of the text share. It keeps the allocator that it was made with.
#[derive(Drop)]
pub struct Text {
    alloc: Global,
    bytes: Bytes,
}

/// Where the bytes of a text lie.
#[derive(Drop)]
enum Bytes {
    Inline(Short<INLINE>),
    Boxed(Box<Short<BOXED>>),
    Listed(Arc<Vec<u8>, Global>),
}

impl Model for Text {
    ghost use Rattle.std.specs.Prelude.{ℕ, List};

    ghost Value = { List ℕ };

    ghost use Rattle.rtl_bits.specs.Text.{bytes_of};

    ghost view = { λ text. bytes_of text.bytes };
}

impl Bytes {
    /// Both lists of bytes, one after the other.
    fn of(alloc: Global, first: &[u8], second: &[u8]) -> Result<Bytes, Memory>
        ensures value { IfOk result (λ bytes. bytes_of bytes ≡ first.now ++ second.now) }
    {
        if second.len() <= INLINE && first.len() <= INLINE - second.len() {
            return Ok(Bytes::Inline(both(first, second)));
        }
        if second.len() <= BOXED && first.len() <= BOXED - second.len() {
            return Ok(Bytes::Boxed(Box::new(alloc, both(first, second))?));
        }
        let mut bytes = Vec::from_slice(alloc, first)?;
        bytes.extend_from_slice(second)?;
        Ok(Bytes::Listed(Arc::new(alloc, bytes)?))
    }

    /// The bytes in order.
    fn as_slice(&self) -> &[u8]
        ensures value { result.now ≡ bytes_of self.now }
    {
        match self {
            Bytes::Inline(short) => short.as_slice(),
            Bytes::Boxed(short) => short.as_slice(),
            Bytes::Listed(bytes) => bytes.as_slice(),
        }
    }

    /// Appends the bytes where these lie, or answers `false`: there is no room, or these are shared.
    fn extend_in_place(&mut self, more: &[u8]) -> Result<bool, Memory>
        ensures done { IfOk result (λ done.
            bytes_of self.new ≡ (if done then bytes_of self.old ++ more.now else bytes_of self.old)) }
        ensures err { OnErr result (bytes_of self.new ≡ bytes_of self.old) }
    {
        match self {
            Bytes::Inline(short) if short.has_room(more.len()) => short.extend(more),
            Bytes::Boxed(short) if short.has_room(more.len()) => short.extend(more),
            Bytes::Listed(bytes) => match Arc::get_mut(bytes) {
                Some(own) => own.extend_from_slice(more)?,
                None => return Ok(false),
            },
            _ => return Ok(false),
        }
        Ok(true)
    }
}

/// Both lists of bytes, one after the other.
fn both<const N: usize>(first: &[u8], second: &[u8]) -> Short<N>
    requires small { N < 256 }
    requires room { length first.now + length second.now ≤ N }
    ensures value { result ≡ first.now ++ second.now }
{
    let mut short = Short::make();
    short.extend(first);
    short.extend(second);
    short
}

/// The bytes, which are copied only where they are shared.
fn owned(alloc: Global, bytes: Arc<Vec<u8>, Global>) -> Result<Vec<u8>, Memory>
    ensures value { IfOk result (λ own. own.items ≡ (arc_value bytes).items) }
{
    match Arc::try_unwrap(bytes) {
        Ok(own) => Ok(own),
        Err(shared) => Ok(Vec::from_slice(alloc, shared.as_slice())?),
    }
}

impl Text {
    /// The text of no bytes. It takes no memory.
    pub fn make(alloc: Global) -> Text
        ensures value { result ≡ [] }
    {
        Text {
            alloc,
            bytes: Bytes::Inline(Short::make()),
        }
    }

    /// The text of these bytes.
    pub fn from_slice(alloc: Global, bytes: &[u8]) -> Result<Text, Memory>
        ensures value { IfOk result (λ text. text ≡ bytes.now) }
    {
        Ok(Text {
            alloc,
            bytes: Bytes::of(alloc, bytes, &[])?,
        })
    }

    /// The text of these bytes, which stay where they are if there are more than 39.
    pub fn from_vec(bytes: Vec<u8>) -> Result<Text, Memory>
        ensures value { IfOk result (λ text. text ≡ bytes.items) }
    {
        let alloc = *bytes.allocator();
        if bytes.len() <= BOXED {
            return Text::from_slice(alloc, bytes.as_slice());
        }
        Ok(Text {
            alloc,
            bytes: Bytes::Listed(Arc::new(alloc, bytes)?),
        })
    }

    /// The bytes. A text of more than 39 takes no memory for that, unless a copy of it shares them.
    pub fn into_vec(self) -> Result<Vec<u8>, Memory>
        ensures value { IfOk result (λ bytes. bytes.items ≡ self) }
    {
        let Text { alloc, bytes } = self;
        match bytes {
            Bytes::Listed(bytes) => owned(alloc, bytes),
            short => Ok(Vec::from_slice(alloc, short.as_slice())?),
        }
    }

    /// The bytes in order.
    pub fn as_slice(&self) -> &[u8]
        ensures value { result.now ≡ self.now }
    {
        self.bytes.as_slice()
    }

    /// Appends the byte. After an error the text is as before.
    pub fn push(&mut self, byte: u8) -> Result<(), Memory>
        ensures ok { OnOk result (self.new ≡ self.old ++ byte ∷ []) }
        ensures err { OnErr result (self.new ≡ self.old) }
    {
        self.extend([byte].as_slice())
    }

    /// Appends the bytes. After an error the text is as before.
    pub fn extend(&mut self, more: &[u8]) -> Result<(), Memory>
        ensures ok { OnOk result (self.new ≡ self.old ++ more.now) }
        ensures err { OnErr result (self.new ≡ self.old) }
    {
        if self.bytes.extend_in_place(more)? {
            return Ok(());
        }
        let longer = Bytes::of(self.alloc, self.as_slice(), more)?;
        self.bytes = longer;
        Ok(())
    }

    /// The allocator that the text keeps. No clause speaks of it, since a text's value is its bytes alone.
    pub fn allocator(&self) -> Global {
        self.alloc
    }
}

impl Copied for Text {
    fn copy(&self) -> Result<Text, Memory> {
        let alloc = self.alloc;
        let bytes = match &self.bytes {
            Bytes::Inline(short) => Bytes::Inline(short.copy()),
            Bytes::Boxed(short) => Bytes::Boxed(Box::new(alloc, short.copy())?),
            Bytes::Listed(bytes) => Bytes::Listed(Arc::try_clone(bytes)?),
        };
        Ok(Text { alloc, bytes })
    }
}

impl PartialEq for Text {
    ghost eq = { bytes_eq };

    ghost laws = { partial_equiv_from_equiv nat_list_eq_equiv };

    fn eq(&self, other: &Text) -> bool {
        self.as_slice() == other.as_slice()
    }
}

impl Eq for Text {
    ghost laws = { nat_list_eq_equiv };
}

impl Hash for Text {
    ghost hash_input = { λ text. text ∷ [] };

    ghost respects_eq = { λ x y same. ap (λ bytes. bytes ∷ []) ((bytes_decides x y).0 same) };

    fn hash<H: Hasher>(&self, state: &mut H) {
        state.write(self.as_slice());
    }
}
