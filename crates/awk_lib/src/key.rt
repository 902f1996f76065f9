// The keys of a map. A list of bytes would be hashed and compared byte by byte.
ghost use Rattle.std.specs.Prelude.{◌≡◌, IfOk, IsOkUnless};
ghost use Rattle.std.specs.Cmp as Cmp;
ghost use Rattle.std.specs.Cmp.{on_equiv, on_per};
ghost use Rattle.std.specs.Cmp.Lexicographic.{bytes_decides, nat_list_eq_equiv};
ghost use Rattle.std.specs.Str.{bytes_eq};
ghost use Rattle.std.proofs.Common.{ap};
ghost use Rattle.awk_hash.specs.Pieces.{pieces};

use crate::same::is_same;
use awk_hash::write_text;
use awk_text::Memory;
use awk_text::fault::Fault;
use awk_text::octets::Octets;
use indexmap::Equivalent;
use smallvec::SmallVec;
use std::alloc::Global;
use std::hash::{Hash, Hasher};
use std::marker::Model;

/// A key of the map. A short text lies in the key itself, so that it takes no memory of its own, and a
/// look-up follows no pointer to it. Contracts see the list of its bytes.
#[derive(Drop)]
pub struct Key {
    text: SmallVec<u8, 16>,
}

impl Model for Key {
    ghost use Rattle.std.specs.Prelude.{List, ℕ};

    ghost Value = { List ℕ };

    ghost view = { λ k. k.text.items };
}

impl Key {
    /// The key with these bytes, which are copied, or `Memory` where memory is refused.
    pub(crate) fn of(alloc: Global, bytes: &[u8]) -> Result<Key, Memory>
        ensures { IfOk result (λ key. key ≡ bytes.now) }
    {
        Ok(Key {
            text: SmallVec::from_slice(alloc, bytes)?,
        })
    }

    /// The bytes of the key. Takes no memory.
    pub fn bytes(&self) -> &[u8]
        ensures { result.now ≡ self.now }
    {
        self.text.as_slice()
    }

    /// The key as a text, or `Memory` where memory is refused.
    pub fn copy(&self, alloc: Global) -> Result<Octets, Memory>
        ensures { IfOk result (λ o. o ≡ self.now) }
    {
        Ok(Octets::of(alloc, self.bytes())?)
    }
}

/// The texts of the keys.
///
/// Fails with `Fault::Memory` alone, where memory is refused.
pub(crate) fn texts_of(keys: Vec<Key>) -> Result<Vec<Octets>, Fault>
    ensures ok { IfOk result (λ texts. texts.items ≡ keys.items) }
    ensures err { IsOkUnless result Fault.Memory }
{
    let alloc = *keys.allocator();
    let mut texts = Vec::with_capacity(alloc, keys.len())?;
    for key in keys {
        texts.push(key.copy(alloc)?)?;
    }
    Ok(texts)
}

impl PartialEq for Key {
    ghost eq = { bytes_eq };

    ghost laws = { Cmp.partial_equiv_from_equiv nat_list_eq_equiv };

    fn eq(&self, other: &Self) -> bool {
        is_same(self.bytes(), other.bytes())
    }
}

impl Eq for Key {
    ghost laws = { nat_list_eq_equiv };
}

impl Hash for Key {
    ghost hash_input = { λ k. pieces k };

    ghost respects_eq = { λ x y h. ap pieces ((bytes_decides x y).0 h) };

    fn hash<H: Hasher>(&self, state: &mut H) {
        write_text(state, self.bytes());
    }
}

/// A text that is looked for among the keys.
#[derive(Clone, Copy, Drop)]
pub(crate) struct Sought<'a> {
    pub(crate) text: &'a [u8],
}

impl PartialEq for Sought<'_> {
    ghost eq = { λ x y. bytes_eq x.text.now y.text.now };

    ghost laws = { on_per (λ k. k.text.now) (Cmp.partial_equiv_from_equiv nat_list_eq_equiv) };

    fn eq(&self, other: &Self) -> bool {
        is_same(self.text, other.text)
    }
}

impl Eq for Sought<'_> {
    ghost laws = { on_equiv (λ k. k.text.now) nat_list_eq_equiv };
}

impl Hash for Sought<'_> {
    ghost hash_input = { λ k. pieces k.text.now };

    ghost respects_eq = { λ x y h. ap pieces ((bytes_decides x.text.now y.text.now).0 h) };

    fn hash<H: Hasher>(&self, state: &mut H) {
        write_text(state, self.text);
    }
}

impl Equivalent<Key> for Sought<'_> {
    ghost equivalent = { λ q k. bytes_eq q.text.now k };

    ghost respects_hash = { λ q k h. ap pieces ((bytes_decides q.text.now k).0 h) };

    ghost respects_eq = { λ q x y. nat_list_eq_equiv.congr q.text.now x y };

    fn equivalent(&self, key: &Key) -> bool {
        is_same(self.text, key.bytes())
    }
}
