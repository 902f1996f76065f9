// A text of bytes.
ghost use Rattle.awk_text.specs.Held.{items_of};
ghost use Rattle.std.specs.Prelude.{◌≡◌, [], IfOk, IfSome};

use crate::Memory;
use arrayvec::ArrayVec;
use std::alloc::Global;
use std::marker::Model;
use std::mem;
use std::rc::Rc;

/// The fewest bytes that are shared: to copy fewer takes no longer, and takes less memory.
const LEAST_SHARED: usize = 128;

/// Where the bytes of a text lie. Most texts are short: those lie in the value itself, and take no memory of their own.
#[derive(Drop)]
enum Bytes {
    Short(ArrayVec<u8, 16>),
    Long(Vec<u8>),
    /// Of several texts that are the same: none of them changes it.
    Shared(Rc<Vec<u8>>),
}

/// The same bytes, which others can share from now on: where memory is refused they stay as they are.
fn shared(alloc: Global, bytes: Bytes) -> Bytes
    ensures { items_of result ≡ items_of bytes }
{
    match bytes {
        Bytes::Long(long) => match Rc::new(alloc, long) {
            Ok(several) => Bytes::Shared(several),
            Err(refused) => Bytes::Long(refused.value),
        },
        Bytes::Short(_) | Bytes::Shared(_) => bytes,
    }
}

/// A text: any bytes, which contracts see as their list.
#[derive(Drop)]
pub struct Octets {
    bytes: Bytes,
}

impl Model for Octets {
    ghost use Rattle.std.specs.Prelude.{List, ℕ};
    ghost use Rattle.awk_text.specs.Held.{items_of};

    ghost Value = { List ℕ };

    ghost view = { λ o. items_of o.bytes };
}

impl Octets {
    /// The text of these bytes, which stay where they lie. Takes no memory.
    #[inline]
    pub fn new(bytes: Vec<u8>) -> Octets
        ensures { result ≡ bytes.items }
    {
        Octets {
            bytes: Bytes::Long(bytes),
        }
    }

    /// The text of a copy of these bytes, where they are few enough to lie in the value: up to 16. Takes no memory.
    #[inline]
    pub fn short(bytes: &[u8]) -> Option<Octets>
        ensures { IfSome result (λ o. o ≡ bytes.now) }
    {
        match ArrayVec::try_from(bytes) {
            Ok(short) => Some(Octets {
                bytes: Bytes::Short(short),
            }),
            Err(_) => None,
        }
    }

    /// The text of a copy of these bytes, or `Memory` where memory is refused. A short one takes none.
    #[inline]
    pub fn of(alloc: Global, bytes: &[u8]) -> Result<Octets, Memory>
        ensures { IfOk result (λ o. o ≡ bytes.now) }
    {
        match Octets::short(bytes) {
            Some(short) => Ok(short),
            None => {
                let copy = Vec::from_slice(alloc, bytes)?;
                Ok(Octets::new(copy))
            }
        }
    }

    /// The bytes of the text. Takes no memory.
    #[inline]
    pub fn bytes(&self) -> &[u8]
        ensures { result.now ≡ self.now }
    {
        match &self.bytes {
            Bytes::Short(bytes) => bytes.as_slice(),
            Bytes::Long(bytes) => bytes.as_slice(),
            Bytes::Shared(bytes) => bytes.as_ref().as_slice(),
        }
    }

    /// The same text once more, or `Memory` where memory is refused. A long one is copied where it is not shared.
    pub fn copy(&self, alloc: Global) -> Result<Octets, Memory>
        ensures { IfOk result (λ o. o ≡ self.now) }
    {
        match &self.bytes {
            Bytes::Shared(bytes) => Ok(Octets {
                bytes: Bytes::Shared(bytes.clone()?),
            }),
            Bytes::Short(_) | Bytes::Long(_) => Octets::of(alloc, self.bytes()),
        }
    }

    /// The same text once more, or `Memory` where memory is refused. 128 bytes and more are not copied: the two share
    /// them, until one is asked for its own.
    pub fn share(&mut self, alloc: Global) -> Result<Octets, Memory>
        ensures stays { self.new ≡ self.old }
        ensures ok { IfOk result (λ o. o ≡ self.old) }
    {
        if LEAST_SHARED <= self.bytes().len() {
            let bytes = mem::replace(&mut self.bytes, Bytes::Long(Vec::new(alloc)));
            self.bytes = shared(alloc, bytes);
        }
        self.copy(alloc)
    }

    /// The bytes, given back, or `Memory` where memory is refused. A long text takes none where it shares none.
    pub fn into_bytes(self, alloc: Global) -> Result<Vec<u8>, Memory>
        ensures { IfOk result (λ bytes. bytes.items ≡ self) }
    {
        match self.bytes {
            Bytes::Short(bytes) => Vec::from_slice(alloc, bytes.as_slice()),
            Bytes::Long(bytes) => Ok(bytes),
            Bytes::Shared(bytes) => Rc::unwrap_or_clone(bytes),
        }
    }

    /// The memory that the text lay in, for other bytes: one that is short, or shared, has none. Takes no memory.
    #[inline]
    pub fn into_room(self, alloc: Global) -> Vec<u8>
        ensures { result.items ≡ [] }
    {
        match self.bytes {
            Bytes::Short(_) | Bytes::Shared(_) => Vec::new(alloc),
            Bytes::Long(mut bytes) => {
                bytes.clear();
                bytes
            }
        }
    }
}
