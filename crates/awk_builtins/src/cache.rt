// The patterns that a run has met, compiled.
ghost use Rattle.awk_builtins.specs.Cached.{AreEres, IsNear};
ghost use Rattle.awk_fields.specs.Separators.{IsEre, IsNoEre};
ghost use Rattle.std.specs.Prelude.{All, IfErr, IfOk, IfSome, ◌≡◌, ◌⊎◌};

use awk_ere::Ere;
use awk_hash::Seed;
use awk_lib::is_same;
use awk_text::Memory;
use awk_text::fault::Fault;
use lru::LruCache;
use std::alloc::Global;
use std::marker::Model;
use std::num::NonZeroUsize;
use std::rc::Rc;

/// How many patterns are kept.
const MOST_KEPT: usize = 256;

/// How many patterns stand before the cache, which are found without a hash. Most scripts have no more.
const MOST_NEAR: usize = 8;

/// A pattern beside its text.
#[derive(Drop)]
struct Near {
    source: Vec<u8>,
    ere: Rc<Ere>,
}

/// The patterns that were used last, by their texts.
type Cache = LruCache<Vec<u8>, Rc<Ere>, Seed>;

/// The patterns of a run. The first few are kept, as compiled, and of the others those that were used last; which ones
/// never shows.
#[derive(Drop)]
pub struct Patterns {
    near: Vec<Near>,
    /// `None` until a pattern is first kept.
    cache: Option<Cache>,
    seed: Seed,
}

impl Model for Patterns {
    ghost use Rattle.std.specs.Prelude.{MatchOption, All};
    ghost use Rattle.awk_builtins.specs.Cached.{AreEres, IsNear};

    ghost Value = { Unit {0} };

    ghost view = { λ _. tt };

    ghost invariant = { λ p. All IsNear p.near.items
        × MatchOption p.cache (Unit {0}) (λ c. AreEres (λ k. k.items) (λ e. e.value) c.entries) };
}

/// The ERE that the text spells.
fn compiled(alloc: Global, source: &[u8]) -> Result<Rc<Ere>, Fault>
    ensures ok { IfOk result (λ e. (e.value ≡ source.now) × IsEre source.now) }
    ensures err { IfErr result (λ e. (e ≡ Fault.Memory) ⊎ ((e ≡ Fault.Pattern) × IsNoEre source.now)) }
{
    match Ere::parse(alloc, source) {
        Ok(ere) => Ok(Rc::new(alloc, ere)?),
        Err(refusal) if refusal.code == 4 => Err(Fault::Memory),
        Err(_) => Err(Fault::Pattern),
    }
}

/// The pattern of this text among those before the cache.
fn known(kept: &[Near], source: &[u8]) -> Option<Rc<Ere>>
    requires { All IsNear kept.now }
    ensures { IfSome result (λ e. (e.value ≡ source.now) × IsEre source.now) }
{
    for one in kept {
        if is_same(one.source.as_slice(), source) {
            return one.ere.clone().ok();
        }
    }
    None
}

/// Puts the pattern behind those before the cache.
fn add_near(alloc: Global, kept: &mut Vec<Near>, source: &[u8], ere: &Rc<Ere>) -> Result<(), Memory>
    requires near { All IsNear kept.old.items }
    requires same { ere.now.value ≡ source.now }
    requires ere { IsEre source.now }
    ensures { All IsNear kept.new.items }
{
    let source = Vec::from_slice(alloc, source)?;
    let ere = ere.clone()?;
    kept.push(Near { source, ere })?;
    Ok(())
}

/// Notes that the pattern of this text is the one used last, where the cache is full, so that the next one takes
/// another's place.
fn note_use(cache: &mut Cache, source: &[u8])
    requires { AreEres (λ k. k.items) (λ e. e.value) cache.old.entries }
    ensures { AreEres (λ k. k.items) (λ e. e.value) cache.new.entries }
{
    if cache.len() == MOST_KEPT {
        cache.promote(source);
    }
}

/// The pattern that the cache has of this text.
fn cached(cache: &mut Cache, source: &[u8]) -> Option<Rc<Ere>>
    requires { AreEres (λ k. k.items) (λ e. e.value) cache.old.entries }
    ensures found { IfSome result (λ e. (e.value ≡ source.now) × IsEre source.now) }
    ensures kept { AreEres (λ k. k.items) (λ e. e.value) cache.new.entries }
{
    note_use(cache, source);
    let kept = cache.peek(source)?;
    match kept.clone() {
        Ok(shared) => Some(shared),
        Err(_) => None,
    }
}

/// Puts the pattern into the cache, in place of the one that was used longest ago where it is full.
fn store(alloc: Global, cache: &mut Cache, source: &[u8], ere: &Rc<Ere>) -> Result<(), Memory>
    requires cached { AreEres (λ k. k.items) (λ e. e.value) cache.old.entries }
    requires same { ere.now.value ≡ source.now }
    requires ere { IsEre source.now }
    ensures { AreEres (λ k. k.items) (λ e. e.value) cache.new.entries }
{
    let key = Vec::from_slice(alloc, source)?;
    let shared = ere.clone()?;
    cache.put(key, shared)?;
    Ok(())
}

impl Patterns {
    /// No patterns yet. Their texts are hashed by this seed. Takes no memory.
    pub fn new(alloc: Global, seed: Seed) -> Patterns {
        Patterns {
            near: Vec::new(alloc),
            cache: None,
            seed,
        }
    }

    /// Keeps the pattern, or leaves all as it is where memory is refused.
    fn keep(&mut self, alloc: Global, source: &[u8], ere: &Rc<Ere>) -> Result<(), Memory>
        requires same { ere.now.value ≡ source.now }
        requires ere { IsEre source.now }
    {
        if self.near.len() < MOST_NEAR {
            return add_near(alloc, &mut self.near, source, ere);
        }
        if let Some(cache) = &mut self.cache {
            return store(alloc, cache, source, ere);
        }
        let most = NonZeroUsize::new(MOST_KEPT).unwrap();
        let mut cache = LruCache::with_hasher(alloc, most, self.seed)?;
        store(alloc, &mut cache, source, ere)?;
        self.cache = Some(cache);
        Ok(())
    }

    /// The pattern that the text spells, compiled now or before.
    ///
    /// Fails with `Fault::Pattern` exactly where the text is no ERE within the limits, and with `Fault::Memory`
    /// where memory is refused. Where memory is refused for its keeping alone, the pattern is made for this once.
    pub fn find(&mut self, alloc: Global, source: &[u8]) -> Result<Rc<Ere>, Fault>
        ensures ok { IfOk result (λ e. (e.value ≡ source.now) × IsEre source.now) }
        ensures err { IfErr result (λ e. (e ≡ Fault.Memory) ⊎ ((e ≡ Fault.Pattern) × IsNoEre source.now)) }
    {
        if let Some(ere) = known(self.near.as_slice(), source) {
            return Ok(ere);
        }
        if let Some(cache) = &mut self.cache
            && let Some(ere) = cached(cache, source)
        {
            return Ok(ere);
        }
        let ere = compiled(alloc, source)?;
        let _ = self.keep(alloc, source, &ere);
        Ok(ere)
    }
}
