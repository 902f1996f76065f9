// Patterns, and the search for their best match.
ghost use Rattle.std.specs.Prelude.{◌≡◌, ◌<◌, ◌≤◌, length, IfOk, IfErr, IfSome};
ghost use Rattle.awk_ere.specs.Lazy.{HasMatchFrom, IsSoughtFor, LongestFrom};
ghost use Rattle.awk_ere.specs.Matcher.{StandsFor};
ghost use Rattle.awk_ere.specs.Pattern.{Pattern};
ghost use Rattle.awk_ere.specs.Spelled.{IsPattern, IsAccepted, IsRefused, Finds, HasMatch, code_of};

use crate::ends::best_by;
use crate::error::{EreError, EreFault};
use crate::lazy::Lazy;
use crate::literal::Literal;
use crate::read::read_within;
use crate::table::{Matcher, Sought};
use awk_text::Memory;
use std::alloc::Global;
use std::cell::RefCell;
use std::marker::Model;

/// A pattern that is ready to be searched for. Contracts see it as the text that it was made of.
#[derive(Drop)]
pub struct Ere {
    source: Vec<u8>,
    /// What finds the source, where each of its bytes stands for itself.
    literal: Option<Literal>,
    matcher: Matcher,
    /// The states that are made as searches meet them, once one needs them.
    lazy: RefCell<Option<Lazy>>,
}

impl Model for Ere {
    ghost use Rattle.std.specs.Prelude.{◌≡◌, IfSome, List, ℕ};
    ghost use Rattle.awk_ere.specs.Literal.{IsLiteral};
    ghost use Rattle.awk_ere.specs.Pattern.{Pattern};
    ghost use Rattle.awk_ere.specs.Matcher.{StandsFor};
    ghost use Rattle.awk_ere.specs.Spelled.{IsPattern};

    ghost Value = { List ℕ };

    ghost view = { λ e. e.source.items };

    ghost invariant = { λ e. (p : Pattern) × IsPattern e.source.items p × StandsFor e.matcher p
        × IfSome e.literal (λ l. (l ≡ e.source.items) × IsLiteral e.source.items) };
}

impl Ere {
    fn made(alloc: Global, text: &[u8]) -> Result<Ere, EreFault>
        ensures ok { IfOk result (λ e. IsAccepted text.now e) }
        ensures err { IfErr result (λ f. IsRefused text.now (code_of f)) }
    {
        let mut sets = Vec::new(alloc);
        let node = read_within(alloc, text, &mut sets)?;
        let literal = Literal::new(alloc, text)?;
        // A literal is not searched for by a table.
        let matcher = Matcher::new(alloc, &node, sets, literal.is_none())?;
        let source = Vec::from_slice(alloc, text)?;
        Ok(Ere {
            source,
            literal,
            matcher,
            lazy: RefCell::new(None),
        })
    }

    /// The pattern that the text spells. A text that spells one within the limits is accepted, memory
    /// aside.
    ///
    /// Errors, by code and in this order: 3 for more than 4,096 bytes; at the leftmost fault 1 for what is
    /// no pattern, 2 for an interval with a bound over 255 or out of order; 3 for a size over 20,000;
    /// 4 where memory is refused.
    pub fn parse(alloc: Global, text: &[u8]) -> Result<Ere, EreError>
        ensures ok { IfOk result (λ e. IsAccepted text.now e) }
        ensures err { IfErr result (λ e. IsRefused text.now e.code) }
        ensures accepts { IfErr result (λ e. (p : Pattern) → IsPattern text.now p → e.code ≡ 4) }
    {
        match Ere::made(alloc, text) {
            Ok(ere) => Ok(ere),
            Err(fault) => Err(EreError { code: fault.code() }),
        }
    }

    /// The best match from the place `from` on, as its start and its end: the leftmost one, and of those
    /// the longest.
    ///
    /// Errors: `Memory` where memory is refused.
    pub fn find(&self, text: &[u8], from: usize) -> Result<Option<(usize, usize)>, Memory>
        requires { from ≤ length text.now }
        ensures { IfOk result (λ found. Finds self.now text.now from found) }
    {
        let mut searches = Searches::new(self, text);
        searches.find(from)
    }

    /// Whether there is a match anywhere in the text.
    ///
    /// Errors: `Memory` where memory is refused.
    pub fn is_match(&self, text: &[u8]) -> Result<bool, Memory>
        ensures { IfOk result (λ b. HasMatch self.now text.now b) }
    {
        if let Some(literal) = &self.literal {
            return Ok(literal.find(text, 0).is_some());
        }
        match self.matcher.has_match(text) {
            Some(has_match) => Ok(has_match),
            None => self.is_match_left(text),
        }
    }

    /// Whether there is a match anywhere in the text, where the table does not say.
    ///
    /// Errors: `Memory` where memory is refused.
    fn is_match_left(&self, text: &[u8]) -> Result<bool, Memory>
        ensures { IfOk result (λ b. HasMatch self.now text.now b) }
    {
        let mut read = 0;
        match self.has_match_from(text, 0, &mut read)? {
            Some(has_match) => Ok(has_match),
            None => {
                let found = self.find(text, 0)?;
                Ok(found.is_some())
            }
        }
    }

    /// The end of the longest match from the place, if there is one, by the states that are made as they are met;
    /// `None` where that is too much work. Else `read` is how many bytes were read.
    ///
    /// Errors: `Memory` where memory is refused.
    #[inline(never)]
    fn longest_from(
        &self,
        text: &[u8],
        from: usize,
        read: &mut usize,
    ) -> Result<Option<Option<usize>>, Memory>
        requires { from ≤ length text.now }
        ensures { IfOk result (λ r. IfSome r (λ found. LongestFrom self.now text.now from found)) }
    {
        if from == text.len() {
            return Ok(None);
        }
        let Ok(mut lazy) = self.lazy.try_borrow_mut() else {
            return Ok(None);
        };
        let lazy = &mut *lazy;
        match ready(&self.matcher, &self.source, lazy)? {
            Some(lazy) => lazy.longest(text, from, read),
            None => Ok(None),
        }
    }

    /// Whether a match starts at the place or later, by the states that are made as they are met; `None` where that
    /// is too much work. Else `read` is how many bytes were read.
    ///
    /// Errors: `Memory` where memory is refused.
    #[inline(never)]
    fn has_match_from(
        &self,
        text: &[u8],
        from: usize,
        read: &mut usize,
    ) -> Result<Option<bool>, Memory>
        requires { from ≤ length text.now }
        ensures { IfOk result (λ r. IfSome r (λ b. HasMatchFrom self.now text.now from b)) }
    {
        if from == text.len() {
            return Ok(None);
        }
        let Ok(mut lazy) = self.lazy.try_borrow_mut() else {
            return Ok(None);
        };
        let lazy = &mut *lazy;
        match ready(&self.matcher, &self.source, lazy)? {
            Some(lazy) => lazy.has_match(text, from, read),
            None => Ok(None),
        }
    }
}

/// The states of the pattern, where these are no other's; they are made where there are none yet.
fn ready<'a>(
    matcher: &Matcher,
    source: &[u8],
    lazy: &'a mut Option<Lazy>,
) -> Result<Option<&'a mut Lazy>, Memory>
    requires { (p : Pattern) × IsPattern source.now p × StandsFor matcher.now p }
    ensures { IfOk result (λ r. IfSome r (λ l. l.now ≡ source.now)) }
{
    if lazy.is_none() {
        *lazy = Some(matcher.lazy(source)?);
    }
    match lazy {
        Some(lazy) if lazy.is_of(source) => Ok(Some(lazy)),
        _ => Ok(None),
    }
}

/// How many starts are tried by the states that are made as they are met, before the program goes on alone.
const LAZY_TRIES: usize = 16;

/// What a byte costs of the budget that such states read: a look at a table costs one.
const LAZY_COST: usize = 4;

/// Searches of one text by one pattern, one after the other. What they read is bounded for all together, and after that
/// the text is read backwards once and no more: so they take time linear in the text (by design; time is not proved).
/// Contracts see the pattern's text and the text that is searched.
#[derive(Drop)]
pub struct Searches<'a> {
    ere: &'a Ere,
    matcher: &'a Matcher,
    text: &'a [u8],
    /// How many bytes may still be looked at before the text is read backwards.
    budget: usize,
    /// The ends of the longest matches, once the text was read backwards.
    ends: Option<Vec<u32>>,
}

impl<'a> Model for Searches<'a> {
    ghost use Rattle.std.specs.Prelude.{List, ℕ};
    ghost use Rattle.awk_ere.specs.Pattern.{Pattern};
    ghost use Rattle.awk_ere.specs.Matcher.{StandsFor};
    ghost use Rattle.awk_ere.specs.Spelled.{IsPattern};
    ghost use Rattle.awk_ere.specs.Ends.{AreFarthest};
    ghost use Rattle.std.specs.Prelude.{IfSome};

    ghost Value = { List ℕ × List ℕ };

    ghost view = { λ s. (s.ere.now, s.text.now) };

    ghost invariant = { λ s. (p : Pattern) × IsPattern s.ere.now p × StandsFor s.matcher.now p
        × IfSome s.ends (λ ends. AreFarthest s.matcher.now.sets s.matcher.now.program s.text.now s.matcher.now.entry
        ends.items) };
}

impl<'a> Searches<'a> {
    pub fn new(ere: &'a Ere, text: &'a [u8]) -> Searches<'a>
        ensures { result ≡ (ere.now, text.now) }
    {
        Searches {
            ere,
            matcher: &ere.matcher,
            text,
            budget: ere.matcher.whole_budget(text),
            ends: None,
        }
    }

    /// What `Ere::find` answers.
    ///
    /// Errors: `Memory` where memory is refused.
    pub fn find(&mut self, from: usize) -> Result<Option<(usize, usize)>, Memory>
        requires { from ≤ length self.old.1 }
        ensures found { IfOk result (λ found. Finds self.old.0 self.old.1 from found) }
        ensures same { self.new ≡ self.old }
    {
        let (ere, matcher, text) = (self.ere, self.matcher, self.text);
        if let Some(literal) = &ere.literal {
            return Ok(literal.find(text, from));
        }
        match matcher.find(text, from, &mut self.budget) {
            Sought::Match(start, end) => Ok(Some((start, end))),
            Sought::NoMatch => Ok(None),
            Sought::Left(start) => self.find_left(start),
        }
    }

    /// The best match from the place on, where the table says no more, or not within the budget.
    ///
    /// Errors: `Memory` where memory is refused.
    fn find_left(&mut self, from: usize) -> Result<Option<(usize, usize)>, Memory>
        requires { from ≤ length self.old.1 }
        ensures found { IfOk result (λ found. Finds self.old.0 self.old.1 from found) }
        ensures same { self.new ≡ self.old }
    {
        let mut budget = self.budget;
        let sought = self.find_lazily(from, &mut budget)?;
        self.budget = budget;
        match sought {
            Sought::Match(start, end) => Ok(Some((start, end))),
            Sought::NoMatch => Ok(None),
            Sought::Left(start) => self.find_read(start),
        }
    }

    /// The best match from the place on, by the program alone, which reads slowly and so does it once, and after that
    /// by the ends that the text shows read backwards.
    ///
    /// Errors: `Memory` where memory is refused.
    fn find_read(&mut self, from: usize) -> Result<Option<(usize, usize)>, Memory>
        requires { from ≤ length self.old.1 }
        ensures found { IfOk result (λ found. Finds self.old.0 self.old.1 from found) }
        ensures same { self.new ≡ self.old }
    {
        if let Some(ends) = &self.ends {
            return Ok(best_by(ends, self.text, from));
        }
        if self.budget > 0 {
            self.budget = 0;
            return self.matcher.search(self.text, from);
        }
        match self.matcher.farthest(self.text)? {
            None => self.matcher.search(self.text, from),
            Some(ends) => {
                let found = best_by(&ends, self.text, from);
                self.ends = Some(ends);
                Ok(found)
            }
        }
    }

    /// The best match from the place on, as far as the states tell it that are made as they are met, and the budget
    /// lasts: some starts are tried in turn, once the first one has failed only where there is any match.
    ///
    /// Errors: `Memory` where memory is refused.
    fn find_lazily(&self, from: usize, budget: &mut usize) -> Result<Sought, Memory>
        requires { from ≤ length self.now.1 }
        ensures { IfOk result (λ sought. IsSoughtFor self.now.0 self.now.1 from sought) }
    {
        let mut at = from;
        for tried in 0..LAZY_TRIES {
            let start = self.matcher.first_start(self.text, at);
            if start == self.text.len() || *budget == 0 {
                return Ok(Sought::Left(start));
            }
            let mut read = 0;
            let longest = self.ere.longest_from(self.text, start, &mut read)?;
            *budget = budget.saturating_sub(read.saturating_mul(LAZY_COST));
            match longest {
                None => return Ok(Sought::Left(start)),
                Some(Some(end)) => return Ok(Sought::Match(start, end)),
                Some(None) => {}
            }
            if tried == 0 {
                let mut read = 0;
                let any = self.ere.has_match_from(self.text, start, &mut read)?;
                *budget = budget.saturating_sub(read.saturating_mul(LAZY_COST));
                if let Some(false) = any {
                    return Ok(Sought::NoMatch);
                }
            }
            at = start + 1;
        }
        Ok(Sought::Left(at))
    }
}
