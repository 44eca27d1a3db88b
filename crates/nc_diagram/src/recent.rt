// Some of the answers of recent operations, so that one that comes again needs little work.

ghost use Rattle.std.specs.Prelude.{◌≡◌, ◌⊎◌, ℕ, [], Contains, IfSome};
ghost use Rattle.nc_diagram.specs.declared.recent.Question.{Question};

use crate::apply::{Operator, Pair};
use crate::table::home;
use lru::LruCache;
use std::alloc::Global;
use std::marker::Model;
use std::num::NonZeroUsize;

/// How many answers are kept at most.
const MOST: usize = 16_384;

/// For how many pairs, at least, an answer is kept: those done since it was begun, where those below
/// another answer that was kept don't count. An entry takes memory and the time of several pairs, so there
/// is one for 64 pairs at most; along a chain of nodes that is each 64th, and no more has to be done again.
pub(crate) const LEAST: u32 = 64;

/// How many marks there are for the pairs whose answers were kept.
const MARKS: usize = 65_536;

/// An operation on two references.
#[derive(Clone, Copy, PartialEq, Eq, Hash)]
pub(crate) struct Question {
    pub operator: Operator,
    pub pair: Pair,
}

/// The answers of the operations used last. There are none before the first operation, nor where no
/// memory is found for them.
#[derive(Drop)]
pub(crate) struct Recent {
    cache: Option<Box<LruCache<Question, u32>>>,
    alloc: Global,
}

impl Model for Recent {
    ghost use Rattle.std.specs.Prelude.{List, ℕ, []};
    ghost use Rattle.std.specs.Option.{option_map_or};
    ghost use Rattle.nc_diagram.specs.declared.recent.Question.{Question};

    ghost Value = { List (Question × ℕ) };

    ghost view = { λ r. option_map_or (λ c. c.value.entries) r.cache [] };
}

// An empty cache, where memory is found for it.
fn empty_cache(alloc: Global) -> Option<Box<LruCache<Question, u32>>>
    ensures { IfSome result (λ c. c.value.entries ≡ []) }
{
    let most = NonZeroUsize::new(MOST)?;
    let Ok(cache) = LruCache::sparse(alloc, most) else {
        return None;
    };
    match Box::new(alloc, cache) {
        Ok(cache) => Some(cache),
        Err(_memory) => None,
    }
}

// The answer of an operation, where it is kept. It is then the one used last.
fn used(cache: &mut LruCache<Question, u32>, question: Question) -> Option<u32>
    ensures found { IfSome result (λ place. Contains cache.old.entries (question, place)) }
    ensures kept { (e : Question × ℕ) → Contains cache.new.entries e → Contains cache.old.entries e }
{
    let found = cache.peek(&question).copied();
    if found.is_some() {
        cache.promote(&question);
    }
    found
}

/// Marks of the pairs whose answers were kept, so that others aren't looked for. Several pairs have one
/// mark. There are none before the first answer, nor where no memory is found for them.
#[derive(Drop)]
pub(crate) struct Marks {
    marked: Vec<bool>,
}

impl Marks {
    // No marks. It takes no memory.
    pub(crate) fn new(alloc: Global) -> Marks {
        Marks {
            marked: Vec::new(alloc),
        }
    }

    // Whether the answer of a pair with this home may have been kept.
    pub(crate) fn has(&self, home: usize) -> bool {
        let at = home % MARKS;
        at < self.marked.len() && self.marked[at]
    }

    // Marks a pair.
    pub(crate) fn mark(&mut self, pair: Pair) {
        if self.marked.resize(MARKS, false).is_ok() {
            self.marked[home(pair) % MARKS] = true;
        }
    }
}

impl Recent {
    // No answers. It takes no memory.
    pub(crate) fn new(alloc: Global) -> Recent
        ensures { result ≡ [] }
    {
        Recent { cache: None, alloc }
    }

    // The answer of an operation, where it is kept. It is then the one used last.
    pub(crate) fn find(&mut self, question: Question) -> Option<u32>
        ensures found { IfSome result (λ place. Contains self.old (question, place)) }
        ensures kept { (e : Question × ℕ) → Contains self.new e → Contains self.old e }
    {
        let mut cache = self.cache.take()?;
        let found = used(&mut cache, question);
        self.cache = Some(cache);
        found
    }

    // Takes the cache out, which is made where there is none yet and memory is found for it.
    fn taken(&mut self) -> Option<Box<LruCache<Question, u32>>>
        ensures cache { IfSome result (λ c. c.value.entries ≡ self.old) }
        ensures out { self.new ≡ [] }
    {
        match self.cache.take() {
            Some(cache) => Some(cache),
            None => empty_cache(self.alloc),
        }
    }

    // Keeps the answer of an operation, in place of the one not used for longest where there are as
    // many as may be. Where no memory is found it isn't kept.
    pub(crate) fn note(&mut self, question: Question, place: u32)
        ensures { (e : Question × ℕ) → Contains self.new e
            → (e ≡ (question, place)) ⊎ Contains self.old e }
    {
        if let Some(mut cache) = self.taken() {
            let _replaced = cache.put(question, place);
            self.cache = Some(cache);
        }
    }

    // Forgets all answers.
    pub(crate) fn clear(&mut self)
        ensures { self.new ≡ [] }
    {
        self.cache = None;
    }
}
