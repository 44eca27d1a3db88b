//! Between which addresses the prefix lists of a clause permit prefixes.

ghost use Rattle.std.specs.Prelude.{◌≡◌, ◌<◌, ℕ, List, true, false, map, IfOk, None, Some, slice_get};
ghost use Rattle.nc_types.specs.Cidr.{Cidr};
ghost use Rattle.nc_types.specs.Config.{PrefixListView, config_view, list_view};
ghost use Rattle.nc_tables.specs.Base.{covers};
ghost use Rattle.nc_tables.specs.Policy.{first_place, met, permitting_prefix, prefix_place};
ghost use Rattle.nc_policy.specs.Seen.{IsNameIndex};
ghost use Rattle.nc_policy.specs.Spans.{is_outside, AreListSpans, AreSpans};

use crate::names::NameIndex;
use nc_types::{Addr, ListEntry, Prefix, PrefixList, Reference, RouterConfig};
use std::alloc::{AllocError, Global};

/// Addresses from the lowest on and before the end.
#[derive(Clone, Copy)]
pub(crate) struct Span {
    pub(crate) low: u64,
    pub(crate) end: u64,
}

impl Span {
    /// Whether an address isn't among them.
    pub(crate) fn misses(self, addr: Addr) -> bool
        ensures { result ≡ is_outside self addr.0 }
    {
        let addr = u64::from(addr.0);
        addr < self.low || self.end <= addr
    }
}

// No addresses.
fn nowhere() -> Span
    ensures { (addr : ℕ) → addr < 4294967296 → is_outside result addr ≡ true }
{
    Span {
        low: u64::MAX,
        end: 0,
    }
}

/// All addresses.
pub(crate) fn everywhere() -> Span
    ensures { (addr : ℕ) → addr < 4294967296 → is_outside result addr ≡ false }
{
    Span {
        low: 0,
        end: 4_294_967_296,
    }
}

// The addresses of both, and those between.
fn both(one: Span, other: Span) -> Span
    ensures one { (addr : ℕ) → is_outside one addr ≡ false → is_outside result addr ≡ false }
    ensures other { (addr : ℕ) → is_outside other addr ≡ false → is_outside result addr ≡ false }
{
    Span {
        low: if other.low < one.low {
            other.low
        } else {
            one.low
        },
        end: if one.end < other.end {
            other.end
        } else {
            one.end
        },
    }
}

// The addresses of a prefix.
fn of_prefix(prefix: Prefix) -> Span
    ensures { (addr : ℕ) → addr < 4294967296 → covers prefix addr ≡ true
        → is_outside result addr ≡ false }
{
    let low = u64::from(prefix.addr().0);
    let size = 1u64 << (32 - prefix.len());
    match low.checked_add(size) {
        Some(end) => Span { low, end },
        None => everywhere(),
    }
}

// These addresses, and those of an entry that permits.
fn with_entry(span: Span, entry: &ListEntry) -> Span
    ensures kept { (addr : ℕ) → is_outside span addr ≡ false → is_outside result addr ≡ false }
    ensures entry { entry.now.permit ≡ true → (addr : ℕ) → addr < 4294967296
        → covers entry.now.prefix addr ≡ true → is_outside result addr ≡ false }
{
    if !entry.permit {
        return span;
    }
    both(span, of_prefix(entry.prefix))
}

// The addresses of the prefixes that a list can permit.
fn of_list(entries: &[ListEntry]) -> Span
    ensures { (p : Cidr) → p.base < 4294967296 → is_outside result p.base ≡ true
        → permitting_prefix p entries.now ≡ None }
{
    let mut span = nowhere();
    'entries: for entry in entries {
        span = with_entry(span, entry);
    }
    span
}

/// Those of prefix lists, in their order.
pub(crate) fn list_spans(alloc: Global, lists: &[PrefixList]) -> Result<Vec<Span>, AllocError>
    ensures { IfOk result (λ spans. AreListSpans (map list_view lists.now) spans.items) }
{
    let mut spans = Vec::with_capacity(alloc, lists.len())?;
    'lists: for list in lists {
        spans.push(of_list(&list.entries))?;
    }
    Ok(spans)
}

// The span at a place; all addresses where there is none.
fn span_at(spans: &[Span], place: usize) -> Span
    ensures { (lists : List PrefixListView) (l : PrefixListView) → AreListSpans lists spans.now
        → slice_get lists place ≡ Some l → (p : Cidr) → p.base < 4294967296
        → is_outside result p.base ≡ true → permitting_prefix p l.entries ≡ None }
{
    match spans.get(place) {
        Some(span) => *span,
        None => everywhere(),
    }
}

// That of the list that a reference names.
fn of_reference(
    config: &RouterConfig,
    names: &NameIndex,
    spans: &[Span],
    reference: &Reference,
) -> Span
    requires names { IsNameIndex (map (λ l. l.name) (config_view config.now).lists) names.now }
    requires spans { AreListSpans (config_view config.now).lists spans.now }
    ensures { (p : Cidr) → p.base < 4294967296 → is_outside result p.base ≡ true
        → prefix_place (config_view config.now) p reference.now ≡ None }
{
    match names.place(reference.name.bytes()) {
        None => nowhere(),
        Some(place) => span_at(spans, place),
    }
}

// Those of all lists that references name.
fn of_references(
    config: &RouterConfig,
    names: &NameIndex,
    spans: &[Span],
    references: &[Reference],
) -> Span
    requires names { IsNameIndex (map (λ l. l.name) (config_view config.now).lists) names.now }
    requires spans { AreListSpans (config_view config.now).lists spans.now }
    ensures { (p : Cidr) → p.base < 4294967296 → is_outside result p.base ≡ true
        → first_place (prefix_place (config_view config.now) p) references.now ≡ None }
{
    let mut span = nowhere();
    'references: for reference in references {
        span = both(span, of_reference(config, names, spans, reference));
    }
    span
}

// That of a clause: all addresses where it names no prefix list.
fn of_clause(
    config: &RouterConfig,
    names: &NameIndex,
    spans: &[Span],
    references: &[Reference],
) -> Span
    requires names { IsNameIndex (map (λ l. l.name) (config_view config.now).lists) names.now }
    requires spans { AreListSpans (config_view config.now).lists spans.now }
    ensures { (p : Cidr) → p.base < 4294967296 → is_outside result p.base ≡ true
        → met (prefix_place (config_view config.now) p) references.now ≡ None }
{
    if references.is_empty() {
        return everywhere();
    }
    of_references(config, names, spans, references)
}

/// Those of a router's clauses, in their order.
pub(crate) fn clause_spans(
    alloc: Global,
    config: &RouterConfig,
    names: &NameIndex,
) -> Result<Vec<Span>, AllocError>
    requires { IsNameIndex (map (λ l. l.name) (config_view config.now).lists) names.now }
    ensures { IfOk result (λ spans. AreSpans (config_view config.now) spans.items) }
{
    let lists = list_spans(alloc, &config.lists)?;
    let mut spans = Vec::with_capacity(alloc, config.clauses.len())?;
    'clauses: for clause in &config.clauses {
        spans.push(of_clause(config, names, &lists, &clause.lists))?;
    }
    Ok(spans)
}
