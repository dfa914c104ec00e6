//! Partners that are missing: a look-up whose key is known finds no row, so the look-ups before it are in vain.
ghost use Rattle.std.specs.Prelude.{◌≡◌, ℕ, ◌+◌, ◌<◌, ◌≤◌, ◌∷◌, ◌++◌, length, map, slice_get, true, IsTrue, is_some};
ghost use Rattle.std.specs.List.{list_all};
ghost use Rattle.std.specs.Bool.{OnTrue};
ghost use Rattle.chr_plans.specs.Keys.{source_value};
ghost use Rattle.chr_plans.specs.Planning.{is_in};
ghost use Rattle.chr_plans.specs.Rows.{HasKey};
ghost use Rattle.chr_plans.specs.working.Searching.{are_ready, is_ready, looked_in, known_limits};
ghost use Rattle.chr_plans.specs.working.Searching.{IsAllowed, IsIndexed, IsMissing};

use crate::key::{Key, Limit, Source, Span, read_key, read_span};
use crate::plan::Lookup;
use crate::rows::Rows;
use crate::search::first_from;
use arrayvec::ArrayVec;
use chr_base::atom::Atom;
use chr_base::limits::MAX_COMPARISONS;

/// Whether one of these look-ups looks in the place.
fn is_looked_in(place: usize, lookups: &[Lookup]) -> bool
    ensures { result ≡ is_in place (looked_in lookups.now) }
{
    let [lookup, lookups @ ..] = lookups else {
        return false;
    };
    place == lookup.partner.place || is_looked_in(place, lookups)
}

/// Whether a source's value is known from the active atom and the partners of these look-ups.
fn is_ready(source: Source, active: usize, found: &[Lookup]) -> bool
    ensures { result ≡ is_ready (active ∷ looked_in found.now) source }
{
    match source {
        Source::Constant(_) => true,
        Source::Argument { place, column: _ } => place == active || is_looked_in(place, found),
    }
}

/// Whether the values of a key are known from the active atom and the partners of these look-ups.
fn are_ready(keys: &[Key], active: usize, found: &[Lookup]) -> bool
    ensures { result ≡ are_ready (active ∷ looked_in found.now) keys.now }
{
    keys.iter().all(|key| is_ready(key.source, active, found))
}

/// Whether more of the limits are known from these look-ups than from those before the last.
fn know_more(limits: &[Limit], active: usize, before: &[Lookup], found: &[Lookup]) -> bool {
    limits.iter().any(|limit| {
        is_ready(limit.source, active, found) && !is_ready(limit.source, active, before)
    })
}

/// Whether the values of a key are known, and the partner of the last of these look-ups is the first with which they
/// are, or with which a limit is; where there are no look-ups, whether the active atom alone gives the key's values.
fn become_ready(keys: &[Key], limits: &[Limit], active: usize, found: &[Lookup]) -> bool
    ensures { OnTrue result (are_ready (active ∷ looked_in found.now) keys.now ≡ true) }
{
    if !are_ready(keys, active, found) {
        return false;
    }
    let [before @ .., _last] = found else {
        return true;
    };
    !are_ready(keys, active, before) || know_more(limits, active, before, found)
}

/// Adds those of these limits whose values are known from the active atom and the partners of the look-ups.
fn push_known(
    limits: &[Limit],
    active: usize,
    found: &[Lookup],
    known: &mut ArrayVec<Limit, MAX_COMPARISONS>,
)
    requires { length known.old.items + length limits.now ≤ MAX_COMPARISONS }
    ensures { known.new.items ≡ known.old.items ++ known_limits (active ∷ looked_in found.now) limits.now }
{
    let [limit, limits @ ..] = limits else {
        return;
    };
    if is_ready(limit.source, active, found) {
        known.push(*limit);
    }
    push_known(limits, active, found, known);
}

/// Whether no row has the key of a look-up under these heads, and is allowed by its limits whose values are known from
/// the active atom and the partners found.
fn finds_none<R: Rows>(
    rows: &mut R,
    lookup: &Lookup,
    active: usize,
    found: &[Lookup],
    heads: &[Atom],
) -> bool
    requires { IsTrue (is_some (R.columns rows.old lookup.now.table lookup.now.index)) }
    ensures rows { R.rows rows.new ≡ R.rows rows.old }
    ensures columns { R.columns rows.new ≡ R.columns rows.old }
    ensures tables { R.tables rows.new ≡ R.tables rows.old }
    ensures rank { R.rank rows.new ≡ R.rank rows.old }
    ensures none { OnTrue result ((other : ℕ) →
        HasKey (R.columns rows.old lookup.now.table lookup.now.index)
        (map (λ k. source_value heads.now k.source) lookup.now.partner.key.items)
        (R.rows rows.old lookup.now.table other) →
        ¬ (IsAllowed heads.now (known_limits (active ∷ looked_in found.now) lookup.now.partner.limits.items)
        (R.rows rows.old lookup.now.table other))) }
{
    let mut key = ArrayVec::new();
    read_key(heads, &lookup.partner.key, &mut key);
    let mut known = ArrayVec::new();
    push_known(&lookup.partner.limits, active, found, &mut known);
    let mut span = Span::default();
    read_span(heads, lookup.partner.order, &known, &mut span);
    first_from(rows, lookup, &key, &span, None).is_none()
}

/// Whether a look-up after the first ones, whose key is known from the active atom and their partners, finds no row by
/// that and by the limits that are known. Then no row helps the look-up that is next. A look-up is asked once its key
/// is known, and again only when a further limit is.
pub(crate) fn is_hopeless<R: Rows>(
    rows: &mut R,
    active: usize,
    lookups: &[Lookup],
    done: usize,
    heads: &[Atom],
) -> bool
    requires indexed { (j : ℕ) → j < length lookups.now →
        IsIndexed (R.columns rows.old) (slice_get lookups.now j) }
    requires done { done < length lookups.now }
    ensures rows { R.rows rows.new ≡ R.rows rows.old }
    ensures columns { R.columns rows.new ≡ R.columns rows.old }
    ensures tables { R.tables rows.new ≡ R.tables rows.old }
    ensures rank { R.rank rows.new ≡ R.rank rows.old }
    ensures missing { OnTrue result
        (IsMissing (R.rows rows.old) (R.columns rows.old) active lookups.now done heads.now) }
{
    let found = &lookups[..done];
    for later in done + 1..lookups.len() {
        let lookup = &lookups[later];
        let partner = &lookup.partner;
        if become_ready(&partner.key, &partner.limits, active, found) {
            if finds_none(rows, lookup, active, found, heads) {
                return true;
            }
        }
    }
    false
}
