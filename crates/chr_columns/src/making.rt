//! Plans and indexes are made.
ghost use Rattle.std.specs.Prelude.{◌≡◌, ℕ, ◌+◌, ◌<◌, List, [], map, length, slice_get, IfOk, OnOk, IfSome, IfNone};
ghost use Rattle.std.specs.Prelude.{Some, None};
ghost use Rattle.std.specs.Bool.{OnTrue, OnFalse};
ghost use Rattle.chr_base.specs.declared.rule.Rule.{Rule as RuleValue};
ghost use Rattle.chr_base.specs.FinBag.{empty};
ghost use Rattle.chr_base.specs.Rules.{heads_of};
ghost use Rattle.chr_plans.specs.Plans.{IsPlan, pattern_at, partners_of, columns_of};
ghost use Rattle.chr_tables.specs.Contents.{rows_of};
ghost use Rattle.chr_columns.specs.working.Groups.{table_of_pattern, IsGrouped, AreGrouped, AllGrouped};
ghost use Rattle.chr_columns.specs.working.Resting.{stored, IsRested, AreLookupsIndexed, ArePlanned, HasPlan};
ghost use Rattle.chr_columns.specs.working.Resting.{HavePlans, AreCovered};
ghost use Rattle.chr_columns.specs.working.Making.{made_way, made_ways, lists_of, columns_in, StayIndexed, Grows};
ghost use Rattle.chr_columns.specs.working.Making.{KeepPlans};

use crate::groups::{Directory, Group, groups_for, table_of};
use crate::rested::Rested;
use arrayvec::ArrayVec;
use chr_base::limits::MAX_ARITY;
use chr_base::rule::Rule;
use chr_plans::constants::has_constants;
use chr_plans::key::Order;
use chr_plans::plan::{Lookup, Partner, Plan};
use chr_plans::planning::plan_of;
use chr_tables::table::Table;
use chr_tables::tables::Tables;
use std::alloc::{AllocError, Global};

/// There are fewer tables than this, so that the rows of all of them can be counted.
const MAX_TABLES: usize = 0x8000_0000;

/// An index that look-ups want: by these columns, and by the values in the order's columns as well.
#[derive(Drop)]
pub(crate) struct Way {
    pub(crate) columns: ArrayVec<usize, MAX_ARITY>,
    pub(crate) order: Order,
}

/// The indexes of one table.
#[derive(Drop)]
pub(crate) struct Keys {
    pub(crate) ways: Vec<Way>,
}

/// Whether the index is by these columns in this order, and by this order of values.
fn is_by(way: &Way, columns: &[usize], order: Order) -> bool
    ensures by { OnTrue result (made_way way.now ≡ (columns.now, order)) }
    ensures other { OnFalse result (made_way way.now ≡ (columns.now, order) → ⊥) }
{
    if way.columns.as_slice() != columns {
        return false;
    }
    match (way.order, order) {
        (Order::Unordered, Order::Unordered) => true,
        (Order::By(left), Order::By(right)) => left == right,
        (Order::ByBoth(first, second), Order::ByBoth(other, another)) => {
            first == other && second == another
        }
        _ => false,
    }
}

/// The index by these columns in this order and by this order of values, where there is one.
fn index_by(keys: &Keys, columns: &[usize], order: Order) -> Option<usize>
    ensures found { IfSome result (λ i. slice_get (made_ways keys.now) i ≡ Some (columns.now, order)) }
    ensures none { IfNone result ((i : ℕ) → ¬ (slice_get (made_ways keys.now) i ≡ Some (columns.now, order))) }
{
    for (i, way) in keys.ways.iter().enumerate() {
        if is_by(way, columns, order) {
            return Some(i);
        }
    }
    None
}

/// The index by these columns in this order and by this order of values, which is a new one only where there was none.
fn index_for(
    keys: &mut Keys,
    columns: ArrayVec<usize, MAX_ARITY>,
    order: Order,
) -> Result<usize, AllocError>
    ensures stay { StayIndexed (lists_of keys.old) (lists_of keys.new) }
    ensures shared { (i : ℕ) → slice_get (made_ways keys.old) i ≡ Some (columns.items, order) → keys.new ≡ keys.old }
    ensures index { IfOk result (λ i. slice_get (made_ways keys.new) i ≡ Some (columns.items, order)) }
{
    if let Some(index) = index_by(keys, &columns, order) {
        return Ok(index);
    }
    let index = keys.ways.len();
    keys.ways.push(Way { columns, order })?;
    Ok(index)
}

/// The look-up of a partner, for which its table has an index.
// Not put into its caller, whose frame would hold the room that this one takes.
#[inline(never)]
fn look_up(
    keys: &mut Vec<Keys>,
    groups: &[Group],
    rule: &Rule,
    partner: &Partner,
) -> Result<Lookup, AllocError>
    requires place { partner.now.place < length (heads_of rule.now) }
    requires tables { length keys.old.items ≡ length groups.now + 1 }
    ensures tables { length keys.new.items ≡ length groups.now + 1 }
    ensures grows { Grows (columns_in keys.old.items) (columns_in keys.new.items) }
    ensures partner { IfOk result (λ l. l.partner ≡ partner.now) }
    ensures table { IfOk result (λ l. l.table ≡ table_of_pattern groups.now (pattern_at rule.now partner.now.place)) }
    ensures index { IfOk result (λ l.
        columns_in keys.new.items l.table l.index ≡ Some (columns_of partner.now.key.items)) }
{
    let pattern = rule.head_at(partner.place);
    let table = table_of(groups, pattern.symbol, pattern.args.len());
    let index = index_for(&mut keys[table], partner.columns(), partner.order)?;
    Ok(Lookup {
        partner: partner.copy(),
        table,
        index,
    })
}

/// The plan of a head place of the rule with this number, for which the tables get the indexes that it wants.
// Not put into its caller, whose frame would hold the room that this one takes.
#[inline(never)]
fn plan_for(
    keys: &mut Vec<Keys>,
    groups: &[Group],
    rule: &Rule,
    number: usize,
    place: usize,
) -> Result<Plan, AllocError>
    requires place { place < length (heads_of rule.now) }
    requires tables { length keys.old.items ≡ length groups.now + 1 }
    ensures tables { length keys.new.items ≡ length groups.now + 1 }
    ensures grows { Grows (columns_in keys.old.items) (columns_in keys.new.items) }
    ensures rule { IfOk result (λ p. p.rule ≡ number) }
    ensures place { IfOk result (λ p. p.place ≡ place) }
    ensures plan { IfOk result (λ p. IsPlan rule.now place (partners_of p.lookups.items)) }
    ensures indexed { IfOk result (λ p.
        AreLookupsIndexed rule.now groups.now (columns_in keys.new.items) p.lookups.items) }
{
    let partners = plan_of(rule, place);
    let mut lookups = ArrayVec::new();
    for index in 0..partners.len() {
        lookups.push(look_up(keys, groups, rule, &partners[index])?);
    }
    Ok(Plan {
        rule: number,
        place,
        has_constants: has_constants(rule.head_at(place)),
        lookups,
    })
}

/// Whether a later head of the rule reads like the one at a place.
fn is_read_again(rule: &Rule, place: usize) -> bool
    requires { place < length (heads_of rule.now) }
    ensures { OnTrue result ((later : ℕ) × (place < later) × (later < length (heads_of rule.now))
        × (pattern_at rule.now place ≡ pattern_at rule.now later)) }
{
    let pattern = rule.head_at(place);
    for later in place + 1..rule.places() {
        if rule.head_at(later) == pattern {
            return true;
        }
    }
    false
}

/// The plan of a head place of the rule with this number joins the group of its head. Where a later head reads like it,
/// that head's plan serves both, since an atom has the same partners at both places.
// Not put into its caller, whose frame would hold the room that this one takes.
#[inline(never)]
fn add_plan(
    keys: &mut Vec<Keys>,
    groups: &mut [Group],
    rule: &Rule,
    number: usize,
    place: usize,
) -> Result<(), AllocError>
    requires place { place < length (heads_of rule.now) }
    requires grouped { IsGrouped groups.old (pattern_at rule.now place) }
    requires tables { length keys.old.items ≡ length groups.old + 1 }
    requires later { HavePlans groups.old number rule.now (place + 1) }
    ensures tables { length keys.new.items ≡ length groups.new + 1 }
    ensures keep { OnOk result (KeepPlans groups.old groups.new) }
    ensures planned { OnOk result ((rules : List RuleValue) → slice_get rules number ≡ Some rule.now →
        ArePlanned rules groups.old (columns_in keys.old.items) →
        ArePlanned rules groups.new (columns_in keys.new.items)) }
    ensures plan { OnOk result
        (HasPlan groups.new (table_of_pattern groups.new (pattern_at rule.now place)) number rule.now place) }
{
    if is_read_again(rule, place) {
        return Ok(());
    }
    let plan = plan_for(keys, groups, rule, number, place)?;
    let pattern = rule.head_at(place);
    let table = table_of(groups, pattern.symbol, pattern.args.len());
    groups[table].plans.push(plan)?;
    Ok(())
}

/// Adds the plans of the head places of the rule with this number, the last place first. Removed heads stand last, so
/// an active atom is first tried as one that is removed: where it could also be kept, it leaves, and the rows stay as
/// they are.
fn add_plans(
    keys: &mut Vec<Keys>,
    groups: &mut [Group],
    rule: &Rule,
    number: usize,
) -> Result<(), AllocError>
    requires grouped { AreGrouped groups.old rule.now (length (heads_of rule.now)) }
    requires tables { length keys.old.items ≡ length groups.old + 1 }
    ensures tables { length keys.new.items ≡ length groups.new + 1 }
    ensures keep { OnOk result (KeepPlans groups.old groups.new) }
    ensures planned { OnOk result ((rules : List RuleValue) → slice_get rules number ≡ Some rule.now →
        ArePlanned rules groups.old (columns_in keys.old.items) →
        ArePlanned rules groups.new (columns_in keys.new.items)) }
    ensures plans { OnOk result (HavePlans groups.new number rule.now 0) }
{
    for place in (0..rule.places()).rev() {
        add_plan(keys, groups, rule, number, place)?;
    }
    Ok(())
}

/// The plans of all head places, those of the first rule first.
fn add_all_plans(
    keys: &mut Vec<Keys>,
    groups: &mut [Group],
    rules: &[Rule],
) -> Result<(), AllocError>
    requires grouped { AllGrouped groups.old rules.now }
    requires planned { ArePlanned rules.now groups.old (columns_in keys.old.items) }
    requires tables { length keys.old.items ≡ length groups.old + 1 }
    ensures tables { length keys.new.items ≡ length groups.new + 1 }
    ensures planned { OnOk result (ArePlanned rules.now groups.new (columns_in keys.new.items)) }
    ensures covered { OnOk result (AreCovered rules.now groups.new (length rules.now)) }
{
    for (number, rule) in rules.iter().enumerate() {
        add_plans(keys, groups, rule, number)?;
    }
    Ok(())
}

/// `count` tables, for which no index is wanted yet.
fn no_keys(alloc: Global, count: usize) -> Result<Vec<Keys>, AllocError>
    ensures { IfOk result (λ keys. length keys.items ≡ count) }
{
    let mut keys = Vec::new(alloc);
    for _ in 0..count {
        keys.push(Keys {
            ways: Vec::new(alloc),
        })?;
    }
    Ok(keys)
}

/// A copy of the columns.
fn copy_of(columns: &ArrayVec<usize, MAX_ARITY>) -> ArrayVec<usize, MAX_ARITY>
    ensures { result.items ≡ columns.now.items }
{
    let mut copy = ArrayVec::new();
    for column in columns.as_slice() {
        copy.push(*column);
    }
    copy
}

/// A table without rows, with these indexes.
fn table_for(alloc: Global, seed: u64, keys: &Keys) -> Result<Table, AllocError>
    ensures rows { IfOk result (λ t. t.rows ≡ []) }
    ensures keys { IfOk result (λ t. t.keys ≡ lists_of keys.now) }
{
    let mut table = Table::new(alloc);
    for way in &keys.ways {
        table.add_index(alloc, seed, copy_of(&way.columns), way.order)?;
    }
    Ok(table)
}

/// Tables without rows, each with its indexes.
fn tables_for(alloc: Global, seed: u64, keys: &[Keys]) -> Result<Tables, AllocError>
    ensures rows { IfOk result (λ ts. (t n : ℕ) → rows_of ts.tables.items t n ≡ None) }
    ensures keys { IfOk result (λ ts. map (λ t. t.keys) ts.tables.items ≡ map lists_of keys.now) }
{
    let mut tables = Vec::new(alloc);
    for keys in keys {
        tables.push(table_for(alloc, seed, keys)?)?;
    }
    Ok(Tables { tables })
}

/// Copies of these rules.
// Not put into its caller, whose frame would hold the room that this one takes.
#[inline(never)]
fn copies_of(alloc: Global, rules: &[Rule]) -> Result<Vec<Rule>, AllocError>
    ensures { IfOk result (λ copies. copies.items ≡ rules.now) }
{
    let mut copies = Vec::new(alloc);
    for rule in rules {
        copies.push(rule.copy())?;
    }
    Ok(copies)
}

/// What is at rest where there is no atom: copies of these rules, the plans of their head places, and tables with the
/// indexes that the plans want, whose keys are hashed under the seed. It is refused where memory is, or where there
/// would be `MAX_TABLES` tables.
pub(crate) fn rested_for(alloc: Global, seed: u64, rules: &[Rule]) -> Result<Rested, AllocError>
    ensures rested { IfOk result IsRested }
    ensures rules { IfOk result (λ r. r.rules.items ≡ rules.now) }
    ensures empty { IfOk result (λ r. stored r ≡ empty) }
{
    let rules = copies_of(alloc, rules)?;
    let mut groups = groups_for(alloc, &rules)?;
    let count = groups.len() + 1;
    if count >= MAX_TABLES {
        return Err(AllocError);
    }
    let mut keys = no_keys(alloc, count)?;
    add_all_plans(&mut keys, &mut groups, &rules)?;
    let tables = tables_for(alloc, seed, &keys)?;
    let directory = Directory::of(alloc, groups)?;
    Ok(Rested {
        seed,
        rules,
        directory,
        tables,
    })
}
