//! A pool of columns beside the store that it has to have.
use crate::tests::drawing::{some_of, store};
use crate::tests::steps::{is_step, list_of};
use crate::tests::tally::{FIRED, MOVED, REMOVED, RESTS, STEPS, TAKEN, THERE, Tally};
use chr_base::atom::Atom;
use chr_base::bag::Bag;
use chr_base::rule::Rule;
use chr_columns::columns::Columns;
use chr_columns::rows::{Row, Rows};
use chr_rewrite::list::ListPool;
use chr_rewrite::pool::Pool;
use chr_rewrite::resting::rest;
use chr_testing::random::Random;
use chr_weights::Weighed;
use std::alloc::Global;
use std::process::Abort;

/// A store that has more atoms than this is rested before more join it.
const MAX_ATOMS: usize = 10;

/// A pool of columns, and the store that it has to have in a plain list.
#[derive(Drop)]
pub struct Beside {
    columns: Columns,
    list: ListPool,
    random: Random,
    pub tally: Tally,
}

/// Whether no row stands there twice.
fn are_apart(rows: &[Row]) -> bool {
    for i in 0..rows.len() {
        if rows[..i].contains(&rows[i]) {
            return false;
        }
    }
    true
}

fn bag_of<P: Pool>(rt: &impl Abort, alloc: Global, pool: &P) -> Bag {
    pool.bag(alloc).expect(rt, "memory")
}

/// Fires the rule on heads that are there.
fn fire<P: Pool>(rt: &impl Abort, pool: &mut P, rule: &Rule, heads: &[Atom]) {
    if !rule.fires(heads) || !pool.has(heads) {
        panic!(rt; "no instance, or not there");
    }
    pool.fire(rule, heads).expect(rt, "memory");
}

/// Fires the rule on rows whose heads are there.
fn fire_rows(rt: &impl Abort, columns: &mut Columns, rule: &Rule, found: &Rows) {
    if !rule.fires(&found.heads) || !columns.has(&found.heads) {
        panic!(rt; "no instance, or not there");
    }
    columns.fire_rows(rule, found).expect(rt, "memory");
}

/// Takes the removed heads out, by rows whose heads are there.
fn take_rows(rt: &impl Abort, columns: &mut Columns, rule: &Rule, found: &Rows) {
    if !rule.fires(&found.heads) || !columns.has(&found.heads) {
        panic!(rt; "no instance, or not there");
    }
    columns.take_rows(rule, found);
}

/// Whether no rule has an instance in the list.
fn rests(list: &ListPool, rules: &[Rule]) -> bool {
    for rule in rules {
        if list.find(rule).is_some() {
            return false;
        }
    }
    true
}

impl Beside {
    /// A pool for these rules that has nothing yet.
    pub fn new(rt: &impl Abort, alloc: Global, rules: &[Rule], seed: u64) -> Beside {
        Beside {
            columns: Columns::new(alloc, rules).expect(rt, "memory"),
            list: ListPool::new(alloc),
            random: Random::new(seed),
            tally: Tally::new(),
        }
    }

    fn insert(&mut self, rt: &impl Abort, alloc: Global, rules: &[Rule]) {
        let more = store(rt, alloc, &mut self.random, rules, 1);
        self.columns.insert(more.atoms()).expect(rt, "memory");
        self.list.insert(more.atoms()).expect(rt, "memory");
    }

    /// Some atoms of the store, and seldom others.
    fn some(&mut self, rt: &impl Abort, alloc: Global) -> Bag {
        let bag = bag_of(rt, alloc, &self.list);
        some_of(rt, alloc, &mut self.random, &bag)
    }

    fn has(&mut self, rt: &impl Abort, alloc: Global) {
        let some = self.some(rt, alloc);
        let has = self.columns.has(some.atoms());
        assert!(rt; has == self.list.has(some.atoms()), "has");
        self.tally.count(THERE, has);
    }

    fn remove(&mut self, rt: &impl Abort, alloc: Global) {
        let some = self.some(rt, alloc);
        let removed = self.columns.remove(some.atoms());
        assert!(rt; removed == self.list.remove(some.atoms()), "remove");
        self.tally.count(REMOVED, removed);
    }

    /// Takes out some atoms beside these, so that others may move to other rows.
    fn remove_others(&mut self, rt: &impl Abort, alloc: Global, heads: &[Atom]) {
        let mut others = list_of(rt, alloc, &bag_of(rt, alloc, &self.list));
        others.remove(heads);
        let some = some_of(rt, alloc, &mut self.random, &bag_of(rt, alloc, &others));
        if others.has(some.atoms()) {
            self.columns.remove(some.atoms());
            self.list.remove(some.atoms());
            self.tally.count(MOVED, some.len() > 0);
        }
    }

    /// An instance, in different rows, where a plain list has one. Then at times other atoms move to other rows.
    fn find(&mut self, rt: &impl Abort, alloc: Global, rule: &Rule) -> Option<Rows> {
        let Some(found) = self.columns.find(rule) else {
            assert!(rt; self.list.find(rule).is_none(), "nothing found");
            return None;
        };
        assert!(rt;
            found.rows.len() == found.heads.len(),
            "not a row for each head"
        );
        assert!(rt; are_apart(&found.rows), "a row for two heads");
        if self.random.below(4) == 0 {
            self.remove_others(rt, alloc, &found.heads);
        }
        Some(found)
    }

    /// An instance is fired, by its heads or by its rows.
    fn fire(&mut self, rt: &impl Abort, rule: &Rule, found: &Rows) {
        if self.random.below(3) == 0 {
            fire(rt, &mut self.columns, rule, &found.heads);
        } else {
            fire_rows(rt, &mut self.columns, rule, found);
        }
        fire(rt, &mut self.list, rule, &found.heads);
        self.tally.count(FIRED, true);
    }

    /// The removed heads of an instance are taken out, by their rows.
    fn take(&mut self, rt: &impl Abort, rule: &Rule, found: &Rows) {
        take_rows(rt, &mut self.columns, rule, found);
        let removed = found.heads.as_slice().get(rule.kept.len()..);
        assert!(rt;
            self.list.remove(removed.expect(rt, "removed heads")),
            "not there"
        );
        self.tally.count(TAKEN, true);
    }

    /// An instance of a rule at random is fired, or taken.
    fn use_a_rule(&mut self, rt: &impl Abort, alloc: Global, rules: &[Rule]) {
        let Some(rule) = rules.get(self.random.below(rules.len().max(1))) else {
            return;
        };
        match self.find(rt, alloc, rule) {
            Some(found) if self.random.below(2) == 0 => self.fire(rt, rule, &found),
            Some(found) => self.take(rt, rule, &found),
            None => {}
        }
    }

    /// One step, which is one that the definitions allow, or none where they allow none.
    fn step(&mut self, rt: &impl Abort, alloc: Global, rules: &[Rule]) {
        let stepped = self.columns.step(rules).expect(rt, "memory");
        let after = bag_of(rt, alloc, &self.columns);
        if stepped {
            let before = bag_of(rt, alloc, &self.list);
            assert!(rt;
                is_step(rt, alloc, rules, &before, &after),
                "no step of the rules"
            );
            self.list = list_of(rt, alloc, &after);
        } else {
            assert!(rt; rests(&self.list, rules), "a step is left");
        }
        self.tally.count(STEPS, stepped);
        self.tally.count(RESTS, !stepped);
    }

    /// All steps to the end.
    fn rest(&mut self, rt: &impl Abort, alloc: Global, weighed: &Weighed) {
        rest(weighed, &mut self.columns).expect(rt, "memory");
        self.list = list_of(rt, alloc, &bag_of(rt, alloc, &self.columns));
        assert!(rt;
            rests(&self.list, weighed.program().rules()),
            "an end with a step"
        );
    }

    /// A call at random, after which the stores are compared.
    pub fn call(&mut self, rt: &impl Abort, alloc: Global, weighed: &Weighed) {
        let rules = weighed.program().rules();
        let bag = bag_of(rt, alloc, &self.list);
        match self.random.below(9) {
            _ if bag.len() > MAX_ATOMS => self.rest(rt, alloc, weighed),
            0 | 1 => self.insert(rt, alloc, rules),
            2 => self.has(rt, alloc),
            3 => self.remove(rt, alloc),
            4 | 5 => self.use_a_rule(rt, alloc, rules),
            _ => self.step(rt, alloc, rules),
        }
        let after = bag_of(rt, alloc, &self.list);
        assert!(rt;
            bag_of(rt, alloc, &self.columns).is_same(&after),
            "another bag"
        );
    }
}
