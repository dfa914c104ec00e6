//! The plain derivation of a store.
use chr_base::bag::Bag;
use chr_base::derivation::Derivation;
use chr_base::weight::{DEFAULT_WEIGHT, Weight};
use chr_rewrite::plain::{plain_end, plain_rest};
use chr_testing::atoms::{atom, bag_of_values, step};
use chr_testing::texts::{MINIMUM, weighed_of};
use chr_weights::{Weighed, weight};
use std::alloc::Global;
use std::process::Abort;

fn store(rt: &impl Abort, alloc: Global, values: &[i64]) -> Bag {
    bag_of_values(alloc, values).expect(rt, "memory")
}

/// Whether the derivation has just these steps of the first rule, each on two values.
fn takes(derivation: &Derivation, heads: &[(i64, i64)]) -> bool {
    let mut all = derivation.steps.len() == heads.len();
    for (taken, (first, second)) in derivation.steps.iter().zip(heads) {
        all = all && *taken == step(1, &[atom(0, &[*first]), atom(0, &[*second])]);
    }
    all
}

/// The plain derivation of this store starts there, takes these steps, and ends in that store.
fn expect_plain(rt: &impl Abort, alloc: Global, weighed: &Weighed, start: &Bag, end: &Bag) {
    let derivation = plain_rest(alloc, weighed, start).expect(rt, "memory");
    assert!(rt; derivation.start.is_same(start) && takes(&derivation, &[(3, 5), (3, 9)]));
    let found = plain_end(alloc, weighed, start).expect(rt, "memory");
    assert!(rt; found.is_same(end));
}

/// The weight of a store of at most three atoms.
#[tactic(auto, using(chr_weights::proofs::WeightLaws::first_at_most, chr_weights::proofs::WeightLaws::second_at_most))]
fn weight_of(rt: &impl Abort, weighed: &Weighed, store: &Bag) -> Weight {
    assert!(rt; store.len() <= 3);
    weight(weighed, store)
}

const THREE: Weight = Weight {
    first: 3,
    second: 0,
};

#[test]
fn the_least_of_three_stays(rt: HostRuntime) {
    let alloc = rt.alloc();
    let weighed = weighed_of(alloc, MINIMUM).expect(&rt, "a program");
    let start = store(&rt, alloc, &[9, 3, 5]);
    let end = store(&rt, alloc, &[3]);
    expect_plain(&rt, alloc, &weighed, &start, &end);
    assert!(rt; weight_of(&rt, &weighed, &start) == THREE);
    assert!(rt; weight_of(&rt, &weighed, &end) == DEFAULT_WEIGHT);
}
