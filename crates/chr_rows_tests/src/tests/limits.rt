//! Limits by orders and inequalities, and the spans that they leave.
use arrayvec::ArrayVec;
use chr_base::atom::Atom;
use chr_base::limits::MAX_COMPARISONS;
use chr_base::rule::Rule;
use chr_base::term::Cmp;
use chr_indexes::ranges::Range;
use chr_plans::key::{Band, Limit, Order, Source, Span, order_of, read_span};
use chr_plans::plan::Partner;
use chr_plans::planning::plan_of;
use chr_testing::atoms::atom;
use chr_testing::texts::rule_of;
use std::alloc::Global;
use std::process::Abort;

/// The first argument of the first head.
const KNOWN: Source = Source::Argument {
    place: 0,
    column: 0,
};

/// A limit of this column by the first argument of the first head.
fn by_known(column: usize, cmp: Cmp) -> Limit {
    Limit {
        column,
        cmp,
        source: KNOWN,
    }
}

/// The span that limits leave under these heads.
fn span_under(heads: &[Atom], limits: &ArrayVec<Limit, MAX_COMPARISONS>) -> Span {
    let mut span = Span::default();
    read_span(heads, order_of(limits), limits, &mut span);
    span
}

/// The span that one limit of the second column leaves, by this value of the first head.
fn span_by(cmp: Cmp, value: i64) -> Span {
    let mut limits = ArrayVec::new();
    limits.push(by_known(1, cmp));
    span_under(&[atom(0, &[value])], &limits)
}

/// The span that two limits leave.
fn span_of_both(first: Limit, second: Limit) -> Span {
    let mut limits = ArrayVec::new();
    limits.push(first);
    limits.push(second);
    span_under(&[atom(0, &[7])], &limits)
}

fn range(least: Option<i64>, most: Option<i64>) -> Range {
    Range {
        least,
        most,
        except: None,
    }
}

/// This range of the one column.
fn alone(column: usize, range: Range) -> Span {
    Span {
        first: Band { column, range },
        second: Band::default(),
    }
}

/// These ends in the second column.
fn between(least: Option<i64>, most: Option<i64>) -> Span {
    alone(1, range(least, most))
}

/// A sign, a value, and the ends that it leaves.
type Row = (Cmp, i64, Option<i64>, Option<i64>);

fn expect_spans(rt: &impl Abort, rows: &[Row]) {
    for (cmp, value, least, most) in rows {
        assert!(rt;
            span_by(*cmp, *value) == between(*least, *most),
            "at {value}"
        );
    }
}

/// Signs with the ends that they leave. Where no value is below or above, the value at the end stays, and the rule
/// decides.
const SIGNS: [Row; 7] = [
    (Cmp::Less, 7, None, Some(6)),
    (Cmp::AtMost, 7, None, Some(7)),
    (Cmp::Greater, 7, Some(8), None),
    (Cmp::AtLeast, 7, Some(7), None),
    (Cmp::Equal, 7, None, None),
    (Cmp::Less, i64::MIN, None, Some(i64::MIN)),
    (Cmp::Greater, i64::MAX, Some(i64::MAX), None),
];

#[test]
fn each_sign_of_an_order_bounds_a_span(rt: HostRuntime) {
    expect_spans(&rt, &SIGNS);
}

#[test]
fn an_inequality_leaves_out_one_value(rt: HostRuntime) {
    assert!(rt; span_by(Cmp::NotEqual, 7) == alone(1, Range::default().but(7)));
}

/// A limit's sign and source.
type Bound = (Cmp, Source);

/// A limit of the second column.
fn second_by(bound: Bound) -> Limit {
    Limit {
        column: 1,
        cmp: bound.0,
        source: bound.1,
    }
}

/// Two limits of the second column, and the ends that they leave.
const BOTH: [(Bound, Bound, Option<i64>, Option<i64>); 4] = [
    (
        (Cmp::Greater, Source::Constant(3)),
        (Cmp::AtMost, KNOWN),
        Some(4),
        Some(7),
    ),
    (
        (Cmp::Less, KNOWN),
        (Cmp::Less, Source::Constant(4)),
        None,
        Some(3),
    ),
    (
        (Cmp::AtLeast, Source::Constant(7)),
        (Cmp::AtMost, KNOWN),
        Some(7),
        Some(7),
    ),
    (
        (Cmp::Greater, KNOWN),
        (Cmp::AtMost, KNOWN),
        Some(8),
        Some(7),
    ),
];

#[test]
fn limits_of_one_column_meet(rt: HostRuntime) {
    for (first, second, least, most) in BOTH {
        let span = span_of_both(second_by(first), second_by(second));
        assert!(rt; span == between(least, most));
    }
}

/// A limit's column and sign.
type Part = (usize, Cmp);

/// The order of three limits of these columns, each by this sign.
fn order_by(first: Part, second: Part, third: Part) -> Order {
    order_of(&[
        by_known(first.0, first.1),
        by_known(second.0, second.1),
        by_known(third.0, third.1),
    ])
}

const LESS: Cmp = Cmp::Less;

const OTHER: Cmp = Cmp::NotEqual;

const GREATER: Cmp = Cmp::Greater;

/// Three limits, and their order.
const ORDERS: [(Part, Part, Part, Order); 6] = [
    ((0, LESS), (1, LESS), (2, LESS), Order::ByBoth(0, 1)),
    ((0, OTHER), (1, LESS), (2, GREATER), Order::ByBoth(1, 2)),
    ((0, OTHER), (2, LESS), (2, GREATER), Order::ByBoth(2, 0)),
    ((2, OTHER), (2, LESS), (2, GREATER), Order::By(2)),
    ((1, OTHER), (1, OTHER), (0, OTHER), Order::ByBoth(1, 0)),
    ((1, OTHER), (1, OTHER), (1, OTHER), Order::By(1)),
];

#[test]
fn orders_come_before_inequalities(rt: HostRuntime) {
    for (first, second, third, order) in ORDERS {
        assert!(rt; order_by(first, second, third) == order);
    }
}

const WITHIN: &str =
    ":- chr_constraint range/2, at/1. range(L, H) \\ at(X) <=> L =< X, X < H | true.";

/// Its rule leaves one row at rest.
const LEAST: &str = ":- chr_constraint min/1. min(X) \\ min(Y) <=> X =< Y | true.";

/// `L =< X`, where `L` is in the first column and `X` is known; and `X < H`, where `H` is in the second.
const BOTH_COLUMNS: [Limit; 2] = [
    Limit {
        column: 0,
        cmp: Cmp::AtMost,
        source: HELD,
    },
    Limit {
        column: 1,
        cmp: Cmp::Greater,
        source: HELD,
    },
];

/// The first argument of the second head.
const HELD: Source = Source::Argument {
    place: 1,
    column: 0,
};

/// The only partner that an atom at a place of the text's last rule wants.
fn only(rt: &impl Abort, alloc: Global, text: &str, place: usize) -> Partner {
    let rule: Rule = rule_of(alloc, text).expect(rt, "a rule");
    assert!(rt; place < rule.places());
    let plan = plan_of(&rule, place);
    assert!(rt; plan.len() == 1);
    plan[0].copy()
}

/// A text, a place, and the limits and the order of the only partner that an atom there wants.
type Planned = (&'static str, usize, &'static [Limit], Order);

/// Both columns of a partner are limited; what leaves one row needs no limit.
const PLANNED: [Planned; 3] = [
    (WITHIN, 1, &BOTH_COLUMNS, Order::ByBoth(0, 1)),
    (LEAST, 0, &[], Order::Unordered),
    (LEAST, 1, &[], Order::Unordered),
];

fn expect_planned(rt: &impl Abort, alloc: Global, rows: &[Planned]) {
    for (text, place, limits, order) in rows {
        let partner = only(rt, alloc, text, *place);
        assert!(rt; partner.limits.as_slice() == *limits, "{text}");
        assert!(rt; partner.order == *order, "{text}");
    }
}

#[test]
fn partners_are_limited(rt: HostRuntime) {
    expect_planned(&rt, rt.alloc(), &PLANNED);
}
