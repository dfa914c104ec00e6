//! Events at one replica: its minimum is found in part on a leased part, by a step that is named; and what came of a
//! lease is taken once, and of the replica's own program alone.
use crate::tests::said::{Said, says};
use crate::tests::texts::{accepted, op, store};
use crate::tests::worlds::answer;
use chr_acts::{Act, LeaseList, Reply};
use chr_base::bag::Bag;
use chr_base::derivation::Step;
use chr_join::{Done, Lease};
use chr_testing::atoms::{atom, step};
use chr_testing::texts::MINIMUM;
use chr_worlds::{Answer, Event, World};
use std::alloc::Global;
use std::process::Abort;
use std::thread::Threads;

/// The program of the least value, with another guard.
const STRICT: &str = ":- chr_constraint min/1. min(X) \\ min(Y) <=> X < Y | true.";

/// The program of the least value, with a name for its rule.
const NAMED: &str = ":- chr_constraint min/1. least @ min(X) \\ min(Y) <=> X =< Y | true.";

/// What happens, by values.
#[derive(Clone, Copy)]
enum Ask {
    /// The operation 1/1 is told.
    Tell(&'static [i64]),
    /// The step of the rule.
    Step([i64; 2]),
    Take(&'static [i64]),
    /// What came of the lease 1 of 5 and 9 under the program of this text is put back.
    Put(&'static str),
    Settle,
    Show,
    /// These steps are taken on the part that is leased out under 1.
    Work(&'static [[i64; 2]]),
}

/// The number of a replica, what it is asked, what is answered, and the pool of the first replica afterwards.
type Row = (u64, Ask, Said, &'static [i64]);

const EVENTS: [Row; 10] = [
    (1, Ask::Tell(&[5, 3, 9]), Said::New, &[3, 5, 9]),
    (1, Ask::Step([9, 5]), Said::Refused(39), &[3, 5, 9]),
    (1, Ask::Take(&[5, 9]), Said::Leased(1), &[3]),
    (1, Ask::Work(&[[9, 5]]), Said::Refused(39), &[3]),
    (1, Ask::Work(&[[5, 9]]), Said::WasPut, &[3, 5]),
    (1, Ask::Work(&[]), Said::Refused(36), &[3, 5]),
    (1, Ask::Show, Said::Refused(40), &[3, 5]),
    (2, Ask::Work(&[]), Said::Nobody, &[3, 5]),
    (1, Ask::Settle, Said::Settled(1), &[3]),
    (1, Ask::Show, Said::Shown(3), &[3]),
];

const RETURNS: [Row; 9] = [
    (1, Ask::Tell(&[3, 5, 9]), Said::New, &[3, 5, 9]),
    (1, Ask::Take(&[5, 9]), Said::Leased(1), &[3]),
    (1, Ask::Put(STRICT), Said::Refused(37), &[3]),
    (1, Ask::Put(NAMED), Said::Refused(37), &[3]),
    (1, Ask::Put(MINIMUM), Said::WasPut, &[3, 5]),
    (1, Ask::Put(MINIMUM), Said::Refused(36), &[3, 5]),
    (1, Ask::Put(STRICT), Said::Refused(36), &[3, 5]),
    (1, Ask::Settle, Said::Settled(1), &[3]),
    (1, Ask::Show, Said::Shown(3), &[3]),
];

fn step_on(heads: [i64; 2]) -> Step {
    let [kept, removed] = heads;
    step(1, &[atom(0, &[kept]), atom(0, &[removed])])
}

fn steps_on(rt: &impl Abort, alloc: Global, rows: &[[i64; 2]]) -> Vec<Step> {
    let mut steps = Vec::new(alloc);
    for heads in rows {
        steps.push(step_on(*heads)).expect(rt, "memory");
    }
    steps
}

/// What came of the lease 1 of 5 and 9 under the program of a text.
fn done(rt: &(impl Abort + Threads + Sync), alloc: Global, text: &str) -> Done {
    let lease = Lease {
        number: 1,
        part: store(rt, alloc, &[5, 9]),
    };
    let done = accepted(rt, alloc, text).rest_part(alloc, lease).ok();
    done.expect(rt, "memory")
}

fn event(rt: &(impl Abort + Threads + Sync), alloc: Global, replica: u64, ask: Ask) -> Event {
    match ask {
        Ask::Tell(values) => Event::At(replica, Act::Tell(op(rt, alloc, 1, 1, values))),
        Ask::Step(heads) => Event::At(replica, Act::Step(step_on(heads))),
        Ask::Take(values) => Event::At(replica, Act::Take(store(rt, alloc, values))),
        Ask::Put(text) => Event::At(replica, Act::Put(done(rt, alloc, text))),
        Ask::Settle => Event::At(replica, Act::Settle),
        Ask::Show => Event::At(replica, Act::Show),
        Ask::Work(rows) => Event::Work {
            replica,
            lease: 1,
            steps: steps_on(rt, alloc, rows),
        },
    }
}

fn events(rt: &(impl Abort + Threads + Sync), alloc: Global, rows: &[Row]) -> Vec<Event> {
    let mut events = Vec::new(alloc);
    for (replica, ask, _, _) in rows {
        let event = event(rt, alloc, *replica, *ask);
        events.push(event).expect(rt, "memory");
    }
    events
}

/// Whether an answer is that of a row.
fn is_said(answer: &Answer, said: Said) -> bool {
    match answer {
        Answer::Replied(reply) => says(reply, said),
        Answer::NoReplica => matches!(said, Said::Nobody),
        Answer::UnknownSymbol => false,
    }
}

fn world(rt: &(impl Abort + Threads + Sync), alloc: Global) -> World {
    World::open(alloc, accepted(rt, alloc, MINIMUM), 1).expect(rt, "memory")
}

/// The one part that is leased out.
fn whole(leases: &LeaseList) -> Option<&Bag> {
    match leases.as_slice() {
        [whole] => Some(&whole.part),
        _ => None,
    }
}

/// The replica's pool is this store. To be looked at, the whole pool is leased out.
fn has_pool(rt: &impl Abort, alloc: Global, world: &mut World, pool: &[i64]) {
    let answer = answer(rt, alloc, world, &Event::At(1, Act::TakeParts(1)));
    let part = match &answer {
        Answer::Replied(Reply::LeasedParts(leases)) => whole(leases),
        _ => None,
    };
    assert!(rt; part.expect(rt, "one part").is_same(&store(rt, alloc, pool)));
}

/// The world gives these answers to the events of these rows, in turn.
fn expect_answers(rt: &impl Abort, answers: &[Answer], rows: &[Row]) {
    assert!(rt; answers.len() == rows.len());
    for (answer, (_, _, said, _)) in answers.iter().zip(rows) {
        assert!(rt; is_said(answer, *said));
    }
}

/// What the world answers to these events, one by one.
fn answers(rt: &impl Abort, alloc: Global, world: &mut World, events: &[Event]) -> Vec<Answer> {
    let mut answers = Vec::new(alloc);
    for event in events {
        let answer = answer(rt, alloc, world, event);
        answers.push(answer).expect(rt, "memory");
    }
    answers
}

/// What the world answers to these events, played at once.
fn played(rt: &impl Abort, alloc: Global, world: &mut World, events: &[Event]) -> Vec<Answer> {
    let all = events.iter().all(|event| event.fits());
    assert!(rt; all, "one does not fit");
    world.play(alloc, events).ok().expect(rt, "memory")
}

/// A world gives the answers of these rows, one by one, and has the pool of the last one.
fn expect_rows(rt: &(impl Abort + Threads + Sync), alloc: Global, rows: &[Row], pool: &[i64]) {
    let mut world = world(rt, alloc);
    let events = events(rt, alloc, rows);
    expect_answers(rt, &answers(rt, alloc, &mut world, &events), rows);
    has_pool(rt, alloc, &mut world, pool);
}

/// So it is for the first row, for the first two, and so on.
fn expect_all(rt: &(impl Abort + Threads + Sync), alloc: Global, rows: &[Row]) {
    for (last, (_, _, _, pool)) in rows.iter().enumerate() {
        expect_rows(rt, alloc, &rows[..=last], pool);
    }
}

#[test]
fn events_happen_one_by_one(rt: HostRuntime) {
    expect_all(&rt, rt.alloc(), &EVENTS);
    expect_all(&rt, rt.alloc(), &RETURNS);
}

#[test]
fn events_are_played_at_once(rt: HostRuntime) {
    let alloc = rt.alloc();
    let mut world = world(&rt, alloc);
    let events = events(&rt, alloc, &EVENTS);
    expect_answers(&rt, &played(&rt, alloc, &mut world, &events), &EVENTS);
    has_pool(&rt, alloc, &mut world, &[3]);
}
