//! Random events happen to worlds and to a slow model of them. Both give the same replies, and all replicas end in one
//! store.
use crate::tests::model::replica::{Replica, has_merged};
use crate::tests::random::acts::Asker;
use crate::tests::random::tally::Tally;
use crate::tests::worlds::{answer, four};
use chr_acts::{Act, Reply};
use chr_worlds::{Answer, Event, World};
use std::alloc::Global;
use std::process::Abort;

/// How many events happen to each world before those of its end.
const EVENTS: u32 = 60;

/// How many worlds are played.
const WORLDS: u64 = 1_000;

/// How many replicas a world has. A number more is that of none.
const REPLICAS: usize = 4;

/// A world and its model.
#[derive(Drop)]
struct Game {
    world: World,
    replicas: Vec<Replica>,
    asker: Asker,
    tally: Tally,
}

fn number(place: usize) -> u64 {
    (place as u64).wrapping_add(1)
}

/// What the world answers to an event. The asker learns of it.
fn happens(rt: &impl Abort, alloc: Global, game: &mut Game, event: &Event) -> Option<Reply> {
    match answer(rt, alloc, &mut game.world, event) {
        Answer::Replied(reply) => {
            game.asker.learn(rt, alloc, game.world.program(), &reply);
            game.tally.add(&reply);
            Some(reply)
        }
        _ => None,
    }
}

/// Asks the replica at a place. There is a reply where the model has one, and it is that.
fn ask(rt: &impl Abort, alloc: Global, game: &mut Game, place: usize, act: Act) {
    let event = Event::At(number(place), act);
    let reply = happens(rt, alloc, game, &event);
    let is_expected = match (game.replicas.get_mut(place), &event, &reply) {
        (Some(replica), Event::At(_, act), Some(reply)) => replica.replies(rt, act, reply),
        (None, _, None) => true,
        _ => false,
    };
    assert!(rt; is_expected, "another reply");
}

/// The operations of the replica at a place of the model, or none where there is no such replica.
fn held_by(rt: &impl Abort, alloc: Global, game: &Game, place: usize) -> Replica {
    let mut held = Replica::new(alloc);
    if let Some(replica) = game.replicas.get(place) {
        held.take_all_of(rt, replica);
    }
    held
}

/// Has the replica at one place take in what that at another holds.
fn exchange(rt: &impl Abort, alloc: Global, game: &mut Game, giver: usize, taker: usize) {
    let given = held_by(rt, alloc, game, giver);
    let event = Event::Sync(number(giver), number(taker));
    let reply = happens(rt, alloc, game, &event);
    let is_expected = match (game.replicas.get_mut(taker), &reply) {
        (Some(taker), Some(reply)) => {
            giver < REPLICAS && has_merged(reply, taker.take_all_of(rt, &given))
        }
        (_, None) => giver >= REPLICAS || taker >= REPLICAS,
        _ => false,
    };
    assert!(rt; is_expected, "another exchange");
}

/// Lets one event happen, now and then with a replica that isn't there.
fn play_one(rt: &impl Abort, alloc: Global, game: &mut Game) {
    let place = game.asker.random.below(REPLICAS * 6) % (REPLICAS + 1);
    if game.asker.random.below(8) == 0 {
        let other = game.asker.random.below(REPLICAS + 1);
        exchange(rt, alloc, game, place, other);
    } else {
        game.asker.origin = game.asker.random.below(3) as u32;
        let act = game.asker.act(rt, alloc);
        ask(rt, alloc, game, place, act);
    }
}

fn least_lease(game: &Game, place: usize) -> Option<u64> {
    match game.replicas.get(place) {
        Some(replica) => replica.least_lease(),
        None => None,
    }
}

/// All parts that are out come back.
fn recall_all(rt: &impl Abort, alloc: Global, game: &mut Game, place: usize) {
    for _ in 0..1_000 {
        match least_lease(game, place) {
            Some(lease) => ask(rt, alloc, game, place, Act::Recall(lease)),
            None => return,
        }
    }
}

/// A replica takes in what the others hold, and comes to rest and shows its store.
fn end_one(rt: &impl Abort, alloc: Global, game: &mut Game, place: usize) {
    recall_all(rt, alloc, game, place);
    for giver in 0..REPLICAS {
        exchange(rt, alloc, game, giver, place);
    }
    ask(rt, alloc, game, place, Act::Settle);
    ask(rt, alloc, game, place, Act::Show);
}

/// Whether all replicas hold the same operations in the end. Then they have come to one store.
fn agree(rt: &impl Abort, replicas: &[Replica]) -> bool {
    let [first, others @ ..] = replicas else {
        return false;
    };
    for other in others {
        if !first.has_operations_of(other) {
            return false;
        }
        assert!(rt; other.ends_as(first), "two stores");
    }
    true
}

/// The replicas of the model to which nothing has happened.
fn replicas(rt: &impl Abort, alloc: Global) -> Vec<Replica> {
    let mut replicas = Vec::new(alloc);
    for _ in 0..REPLICAS {
        replicas.push(Replica::new(alloc)).expect(rt, "memory");
    }
    replicas
}

/// Plays a world to its end, and answers whether its replicas agree there.
fn play(rt: &impl Abort, alloc: Global, game: &mut Game) -> bool {
    for _ in 0..EVENTS {
        play_one(rt, alloc, game);
    }
    for place in 0..2 * REPLICAS {
        end_one(rt, alloc, game, place % REPLICAS);
    }
    agree(rt, &game.replicas)
}

/// Each kind of reply has to come at least once in ten worlds.
#[test]
fn worlds_follow_the_model(rt: HostRuntime) {
    let alloc = rt.alloc();
    let mut tally = Tally::new();
    let mut agreed = 0u32;
    for seed in 0..WORLDS {
        let mut game = Game {
            world: four(&rt, alloc),
            replicas: replicas(&rt, alloc),
            asker: Asker::new(seed, 0),
            tally,
        };
        agreed = agreed.wrapping_add(u32::from(play(&rt, alloc, &mut game)));
        tally = game.tally;
    }
    assert!(rt;
        tally.kinds(WORLDS as u32 / 10) == 18 && agreed >= 100,
        "{agreed}"
    );
}
