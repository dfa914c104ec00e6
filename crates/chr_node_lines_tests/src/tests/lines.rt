//! What lines ask, answered by something that has shown one store and was told nothing since.
use chr_base::bag::Bag;
use chr_base::program::Program;
use chr_node_lines::{FileSize, LeftFile, Reply, Request, Status, push_reply, request_of};
use chr_ops::OpId;
use chr_queries::{changes_between, count, find};
use std::alloc::Global;
use std::process::Abort;

/// Declares `path/3`, `path/1` and `coin/0`.
fn three_symbols(rt: &impl Abort, alloc: Global) -> Program {
    let mut program = Program::empty(alloc);
    program.declare("path", 3).expect(rt, "memory");
    program.declare("path", 1).expect(rt, "memory");
    program.declare("coin", 0).expect(rt, "memory");
    program
}

/// The next operation of the origin 7.
fn next_id() -> OpId {
    OpId {
        origin: 7,
        number: 101,
    }
}

/// Adds an atom that the program declares.
fn add(rt: &impl Abort, program: &Program, store: &mut Bag, name: &str, args: &[i64]) {
    let atom = program.atom(name, args).expect(rt, "not declared");
    store.add(atom).expect(rt, "memory");
}

/// Two paths and two equal coins.
fn four_atoms(rt: &impl Abort, alloc: Global, program: &Program) -> Bag {
    let mut store = Bag::new(alloc);
    add(rt, program, &mut store, "path", &[2, 3, -1]);
    add(rt, program, &mut store, "path", &[1, 2, 7]);
    add(rt, program, &mut store, "coin", &[]);
    add(rt, program, &mut store, "coin", &[]);
    store
}

fn text(rt: &impl Abort, alloc: Global, text: &str) -> String {
    String::from_str(alloc, text).expect(rt, "memory")
}

/// One file that was read, and one that was left.
fn some_status(rt: &impl Abort, alloc: Global) -> Status {
    let mut feeds = Vec::new(alloc);
    let name = text(rt, alloc, "a \"1\"");
    feeds.push(FileSize { name, size: 12 }).expect(rt, "memory");
    let mut left = Vec::new(alloc);
    let name = text(rt, alloc, "b");
    let cause = text(rt, alloc, "no feed");
    left.push(LeftFile { name, cause }).expect(rt, "memory");
    Status {
        feeds,
        left,
        told: 5,
        at_rest: 4,
    }
}

/// The reply to a request. A number that is expected is answered as one that was told, and a name by no atoms.
fn reply_to(rt: &impl Abort, alloc: Global, store: &Bag, request: Request) -> Reply {
    match request {
        Request::Tell(None, op) => Reply::Told(op.id()),
        Request::Tell(Some(number), op) => Reply::Again(OpId {
            origin: op.id().origin,
            number,
        }),
        Request::Last => Reply::Last(2),
        Request::Show(None) => Reply::Store(store.copy(alloc).expect(rt, "memory")),
        Request::Show(Some(_)) => Reply::Store(Bag::new(alloc)),
        Request::Find(wanted) => Reply::Found(find(alloc, store, &wanted).expect(rt, "memory")),
        Request::Count(wanted) => Reply::Count(count(store, &wanted) as u64),
        Request::Changes => {
            let earlier = Bag::new(alloc);
            Reply::Changed(changes_between(alloc, &earlier, store).expect(rt, "memory"))
        }
        Request::Status => Reply::Status(some_status(rt, alloc)),
    }
}

/// The text of the reply to a line.
fn answer(rt: &impl Abort, alloc: Global, program: &Program, store: &Bag, line: &str) -> String {
    let reply = match request_of(alloc, program, next_id(), line.as_bytes()) {
        Ok(request) => reply_to(rt, alloc, store, request),
        Err(refusal) => Reply::Refused(refusal),
    };
    let mut out = String::new(alloc);
    push_reply(alloc, &mut out, program, &reply).expect(rt, "memory");
    out
}

/// Compares the reply to each line with the text beside it.
fn expect_answers(rt: &impl Abort, alloc: Global, rows: &[(&str, &str)]) {
    let program = three_symbols(rt, alloc);
    let store = four_atoms(rt, alloc, &program);
    for (line, expected) in rows {
        let found = answer(rt, alloc, &program, &store, line);
        assert!(rt; found.as_str() == *expected, "at {line}: {found}");
    }
}

const BAD_LINE: &str = "[\"refused\",30,\"the line is no JSON value of at most 1048576 bytes\"]";

const NO_WORD: &str = "[\"refused\",31,\"the line is no array that begins with a word of a node\"]";

const UNKNOWN: &str = "[\"refused\",32,\"the program declares no symbol of this name\"]";

const ARGUMENTS: &str = "[\"refused\",43,\"the word takes other arguments\"]";

const ARITY: &str =
    "[\"refused\",44,\"the program declares this name with another number of arguments\"]";

const ROWS: [(&str, &str); 39] = [
    // What is told has the next id, or the number that the line says.
    (
        "[\"tell\",[[\"path\",2,3,-1],[\"coin\"]]]",
        "[\"told\",[7,101]]",
    ),
    ("[\"tell\",2,[[\"coin\"]]]", "[\"again\",[7,2]]"),
    (" [ \"tell\", 0, [ [\"coin\"] ] ] ", "[\"again\",[7,0]]"),
    ("[\"last\"]", "[\"last\",2]"),
    // Stores are told in the order in which they are printed: by names, and then by arguments.
    (
        "[\"show\"]",
        "[\"store\",[[\"coin\"],[\"coin\"],[\"path\",1,2,7],[\"path\",2,3,-1]]]",
    ),
    ("[\"show\",\"path\"]", "[\"store\",[]]"),
    (
        "[\"find\",[\"path\",1,null,null]]",
        "[\"found\",[[\"path\",1,2,7]]]",
    ),
    (
        "[\"find\",[\"path\",null,3,-1]]",
        "[\"found\",[[\"path\",2,3,-1]]]",
    ),
    ("[\"find\",[\"path\",1]]", "[\"found\",[]]"),
    ("[\"count\",[\"path\",null,null,null]]", "[\"count\",2]"),
    ("[\"count\",[\"path\",2,null,7]]", "[\"count\",0]"),
    ("[\"count\",[\"coin\"]]", "[\"count\",2]"),
    (
        "[\"changes\"]",
        "[\"changed\",[[\"coin\"],[\"coin\"],[\"path\",1,2,7],[\"path\",2,3,-1]],[]]",
    ),
    (
        "[\"status\"]",
        "[\"status\",[[\"a \\\"1\\\"\",12]],[[\"b\",\"no feed\"]],5,4]",
    ),
    ("", BAD_LINE),
    ("[\"last\"", BAD_LINE),
    ("{\"last\":1}", NO_WORD),
    ("[]", NO_WORD),
    ("[1]", NO_WORD),
    ("[\"wait\"]", NO_WORD),
    ("[\"tell\"]", ARGUMENTS),
    ("[\"tell\",[]]", ARGUMENTS),
    ("[\"tell\",[\"coin\"]]", ARGUMENTS),
    ("[\"tell\",-1,[[\"coin\"]]]", ARGUMENTS),
    ("[\"tell\",1,[[\"coin\"]],2]", ARGUMENTS),
    ("[\"last\",1]", ARGUMENTS),
    ("[\"show\",1]", ARGUMENTS),
    ("[\"show\",\"path\",1]", ARGUMENTS),
    ("[\"find\"]", ARGUMENTS),
    ("[\"find\",[\"path\",1.5]]", ARGUMENTS),
    ("[\"count\",[\"path\",1],[]]", ARGUMENTS),
    ("[\"changes\",null]", ARGUMENTS),
    ("[\"status\",null]", ARGUMENTS),
    ("[\"tell\",[[\"coin\"],[\"way\",1]]]", UNKNOWN),
    ("[\"show\",\"way\"]", UNKNOWN),
    ("[\"find\",[\"way\"]]", UNKNOWN),
    ("[\"tell\",[[\"path\",1],[\"path\",1,2]]]", ARITY),
    ("[\"count\",[\"coin\",null]]", ARITY),
    ("[\"count\",[\"path\",1,2,3,4,5,6,7,8,9,10]]", ARITY),
];

#[test]
fn lines_have_their_answers(rt: HostRuntime) {
    expect_answers(&rt, rt.alloc(), &ROWS);
}
