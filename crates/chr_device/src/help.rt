//! What the program and its commands say of themselves where they are asked for help.

/// A text of help, with the exit statuses behind it.
macro_rules! with_statuses {
    ($text:literal) => {
        concat!(
            $text,
            "\n\nExit status: 0 the program is accepted, 1 it is refused, 2 these words are no command (also after help),\n",
            "3 the input could not be read or the output not be written, 4 memory ran out"
        )
    };
}

/// The program's version.
pub(crate) const VERSION: &str = "0.1.0";

/// What the program is for.
pub(crate) const PROGRAM: &str =
    "Keeps facts by the rules of a program of Constraint Handling Rules, and tells whether the rules agree";

/// What all commands read and write.
pub(crate) const PROGRAM_MORE: &str = with_statuses!(
    "Each command reads standard input and writes to standard output. It takes no name of a file:

  chrrep run < FILE

The input is a program text. After it may stand a line `---`, and then command lines, each a JSON array.

One command more keeps facts in a folder, where they last, and has words of its own: chrrep node --help"
);

/// What `check` is for.
pub(crate) const CHECK: &str = "Tell whether a program is accepted";

/// What `check` reads and writes.
pub(crate) const CHECK_MORE: &str = with_statuses!(
    "Reads standard input: a program text, to a line `---` or to the end. What stands behind that line isn't looked at.
Writes one line: `accepted: rules R, cases C`, or `refused N: ..`, where N is the reason. A program refused as 22 may be
decided with --wide.

Example: chrrep check < FILE
         chrrep check --wide < FILE"
);

/// What `explain` is for.
pub(crate) const EXPLAIN: &str =
    "Tell why a program is accepted, or what is wrong with it and where";

/// What `explain` reads and writes.
pub(crate) const EXPLAIN_MORE: &str = with_statuses!(
    "Reads what `check` reads. Writes the verdict as sentences: where a text is wrong and what would be right, or the rules
that disagree and how; with --html a page with pictures, with --dot a drawing for Graphviz. Of a program that `check`
refuses as 22 it tells what `check --wide` says too.

Example: chrrep explain < FILE
         chrrep explain --wide < FILE
         chrrep explain --html < FILE > FILE.html
         chrrep explain --dot < FILE | dot -Tsvg > FILE.svg"
);

/// What `--dot` is for.
pub(crate) const DOT: &str = "Write a drawing for Graphviz";

/// What `--html` is for.
pub(crate) const HTML: &str = "Write a page that stands alone, for a browser";

/// What `--all` is for.
pub(crate) const ALL: &str = "Write a line for each pair of rules, however many there are";

/// What `run` is for.
pub(crate) const RUN: &str = "Tell that, and answer the command lines when the input has ended";

/// What `run` reads and writes.
pub(crate) const RUN_MORE: &str = with_statuses!(
    "Reads all of standard input: a program text, a line `---`, and command lines, each a JSON array. Then it writes the line
that `check` writes, and for an accepted program one answer line a command. A program refused as 22 may be decided with
--wide. The output is the same for any number of workers and of parts.

Example: chrrep run < FILE
         chrrep run --replicas 3 < FILE
         chrrep run --workers 4 --parts 16 < FILE"
);

/// What `serve` is for.
pub(crate) const SERVE: &str = "Do the same, and answer each command line as soon as it was read";

/// What `serve` reads and writes.
pub(crate) const SERVE_MORE: &str = with_statuses!(
    "Reads and writes what `run` does, line by line: the verdict once the line `---` was read, and the answer of each command
before the next one is waited for. A program refused as 22 may be decided with --wide. The output is the same for any
number of workers and of parts.

Example: cat FILE - | chrrep serve"
);

/// What `--wide` is for.
pub(crate) const WIDE: &str = "Decide by the columns that rules compare: more programs are decided";

/// What `--replicas` is for.
pub(crate) const REPLICAS: &str = "How many replicas there are, 1 to 16 [default: 1]";

/// What `--workers` is for.
pub(crate) const WORKERS: &str =
    "How many threads bring a store to rest, 1 to 16, where many facts came in [default: 1]";

/// What `--parts` is for.
pub(crate) const PARTS: &str =
    "How many parts a store is cut into for the workers, 1 to 64 [default: 1]";
