//! What lines ask.
ghost use Rattle.std.specs.Prelude.{◌≡◌, ◌≤◌, Some, length, map};
ghost use Rattle.std.specs.Option.{ok_or};
ghost use Rattle.serde_json.specs.View.{view as data_of};
ghost use Rattle.chr_base.specs.declared.limits.TheConstants.{MAX_ARITY};
ghost use Rattle.chr_base.specs.Programs.{declarations};
ghost use Rattle.chr_base.specs.Traversals.{each};
ghost use Rattle.chr_json.specs.Reads.{raw_atom_view};
ghost use Rattle.serde_json.specs.Find.{as_str};
ghost use Rattle.chr_node_lines.specs.Asked.{alone, asked_by, atoms_told, cause_of_atoms, cause_of_name};
ghost use Rattle.chr_node_lines.specs.Asked.{declared_pattern, Gives, has_name, line_asks, pattern_of, request_view};
ghost use Rattle.chr_node_lines.specs.Asked.{shown_by, shown_name, sought_by, told_by, value_asks, wanted_of};

use crate::fault::Refusal;
use crate::values::id_value;
use crate::word::{Word, word_in};
use arrayvec::ArrayVec;
use chr_base::atom::SymbolId;
use chr_base::limits::MAX_ARITY;
use chr_base::program::Program;
use chr_exchange::declared_operation;
use chr_json::{MAX_LINE, RawAtom, elements, operation_in, value_in};
use chr_ops::{Op, OpId};
use chr_queries::Wanted;
use serde_json::Value;
use std::alloc::Global;

/// What a line asks, in atoms of the program.
#[derive(Drop)]
pub enum Request {
    /// To tell an operation, under this number where the caller says which one it expects, from 1.
    Tell(Option<u64>, Op),
    /// The number of the operation that was told last.
    Last,
    /// The atoms of one name, or all.
    Show(Option<String>),
    /// The atoms that are wanted.
    Find(Wanted),
    /// How many atoms are wanted.
    Count(Wanted),
    /// What came and went since it was asked last.
    Changes,
    /// How the node is.
    Status,
}

/// Whether some symbol has this name.
fn has_name(program: &Program, name: &str) -> bool
    ensures { result ≡ has_name (declarations program.now) name.now }
{
    for place in 0..program.symbols() {
        if program.name_of(SymbolId(place as u16)) == name {
            return true;
        }
    }
    false
}

/// Why there is no symbol of this name with some number of arguments.
fn cause_of_name(program: &Program, name: &str) -> Refusal
    ensures { result ≡ cause_of_name (declarations program.now) name.now }
{
    if has_name(program, name) {
        Refusal::WrongArity
    } else {
        Refusal::UnknownSymbol
    }
}

/// The cause of the first atom that is not declared.
fn cause_of_atoms(program: &Program, words: &[RawAtom]) -> Refusal
    ensures { result ≡ cause_of_atoms (declarations program.now) (map raw_atom_view words.now) }
{
    for word in words {
        let name = word.name.as_str();
        if program.symbol(name, word.args.len()).is_none() {
            return cause_of_name(program, name);
        }
    }
    Refusal::UnknownSymbol
}

/// To tell the operation of an id and atoms.
#[tactic(auto, using(crate::proofs::Asking::operation_is))]
fn atoms_told(
    alloc: Global,
    program: &Program,
    id: OpId,
    expected: Option<u64>,
    atoms: &Value,
) -> Result<Request, Refusal>
    ensures { Gives request_view result (atoms_told (declarations program.now) id expected (data_of atoms.now)) }
{
    let name = id_value(alloc, id)?;
    let raw = operation_in(alloc, &name, atoms)?;
    match declared_operation(alloc, program, &raw)? {
        Some(op) => Ok(Request::Tell(expected, op)),
        None => Err(cause_of_atoms(program, &raw.atoms)),
    }
}

/// To tell atoms, which may stand behind a number.
fn told(alloc: Global, program: &Program, id: OpId, args: &[Value]) -> Result<Request, Refusal>
    ensures { Gives request_view result (told_by (declarations program.now) id (map data_of args.now)) }
{
    let Some((first, rest)) = args.split_first() else {
        return Err(Refusal::WrongArguments);
    };
    let Some((atoms, more)) = rest.split_first() else {
        return atoms_told(alloc, program, id, None, first);
    };
    if let Some(_) = more.split_first() {
        return Err(Refusal::WrongArguments);
    }
    match first.as_u64() {
        Some(number) => atoms_told(alloc, program, id, Some(number), atoms),
        None => Err(Refusal::WrongArguments),
    }
}

/// To show the atoms of a name.
fn shown_name(alloc: Global, program: &Program, name: &Value) -> Result<Request, Refusal>
    ensures { Gives request_view result (shown_name (declarations program.now) (as_str (data_of name.now))) }
{
    let Some(name) = name.as_str() else {
        return Err(Refusal::WrongArguments);
    };
    if !has_name(program, name) {
        return Err(Refusal::UnknownSymbol);
    }
    Ok(Request::Show(Some(String::from_str(alloc, name)?)))
}

/// To show all atoms, or those of a name.
fn shown(alloc: Global, program: &Program, args: &[Value]) -> Result<Request, Refusal>
    ensures { Gives request_view result (shown_by (declarations program.now) (map data_of args.now)) }
{
    let Some((name, more)) = args.split_first() else {
        return Ok(Request::Show(None));
    };
    match more.split_first() {
        None => shown_name(alloc, program, name),
        Some(_) => Err(Refusal::WrongArguments),
    }
}

/// The value that is wanted, or none where any will do; nothing where the value says neither.
fn wanted(value: &Value) -> Option<Option<i64>>
    ensures { result ≡ wanted_of (data_of value.now) }
{
    if value.is_null() {
        return Some(None);
    }
    Some(Some(value.as_i64()?))
}

/// The values that are wanted, one after another.
fn all_wanted(alloc: Global, values: &[Value]) -> Result<Vec<Option<i64>>, Refusal>
    ensures { Gives (λ v. v.items) result
        (ok_or (each wanted_of (map data_of values.now)) Refusal.WrongArguments) }
{
    let mut found = Vec::new(alloc);
    for value in values {
        let Some(wanted) = wanted(value) else {
            return Err(Refusal::WrongArguments);
        };
        found.push(wanted)?;
    }
    Ok(found)
}

/// Places for these values, at most [`MAX_ARITY`] of them.
fn places_of(values: &[Option<i64>]) -> ArrayVec<Option<i64>, MAX_ARITY>
    requires { length values.now ≤ MAX_ARITY }
    ensures { result.items ≡ values.now }
{
    let mut places = ArrayVec::new();
    for value in values {
        places.push(*value);
    }
    places
}

/// What a symbol's name and wanted values want.
fn declared_pattern(
    program: &Program,
    name: &str,
    values: &[Option<i64>],
) -> Result<Wanted, Refusal>
    ensures { Gives (λ w. w) result (declared_pattern (declarations program.now)
        (Some (record { name = name.now; args = values.now }))) }
{
    match program.symbol(name, values.len()) {
        Some(symbol) => Ok(Wanted {
            symbol,
            places: places_of(values),
        }),
        None => Err(cause_of_name(program, name)),
    }
}

/// What an array of a name and wanted values wants.
fn pattern(alloc: Global, program: &Program, value: &Value) -> Result<Wanted, Refusal>
    ensures { Gives (λ w. w) result
        (declared_pattern (declarations program.now) (pattern_of (data_of value.now))) }
{
    let Some([first, rest @ ..]) = elements(value) else {
        return Err(Refusal::WrongArguments);
    };
    let Some(name) = first.as_str() else {
        return Err(Refusal::WrongArguments);
    };
    let values = all_wanted(alloc, rest)?;
    declared_pattern(program, name, &values)
}

/// What the pattern that a word takes wants.
fn sought(alloc: Global, program: &Program, args: &[Value]) -> Result<Wanted, Refusal>
    ensures { Gives (λ w. w) result (sought_by (declarations program.now) (map data_of args.now)) }
{
    let Some((value, more)) = args.split_first() else {
        return Err(Refusal::WrongArguments);
    };
    match more.split_first() {
        None => pattern(alloc, program, value),
        Some(_) => Err(Refusal::WrongArguments),
    }
}

/// What a word that takes nothing asks.
fn alone(request: Request, args: &[Value]) -> Result<Request, Refusal>
    ensures { Gives request_view result (alone (request_view request) (map data_of args.now)) }
{
    if args.is_empty() {
        Ok(request)
    } else {
        Err(Refusal::WrongArguments)
    }
}

/// What a word asks.
fn word_request(
    alloc: Global,
    program: &Program,
    id: OpId,
    word: Word,
    args: &[Value],
) -> Result<Request, Refusal>
    ensures { Gives request_view result (asked_by (declarations program.now) id word (map data_of args.now)) }
{
    match word {
        Word::Tell => told(alloc, program, id, args),
        Word::Last => alone(Request::Last, args),
        Word::Show => shown(alloc, program, args),
        Word::Find => Ok(Request::Find(sought(alloc, program, args)?)),
        Word::Count => Ok(Request::Count(sought(alloc, program, args)?)),
        Word::Changes => alone(Request::Changes, args),
        Word::Status => alone(Request::Status, args),
    }
}

/// What a JSON value asks.
fn value_request(
    alloc: Global,
    program: &Program,
    id: OpId,
    value: &Value,
) -> Result<Request, Refusal>
    ensures { Gives request_view result (value_asks (declarations program.now) id (data_of value.now)) }
{
    let Some([first, args @ ..]) = elements(value) else {
        return Err(Refusal::NoWord);
    };
    match word_in(first) {
        Some(word) => word_request(alloc, program, id, word, args),
        None => Err(Refusal::NoWord),
    }
}

/// What a line asks of a node whose next operation has this id. The line comes without its end.
///
/// # Errors
///
/// `BadLine` where the line has more than [`MAX_LINE`] bytes or is no JSON value, `NoWord` where it is no array that
/// begins with a word, `WrongArguments` where the word takes others; for the first name of an atom or a pattern that
/// the program doesn't declare with that number of arguments, `WrongArity` where it declares the name with another
/// number, and else `UnknownSymbol`, as for a name to show; and `Memory`, which says nothing of the line.
pub fn request_of(
    alloc: Global,
    program: &Program,
    id: OpId,
    line: &[u8],
) -> Result<Request, Refusal>
    ensures { Gives request_view result (line_asks (declarations program.now) id line.now) }
{
    if line.len() > MAX_LINE {
        return Err(Refusal::BadLine);
    }
    let value = value_in(alloc, line)?;
    value_request(alloc, program, id, &value)
}
