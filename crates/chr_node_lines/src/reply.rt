//! What a node answers.
ghost use Rattle.std.specs.Prelude.{◌≡◌, ◌++◌, [], ◌∷◌, IfOk, OnOk, OnErr, map, string_bytes};
ghost use Rattle.serde_json.specs.Data.{string};
ghost use Rattle.serde_json.specs.View.{view as data_of};
ghost use Rattle.serde_json.specs.Written.{compact_text};
ghost use Rattle.chr_base.specs.Programs.{declarations};
ghost use Rattle.chr_exchange.specs.Texts.{spelt_atom};
ghost use Rattle.chr_json.specs.Messages.{array_data};
ghost use Rattle.chr_json.specs.Printed.{argument_data, atom_data, atoms_data};
ghost use Rattle.chr_node_lines.specs.Replies.{file_data, left_data, reply_data, status_data, store_data};

use crate::fault::Refusal;
use crate::values::{id_value, text_value};
use chr_base::atom::Atom;
use chr_base::bag::Bag;
use chr_base::program::Program;
use chr_base::text::in_print_order;
use chr_ops::OpId;
use chr_queries::{Changes, name_of};
use serde_json::Value;
use std::alloc::{AllocError, Global};

/// A file of a node's folder that it has read.
#[derive(Drop)]
pub struct FileSize {
    pub name: String,
    /// The bytes of its whole records.
    pub size: u64,
}

/// A file of a node's folder that it has left alone.
#[derive(Drop)]
pub struct LeftFile {
    pub name: String,
    /// Why, in words.
    pub cause: String,
}

/// How a node is.
#[derive(Drop)]
pub struct Status {
    /// The files that it has read.
    pub feeds: Vec<FileSize>,
    /// The files that it has left alone.
    pub left: Vec<LeftFile>,
    /// How many atoms it was told, in all its runs and by others.
    pub told: u64,
    /// How many atoms its store at rest has.
    pub at_rest: u64,
}

/// The answer to a line.
#[derive(Drop)]
pub enum Reply {
    /// The operation that was told has this id.
    Told(OpId),
    /// The operation was told already, under this id.
    Again(OpId),
    /// How many operations were told in this run.
    Last(u64),
    /// Atoms of the store at rest.
    Store(Bag),
    /// The atoms that are wanted.
    Found(Bag),
    /// How many atoms are wanted.
    Count(u64),
    /// What came and went.
    Changed(Changes),
    /// How the node is.
    Status(Status),
    /// Nothing was done.
    Refused(Refusal),
}

/// The arguments of an atom behind its name.
fn push_arguments(parts: &mut Vec<Value>, values: &[i64]) -> Result<(), AllocError>
    ensures { OnOk result (map data_of parts.new.items
        ≡ map data_of parts.old.items ++ map argument_data values.now) }
{
    for value in values {
        parts.push(Value::from(*value))?;
    }
    Ok(())
}

/// An atom as an array of its name and its arguments.
fn atom_value(alloc: Global, program: &Program, atom: &Atom) -> Result<Value, AllocError>
    ensures { IfOk result (λ v. data_of v ≡ atom_data (spelt_atom (declarations program.now) atom.now)) }
{
    let mut parts = Vec::with_capacity(alloc, 1 + atom.args.len())?;
    parts.push(text_value(alloc, name_of(program, atom))?)?;
    push_arguments(&mut parts, &atom.args)?;
    Ok(Value::Array(parts))
}

/// Atoms as an array.
fn atoms_value(alloc: Global, program: &Program, atoms: &[Atom]) -> Result<Value, AllocError>
    ensures { IfOk result (λ v. data_of v
        ≡ atoms_data (map (spelt_atom (declarations program.now)) atoms.now)) }
{
    let mut items = Vec::with_capacity(alloc, atoms.len())?;
    for atom in atoms {
        items.push(atom_value(alloc, program, atom)?)?;
    }
    Ok(Value::Array(items))
}

/// The atoms of a store as an array, in the order in which stores are printed.
fn store_value(alloc: Global, program: &Program, store: &Bag) -> Result<Value, AllocError>
    ensures { IfOk result (λ v. data_of v ≡ store_data (declarations program.now) store.now) }
{
    let atoms = in_print_order(alloc, program, store)?;
    atoms_value(alloc, program, &atoms)
}

/// An array of a word and one value.
fn with_one(alloc: Global, word: &str, value: Value) -> Result<Value, AllocError>
    ensures { IfOk result (λ v. data_of v ≡ array_data (string word.now ∷ data_of value ∷ [])) }
{
    let mut parts = Vec::with_capacity(alloc, 2)?;
    parts.push(text_value(alloc, word)?)?;
    parts.push(value)?;
    Ok(Value::Array(parts))
}

/// An array of a word and two values.
fn with_two(alloc: Global, word: &str, first: Value, second: Value) -> Result<Value, AllocError>
    ensures { IfOk result (λ v. data_of v
        ≡ array_data (string word.now ∷ data_of first ∷ data_of second ∷ [])) }
{
    let mut parts = Vec::with_capacity(alloc, 3)?;
    parts.push(text_value(alloc, word)?)?;
    parts.push(first)?;
    parts.push(second)?;
    Ok(Value::Array(parts))
}

/// A file that was read as an array of its name and its size.
fn file_value(alloc: Global, file: &FileSize) -> Result<Value, AllocError>
    ensures { IfOk result (λ v. data_of v ≡ file_data file.now) }
{
    with_one(alloc, file.name.as_str(), Value::from(file.size))
}

/// Files that were read as an array.
fn files_value(alloc: Global, files: &[FileSize]) -> Result<Value, AllocError>
    ensures { IfOk result (λ v. data_of v ≡ array_data (map file_data files.now)) }
{
    let mut items = Vec::with_capacity(alloc, files.len())?;
    for file in files {
        items.push(file_value(alloc, file)?)?;
    }
    Ok(Value::Array(items))
}

/// A file that was left as an array of its name and the cause.
fn left_value(alloc: Global, file: &LeftFile) -> Result<Value, AllocError>
    ensures { IfOk result (λ v. data_of v ≡ left_data file.now) }
{
    let cause = text_value(alloc, file.cause.as_str())?;
    with_one(alloc, file.name.as_str(), cause)
}

/// Files that were left as an array.
fn all_left_value(alloc: Global, files: &[LeftFile]) -> Result<Value, AllocError>
    ensures { IfOk result (λ v. data_of v ≡ array_data (map left_data files.now)) }
{
    let mut items = Vec::with_capacity(alloc, files.len())?;
    for file in files {
        items.push(left_value(alloc, file)?)?;
    }
    Ok(Value::Array(items))
}

/// How a node is, as an array of a word, the files, and the numbers of atoms.
fn status_value(alloc: Global, status: &Status) -> Result<Value, AllocError>
    ensures { IfOk result (λ v. data_of v ≡ status_data status.now) }
{
    let mut parts = Vec::with_capacity(alloc, 5)?;
    parts.push(text_value(alloc, "status")?)?;
    parts.push(files_value(alloc, &status.feeds)?)?;
    parts.push(all_left_value(alloc, &status.left)?)?;
    parts.push(Value::from(status.told))?;
    parts.push(Value::from(status.at_rest))?;
    Ok(Value::Array(parts))
}

/// The JSON value of a reply.
fn reply_value(alloc: Global, program: &Program, reply: &Reply) -> Result<Value, AllocError>
    ensures { IfOk result (λ v. data_of v ≡ reply_data (declarations program.now) reply.now) }
{
    match reply {
        Reply::Told(id) => with_one(alloc, "told", id_value(alloc, *id)?),
        Reply::Again(id) => with_one(alloc, "again", id_value(alloc, *id)?),
        Reply::Last(number) => with_one(alloc, "last", Value::from(*number)),
        Reply::Store(store) => with_one(alloc, "store", store_value(alloc, program, store)?),
        Reply::Found(found) => with_one(alloc, "found", store_value(alloc, program, found)?),
        Reply::Count(count) => with_one(alloc, "count", Value::from(*count)),
        Reply::Changed(changes) => {
            let came = store_value(alloc, program, &changes.came)?;
            let went = store_value(alloc, program, &changes.went)?;
            with_two(alloc, "changed", came, went)
        }
        Reply::Status(status) => status_value(alloc, status),
        Reply::Refused(refusal) => {
            let sentence = text_value(alloc, refusal.sentence())?;
            with_two(alloc, "refused", Value::from(refusal.number()), sentence)
        }
    }
}

/// The text of a reply, as compact JSON.
fn reply_text(alloc: Global, program: &Program, reply: &Reply) -> Result<String, AllocError>
    ensures { IfOk result (λ text. string_bytes text
        ≡ compact_text (reply_data (declarations program.now) reply.now)) }
{
    let value = reply_value(alloc, program, reply)?;
    let text = value.to_string(alloc)?;
    Ok(text)
}

/// Adds a reply, as compact JSON, without a line feed.
///
/// # Errors
///
/// `AllocError` where no memory was left. The text is as it was.
pub fn push_reply(
    alloc: Global,
    out: &mut String,
    program: &Program,
    reply: &Reply,
) -> Result<(), AllocError>
    ensures ok { OnOk result (string_bytes out.new
        ≡ string_bytes out.old ++ compact_text (reply_data (declarations program.now) reply.now)) }
    ensures err { OnErr result (string_bytes out.new ≡ string_bytes out.old) }
{
    let text = reply_text(alloc, program, reply)?;
    out.push_str(text.as_str())
}
