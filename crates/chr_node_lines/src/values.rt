//! JSON values of texts and ids.
ghost use Rattle.std.specs.Prelude.{◌≡◌, IfOk};
ghost use Rattle.serde_json.specs.Data.{string};
ghost use Rattle.serde_json.specs.View.{view as data_of};
ghost use Rattle.chr_json.specs.Printed.{id_data};

use chr_ops::OpId;
use serde_json::Value;
use std::alloc::{AllocError, Global};

/// A text.
pub(crate) fn text_value(alloc: Global, text: &str) -> Result<Value, AllocError>
    ensures { IfOk result (λ v. data_of v ≡ string text.now) }
{
    Ok(Value::String(String::from_str(alloc, text)?))
}

/// An id as an array of its origin and its number.
pub(crate) fn id_value(alloc: Global, id: OpId) -> Result<Value, AllocError>
    ensures { IfOk result (λ v. data_of v ≡ id_data id.origin id.number) }
{
    let mut parts = Vec::with_capacity(alloc, 2)?;
    parts.push(Value::from(u64::from(id.origin)))?;
    parts.push(Value::from(id.number))?;
    Ok(Value::Array(parts))
}
