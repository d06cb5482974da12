ghost use Rattle.std.specs.Prelude.{◌≡◌, false, IfOk, IsTrue};
ghost use Rattle.serde_json.specs.View.{view};
ghost use Rattle.serde_json.specs.Written.{has_float};
ghost use Rattle.an_base.specs.Object.{with_member, without_member};
ghost use Rattle.an_base.specs.Tree.{is_tree};

use serde_json::{Value, put};
use std::alloc::{AllocError, Global};

/// The object with this member, in place of one of its name. What is no object stays as it is.
#[tactic(auto, using(crate::proofs::ObjectLemmas::putting))]
pub fn with_member(
    alloc: Global,
    tree: Value,
    name: &str,
    value: Value,
) -> Result<Value, AllocError>
    ensures value { IfOk result (λ v. view v ≡ with_member name.now (view value) (view tree)) }
    ensures no_float { has_float (view value) ≡ false → has_float (view tree) ≡ false
        → IfOk result (λ v. has_float (view v) ≡ false) }
{
    match tree {
        Value::Object(members) => {
            let mut members = members;
            put(&mut members, alloc, name, value)?;
            Ok(Value::Object(members))
        }
        Value::Null => Ok(Value::Null),
        Value::Bool(flag) => Ok(Value::Bool(flag)),
        Value::Number(number) => Ok(Value::Number(number)),
        Value::String(text) => Ok(Value::String(text)),
        Value::Array(items) => Ok(Value::Array(items)),
    }
}

/// The object without the member of this name. What is no object stays as it is. Takes no memory.
#[tactic(auto, using(crate::proofs::ObjectLemmas::taking_out))]
pub fn without_member(tree: Value, name: &str) -> Value
    ensures value { view result ≡ without_member name.now (view tree) }
    ensures tree { IsTrue (is_tree (view tree)) → IsTrue (is_tree (view result)) }
{
    match tree {
        Value::Object(members) => {
            let mut members = members;
            drop(members.remove(name));
            Value::Object(members)
        }
        Value::Null => Value::Null,
        Value::Bool(flag) => Value::Bool(flag),
        Value::Number(number) => Value::Number(number),
        Value::String(text) => Value::String(text),
        Value::Array(items) => Value::Array(items),
    }
}
