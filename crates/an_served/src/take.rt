ghost use Rattle.std.specs.Prelude.{◌≡◌, option_map};
ghost use Rattle.serde_json.specs.Data.{Data};
ghost use Rattle.serde_json.specs.Find.{get};
ghost use Rattle.serde_json.specs.View.{view};
ghost use Rattle.an_base.specs.Object.{with_member};

use serde_json::Value;

/// The value of a member, taken out of an object that is about to get another in its place.
pub(crate) fn take_member(tree: Value, name: &str) -> (Value, Option<Value>)
    ensures taken { option_map view result.1 ≡ get name.now (view tree) }
    ensures back { (value : Data) → with_member name.now value (view result.0)
        ≡ with_member name.now value (view tree) }
{
    match tree {
        Value::Object(members) => {
            let mut members = members;
            // By its clause the names ascend, so that each stands there once.
            let _ = members.len();
            let taken = members.remove(name);
            (Value::Object(members), taken)
        }
        Value::Null => (Value::Null, None),
        Value::Bool(flag) => (Value::Bool(flag), None),
        Value::Number(number) => (Value::Number(number), None),
        Value::String(text) => (Value::String(text), None),
        Value::Array(items) => (Value::Array(items), None),
    }
}
