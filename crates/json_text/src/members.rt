//! Members of an object, and arrays of few items.
ghost use Rattle.std.specs.Prelude.{◌≡◌, option_map};
ghost use Rattle.serde_json.specs.View.{items_view, view};
ghost use Rattle.json_text.specs.Members.{array_member, has_member, is_text, item_pair, lone_item, number_member, only_at, pair_at, text_member};

use serde_json::Value;

/// Whether the value is an object with a member of this name, whatever the member is.
pub fn has_member(value: &Value, name: &str) -> bool
    ensures { result ≡ has_member name.now (view value.now) }
{
    value.get(name).is_some()
}

/// The items of the member of this name, where it is an array.
pub fn array_member<'a>(value: &'a Value, name: &str) -> Option<&'a Vec<Value>>
    ensures { option_map (λ v. items_view v.now.items) result ≡ array_member name.now (view value.now) }
{
    value.get(name).and_then(Value::as_array)
}

/// The member of this name, where it is a whole number.
pub fn number_member(value: &Value, name: &str) -> Option<u64>
    ensures { result ≡ number_member name.now (view value.now) }
{
    value.get(name).and_then(Value::as_u64)
}

/// The member of this name, where it is a text.
pub fn text_member<'a>(value: &'a Value, name: &str) -> Option<&'a str>
    ensures { option_map (λ s. s.now) result ≡ text_member name.now (view value.now) }
{
    value.get(name).and_then(Value::as_str)
}

/// Whether the value is this text.
pub fn is_text(value: &Value, text: &str) -> bool
    ensures { result ≡ is_text text.now (view value.now) }
{
    match value.as_str() {
        Some(found) => found == text,
        None => false,
    }
}

/// The only item, where the value is an array of one.
pub fn only(value: &Value) -> Option<&Value>
    ensures { option_map (λ v. view v.now) result ≡ only_at (view value.now) }
{
    lone(value.as_array()?.as_slice())
}

#[tactic(auto, using(crate::proofs::FewItems::lone_of_one, crate::proofs::FewItems::lone_of_others))]
fn lone(items: &[Value]) -> Option<&Value>
    ensures { option_map (λ v. view v.now) result ≡ lone_item (items_view items.now) }
{
    if items.len() == 1 {
        Some(&items[0])
    } else {
        None
    }
}

/// The two items, where the value is an array of two.
pub fn pair(value: &Value) -> Option<(&Value, &Value)>
    ensures { option_map (λ p. (view p.0.now, view p.1.now)) result ≡ pair_at (view value.now) }
{
    two(value.as_array()?.as_slice())
}

#[tactic(auto, using(crate::proofs::FewItems::pair_of_two, crate::proofs::FewItems::pair_of_others))]
fn two(items: &[Value]) -> Option<(&Value, &Value)>
    ensures { option_map (λ p. (view p.0.now, view p.1.now)) result ≡ item_pair (items_view items.now) }
{
    if items.len() == 2 {
        Some((&items[0], &items[1]))
    } else {
        None
    }
}
