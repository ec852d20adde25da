// What stands under a key of a dict, or a name of a struct.
ghost use Rattle.std.specs.Prelude.{◌≡◌};
ghost use Rattle.star_steps.specs.Names.{length, IsKey, pairs_at, value_of_key, text_value, named_values, seen, Owns, OwnsFields, OwnsOption, View, fields_in, option_in, value_of};
ghost use Rattle.star_values.specs.declared.value.Value.TheVariants as value;

use object_arena::{Arena, NamedValue, Ref, Value};

/// The value under a key of a dict.
pub fn value_under(arena: &Arena, dict: Ref, key: Value) -> Option<Value>
    requires dict { Owns (seen arena.now) (value.Dict dict) }
    requires owned { Owns (seen arena.now) key }
    requires key { IsKey (value_of (seen arena.now) key) }
    ensures value { option_in (seen arena.now).held result ≡ value_of_key (value_of (seen arena.now) key) (pairs_at dict.at (seen arena.now).store) }
    ensures owned { OwnsOption (seen arena.now) result }
{
    match arena.dict_get(dict, key) {
        Ok(value) => Some(value),
        Err(_) => None,
    }
}

/// How many pairs a dict has.
pub fn pair_count(arena: &Arena, dict: Ref) -> u64
    requires { Owns (seen arena.now) (value.Dict dict) }
    ensures { result ≡ length (pairs_at dict.at (seen arena.now).store) }
{
    arena.length(dict)
}

/// The value of the first field with this name.
pub fn field_under(fields: &[NamedValue], name: &str) -> Option<Value>
    ensures value { (a : View) → option_in a.held result ≡ value_of_key (text_value name.now) (named_values (fields_in a.held fields.now)) }
    ensures owned { (a : View) → OwnsFields a fields.now → OwnsOption a result }
{
    let mut rest = fields;
    while let Some((field, more)) = rest.split_first() {
        if field.name.as_str() == name {
            return Some(field.value);
        }
        rest = more;
    }
    None
}
