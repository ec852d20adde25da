// What makes values.
ghost use Rattle.std.specs.Prelude.{◌≡◌};
ghost use Rattle.object_arena.specs.Names.{[], IfOk, OnErr, OnOk, Option, None, length, with_object, dict_value, fragment_value, function_value, list_value, module_value, of_box, of_dict, of_function, of_list, range_value, native_value, replacement, struct_value, text_value, tuple_value, values_from, item_kind_of, env_in, native_by, seen, Grows, Owns, OwnsAll, OwnsBuilt, OwnsEnv, OwnsFields, OwnsObjectRef, OwnsOption, built_in, fields_in, option_in, value_of, values_of};
ghost use Rattle.value_spec.specs.Values as plain;
ghost use Rattle.object_arena.specs.Made.{Makes, MakesObject};
ghost use Rattle.star_values.specs.declared.value.Sort.TheVariants as sort;

use crate::arena::Arena;
use indexmap::IndexMap;
use sqlite_items::Items;
use star_values::{
    Answerer, Boxes, Built, Contents, Function, Held, ItemKind, NamedValues, Ref, Sort, Thing,
    Value, Values, Word,
};
use ytt_base::text::{Memory, Text};

impl Arena {
    /// A text. Texts of the same bytes stand once.
    pub fn new_text(&mut self, text: Text) -> Result<Value, Memory>
        ensures made { Makes (text_value text) result (seen self.old) (seen self.new) }
    {
        Ok(Value::Text(Ref::of(self.push_held(Held::Text(Word { text }))?, Sort::Text)))
    }

    /// A tuple of these members. Tuples of the same members stand once.
    pub fn new_tuple(&mut self, items: &[Value]) -> Result<Value, Memory>
        requires { OwnsAll (seen self.old) items.now }
        ensures made { Makes (tuple_value (values_from (values_of (seen self.old) items.now))) result (seen self.old) (seen self.new) }
    {
        let members = Vec::from_slice(self.alloc, items)?;
        Ok(Value::Tuple(Ref::of(self.push_held(Held::Tuple(members))?, Sort::Tuple)))
    }

    /// The numbers from `from` on and before `to`, by steps of `step`, which isn't 0.
    pub fn new_range(&mut self, from: i128, to: i128, step: i128) -> Result<Value, Memory>
        ensures made { Makes (range_value from to step) result (seen self.old) (seen self.new) }
    {
        Ok(Value::Range(Ref::of(self.push_thing(Thing::Range(from, to, step))?, Sort::Range)))
    }

    /// A struct of these fields, whose names are distinct.
    pub fn new_struct(&mut self, fields: NamedValues) -> Result<Value, Memory>
        requires { OwnsFields (seen self.old) fields }
        ensures made { Makes (struct_value (fields_in (seen self.old).held fields)) result (seen self.old) (seen self.new) }
    {
        Ok(Value::Struct(Ref::of(self.push_thing(Thing::Struct(fields))?, Sort::Struct)))
    }

    /// A module of this name and these fields, whose names are distinct.
    pub fn new_module(&mut self, name: Text, fields: NamedValues) -> Result<Value, Memory>
        requires { OwnsFields (seen self.old) fields }
        ensures made { Makes (module_value name (fields_in (seen self.old).held fields)) result (seen self.old) (seen self.new) }
    {
        Ok(Value::Module(Ref::of(self.push_thing(Thing::Module(name, fields))?, Sort::Module)))
    }

    /// A function of the language, a method of it and what it is of, or what a host answers and what that holds, by its name.
    pub fn new_native(
        &mut self,
        by: Answerer,
        name: Text,
        on: Option<Value>,
    ) -> Result<Value, Memory>
        requires { OwnsOption (seen self.old) on }
        ensures made { Makes (native_value (native_by by name (option_in (seen self.old).held on))) result (seen self.old) (seen self.new) }
    {
        Ok(Value::Native(Ref::of(self.push_thing(Thing::Native(by, name, on))?, Sort::Native)))
    }

    /// What stands in a node's place: the members of a value.
    pub fn new_replacement(&mut self, value: Value) -> Result<Value, Memory>
        requires { Owns (seen self.old) value }
        ensures made { Makes (native_value (replacement (value_of (seen self.old) value))) result (seen self.old) (seen self.new) }
    {
        Ok(Value::Native(Ref::of(self.push_thing(Thing::Replacement(value))?, Sort::Native)))
    }

    /// A fragment of these items, which are all of this kind, also where there are none.
    pub fn new_fragment(&mut self, kind: ItemKind, items: Built) -> Result<Value, Memory>
        requires { OwnsBuilt (seen self.old) items }
        ensures made { Makes (fragment_value (item_kind_of kind) (built_in (seen self.old).held items)) result (seen self.old) (seen self.new) }
    {
        let at = self.push_thing(Thing::Fragment(kind, items))?;
        Ok(Value::Fragment(Ref::of(at, Sort::Fragment)))
    }

    /// A list of these members.
    pub fn new_list(&mut self, items: &[Value]) -> Result<Value, Memory>
        requires { OwnsAll (seen self.old) items.now }
        ensures made { MakesObject (list_value (length (seen self.old).store)) (of_list (values_of (seen self.old) items.now)) result (seen self.old) (seen self.new) }
    {
        let members = Vec::from_slice(self.alloc, items)?;
        Ok(Value::List(Ref::of(self.push_object(Contents::List(members))?, Sort::List)))
    }

    /// A dict without pairs.
    pub fn new_dict(&mut self) -> Result<Value, Memory>
        ensures made { MakesObject (dict_value (length (seen self.old).store)) (of_dict []) result (seen self.old) (seen self.new) }
    {
        let at = self.push_object(Contents::Dict(IndexMap::new(self.alloc)))?;
        Ok(Value::Dict(Ref::of(at, Sort::Dict)))
    }

    /// A box without a value.
    pub fn new_box(&mut self) -> Result<Ref, Memory>
        ensures at { IfOk result (λ r. r.at ≡ length (seen self.old).store) }
        ensures owns { IfOk result (OwnsObjectRef (seen self.new) sort.Box) }
        ensures store { OnOk result ((seen self.new).store ≡ with_object (of_box None) (seen self.old).store) }
        ensures held { (seen self.new).held ≡ (seen self.old).held }
        ensures grows { Grows (seen self.old) (seen self.new) }
        ensures err { OnErr result (seen self.new ≡ seen self.old) }
    {
        let at = self.push_object(Contents::Box(None))?;
        Ok(Ref::of(at, Sort::Box))
    }

    /// A function: the name that it shows, its file, its code's number there, the variables around it, and its defaults.
    pub fn new_func(
        &mut self,
        name: Text,
        file: u32,
        code: u64,
        boxes: Boxes,
        defaults: Values,
    ) -> Result<Value, Memory>
        requires boxes { OwnsEnv (seen self.old) boxes }
        requires defaults { OwnsAll (seen self.old) defaults }
        ensures made { MakesObject (function_value (length (seen self.old).store)) (of_function (record { name = name; file = file; number = code; env = env_in (seen self.old).held boxes; defaults = values_of (seen self.old) defaults })) result (seen self.old) (seen self.new) }
    {
        let at = self.push_object(Contents::Func(Function {
            name,
            file,
            code,
            boxes,
            defaults,
        }))?;
        Ok(Value::Func(Ref::of(at, Sort::Func)))
    }
}
