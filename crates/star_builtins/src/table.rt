// The tables of the language's own functions and methods: which one a name is, and what each takes.
ghost use Rattle.std.specs.Prelude.{◌≡◌, ℕ, List, map as each, option_map};
ghost use Rattle.builtin_spec.specs.Binding.{is_given, own_in};
ghost use Rattle.builtin_spec.specs.Builtins.{builtins};
ghost use Rattle.builtin_spec.specs.Dicts.{dict_methods};
ghost use Rattle.builtin_spec.specs.Lists.{list_methods};
ghost use Rattle.star_builtins.specs.View.{builtin_of, dict_method_may_have, dict_method_needs, dict_method_of, function_may_have, function_needs, list_method_may_have, list_method_needs, list_method_of, named_functions, needed_of, optional_of, was_given};
ghost use Rattle.star_values.specs.View.{arguments_in, fields_in};
ghost use Rattle.value_spec.specs.Binding.{has_field};
ghost use Rattle.value_spec.specs.Values as plain;

use object_arena::{CallArgs, NamedValue, Ref};

/// A function of the language that binds its arguments to parameters.
#[derive(Clone, Copy)]
pub(crate) enum Builtin {
    Len,
    Str,
    Repr,
    Type,
    Bool,
    Fail,
    List,
    Tuple,
    Reversed,
    Any,
    All,
    Abs,
    Int,
    Enumerate,
    HasAttr,
    GetAttr,
    Dir,
}

/// The function of a name: one that binds its arguments to parameters, or one that takes them as they are.
#[derive(Clone, Copy)]
pub(crate) enum Named {
    Bound(Builtin),
    Range,
    Zip,
    Dict,
}

/// A method of lists.
#[derive(Clone, Copy)]
pub(crate) enum ListMethod {
    Append,
    Clear,
    Extend,
    Index,
    Insert,
    Pop,
    Remove,
}

/// A method of dicts that binds its arguments to parameters.
#[derive(Clone, Copy)]
pub(crate) enum DictMethod {
    Clear,
    Get,
    Items,
    Keys,
    Pop,
    PopItem,
    SetDefault,
    Values,
}

/// The method of dicts of a name: one that binds its arguments to parameters, or `update`, which takes them as they are.
#[derive(Clone, Copy)]
pub(crate) enum NamedOfDict {
    Bound(DictMethod),
    Update,
}

/// What binds its arguments to parameters: a function, or a method of a list or a dict.
#[derive(Clone, Copy)]
pub(crate) enum Bound {
    Function(Builtin),
    OfList(ListMethod, Ref),
    OfDict(DictMethod, Ref),
}

/// The function of a name among these.
fn function_among(name: &str, functions: &[(&str, Named)]) -> Option<Named>
    ensures { option_map builtin_of result ≡ own_in name.now (named_functions functions.now) }
{
    for function in functions {
        if name == function.0 {
            return Some(function.1);
        }
    }
    None
}

/// The function of a name.
pub(crate) fn builtin_named(name: &str) -> Option<Named>
    ensures { option_map builtin_of result ≡ own_in name.now builtins }
{
    function_among(
        name,
        &[
            ("len", Named::Bound(Builtin::Len)),
            ("str", Named::Bound(Builtin::Str)),
            ("repr", Named::Bound(Builtin::Repr)),
            ("type", Named::Bound(Builtin::Type)),
            ("bool", Named::Bound(Builtin::Bool)),
            ("fail", Named::Bound(Builtin::Fail)),
            ("list", Named::Bound(Builtin::List)),
            ("tuple", Named::Bound(Builtin::Tuple)),
            ("reversed", Named::Bound(Builtin::Reversed)),
            ("any", Named::Bound(Builtin::Any)),
            ("all", Named::Bound(Builtin::All)),
            ("abs", Named::Bound(Builtin::Abs)),
            ("range", Named::Range),
            ("enumerate", Named::Bound(Builtin::Enumerate)),
            ("zip", Named::Zip),
            ("int", Named::Bound(Builtin::Int)),
            ("hasattr", Named::Bound(Builtin::HasAttr)),
            ("getattr", Named::Bound(Builtin::GetAttr)),
            ("dict", Named::Dict),
            ("dir", Named::Bound(Builtin::Dir)),
        ],
    )
}

/// The method of lists of a name.
pub(crate) fn list_method_named(name: &str) -> Option<ListMethod>
    ensures { (r : ℕ) → option_map (list_method_of r) result ≡ own_in name.now (list_methods r) }
{
    match name {
        "append" => Some(ListMethod::Append),
        "clear" => Some(ListMethod::Clear),
        "extend" => Some(ListMethod::Extend),
        "index" => Some(ListMethod::Index),
        "insert" => Some(ListMethod::Insert),
        "pop" => Some(ListMethod::Pop),
        "remove" => Some(ListMethod::Remove),
        _ => None,
    }
}

/// The method of dicts of a name.
pub(crate) fn dict_method_named(name: &str) -> Option<NamedOfDict>
    ensures { (r : ℕ) → option_map (dict_method_of r) result ≡ own_in name.now (dict_methods r) }
{
    match name {
        "clear" => Some(NamedOfDict::Bound(DictMethod::Clear)),
        "get" => Some(NamedOfDict::Bound(DictMethod::Get)),
        "items" => Some(NamedOfDict::Bound(DictMethod::Items)),
        "keys" => Some(NamedOfDict::Bound(DictMethod::Keys)),
        "pop" => Some(NamedOfDict::Bound(DictMethod::Pop)),
        "popitem" => Some(NamedOfDict::Bound(DictMethod::PopItem)),
        "setdefault" => Some(NamedOfDict::Bound(DictMethod::SetDefault)),
        "update" => Some(NamedOfDict::Update),
        "values" => Some(NamedOfDict::Bound(DictMethod::Values)),
        _ => None,
    }
}

/// The parameters of what is called: those that must be given, and those that are None where they aren't.
#[derive(Clone, Copy)]
pub(crate) struct Takes {
    pub needed: &'static [&'static str],
    pub optional: &'static [&'static str],
}

fn taking(needed: &'static [&'static str], optional: &'static [&'static str]) -> Takes
    ensures needed { result.needed.now ≡ needed.now }
    ensures optional { result.optional.now ≡ optional.now }
{
    Takes { needed, optional }
}

/// What a call binds its arguments to.
pub(crate) fn parameters_of(bound: Bound) -> Takes
    ensures needed { each (λ w. w.now) result.needed.now ≡ needed_of bound }
    ensures optional { each (λ w. w.now) result.optional.now ≡ optional_of bound }
{
    match bound {
        Bound::Function(builtin) => function_takes(builtin),
        Bound::OfList(method, _) => list_method_takes(method),
        Bound::OfDict(method, _) => dict_method_takes(method),
    }
}

fn function_takes(builtin: Builtin) -> Takes
    ensures needed { each (λ w. w.now) result.needed.now ≡ function_needs builtin }
    ensures optional { each (λ w. w.now) result.optional.now ≡ function_may_have builtin }
{
    match builtin {
        Builtin::Bool | Builtin::List | Builtin::Tuple => taking(&[], &["x"]),
        Builtin::HasAttr => taking(&["x", "name"], &[]),
        Builtin::GetAttr => taking(&["x", "name"], &["default"]),
        Builtin::Len
        | Builtin::Str
        | Builtin::Repr
        | Builtin::Type
        | Builtin::Fail
        | Builtin::Reversed
        | Builtin::Any
        | Builtin::All
        | Builtin::Abs
        | Builtin::Dir => taking(&["x"], &[]),
        Builtin::Int => taking(&["x"], &["base"]),
        Builtin::Enumerate => taking(&["x"], &["start"]),
    }
}

fn list_method_takes(method: ListMethod) -> Takes
    ensures needed { each (λ w. w.now) result.needed.now ≡ list_method_needs method }
    ensures optional { each (λ w. w.now) result.optional.now ≡ list_method_may_have method }
{
    match method {
        ListMethod::Append | ListMethod::Extend | ListMethod::Remove => taking(&["x"], &[]),
        ListMethod::Clear => taking(&[], &[]),
        ListMethod::Index => taking(&["x"], &["from", "to"]),
        ListMethod::Insert => taking(&["i", "x"], &[]),
        ListMethod::Pop => taking(&[], &["i"]),
    }
}

fn dict_method_takes(method: DictMethod) -> Takes
    ensures needed { each (λ w. w.now) result.needed.now ≡ dict_method_needs method }
    ensures optional { each (λ w. w.now) result.optional.now ≡ dict_method_may_have method }
{
    match method {
        DictMethod::Clear
        | DictMethod::Items
        | DictMethod::Keys
        | DictMethod::PopItem
        | DictMethod::Values => taking(&[], &[]),
        DictMethod::Get | DictMethod::Pop | DictMethod::SetDefault => taking(&["k"], &["d"]),
    }
}

/// Whether the argument is given that tells what a call does where it isn't.
pub(crate) fn was_given(bound: Bound, args: &CallArgs) -> bool
    ensures { (held : List plain.Value) → result ≡ was_given bound (arguments_in held args.now) }
{
    match bound {
        Bound::Function(Builtin::List) => is_given(args, 0, "x"),
        Bound::Function(Builtin::Tuple) => is_given(args, 0, "x"),
        Bound::Function(Builtin::Int) => is_given(args, 1, "base"),
        Bound::Function(Builtin::GetAttr) => is_given(args, 2, "default"),
        Bound::OfList(ListMethod::Pop, _) => is_given(args, 0, "i"),
        Bound::OfDict(DictMethod::Pop, _) => is_given(args, 1, "d"),
        Bound::Function(_) | Bound::OfList(_, _) | Bound::OfDict(_, _) => false,
    }
}

/// Whether an argument is given, by position or by name.
fn is_given(args: &CallArgs, position: usize, name: &str) -> bool
    ensures { (held : List plain.Value) → result ≡ is_given position name.now (arguments_in held args.now) }
{
    position < args.positional.as_slice().len() || is_named(args.named.as_slice(), name)
}

/// Whether a value of this name is there.
fn is_named(named: &[NamedValue], name: &str) -> bool
    ensures { (held : List plain.Value) → result ≡ has_field name.now (fields_in held named.now) }
{
    let mut rest = named;
    while let Some((field, more)) = rest.split_first() {
        if name == field.name.as_str() {
            return true;
        }
        rest = more;
    }
    false
}
