// What a type wants of a tree.
ghost use Rattle.std.specs.Prelude.{◌≡◌};
ghost use Rattle.ytt_base.specs.View.{tree_of};
ghost use Rattle.schema_spec.specs.Schemas.{of_list, of_map};
ghost use Rattle.schema_check.specs.First.{fits_tree, kind_in};
ghost use Rattle.schema_check.specs.View.{schema_of};
ghost use Rattle.schema_check.specs.Wants.{wants_item, wants_members};

use crate::types::{Schema, TypeKind, TypePairs};
use ytt_base::tree::Tree;

/// What a type wants of a list: nothing, items of a type, or that it were something else.
pub(crate) enum WantsItem<'a> {
    Anything,
    These(&'a Schema),
    Another,
}

/// What a type wants of a map: nothing, members of these types, or that it were something else.
pub(crate) enum WantsMembers<'a> {
    Anything,
    These(&'a TypePairs),
    Another,
}

/// What a type wants of a list.
#[tactic(auto, using(crate::proofs::Views::views))]
pub(crate) fn of_list(schema: &Schema) -> WantsItem
    ensures { wants_item result ≡ of_list (kind_in (schema_of schema.now)) }
{
    match &schema.kind {
        TypeKind::Any => WantsItem::Anything,
        TypeKind::List(item) => WantsItem::These(item.get()),
        TypeKind::Bool => WantsItem::Another,
        TypeKind::Int => WantsItem::Another,
        TypeKind::Str => WantsItem::Another,
        TypeKind::Map(_) => WantsItem::Another,
    }
}

/// What a type wants of a map.
#[tactic(auto, using(crate::proofs::Views::views))]
pub(crate) fn of_map(schema: &Schema) -> WantsMembers
    ensures { wants_members result ≡ of_map (kind_in (schema_of schema.now)) }
{
    match &schema.kind {
        TypeKind::Any => WantsMembers::Anything,
        TypeKind::Map(types) => WantsMembers::These(types),
        TypeKind::Bool => WantsMembers::Another,
        TypeKind::Int => WantsMembers::Another,
        TypeKind::Str => WantsMembers::Another,
        TypeKind::List(_) => WantsMembers::Another,
    }
}

/// Whether a scalar is of a type. A list or a map is no scalar, and isn't asked.
#[tactic(auto, using(crate::proofs::Views::views, ytt_base::proofs::Views::views))]
pub(crate) fn fits(schema: &Schema, scalar: &Tree) -> bool
    ensures { result ≡ fits_tree (schema_of schema.now) (tree_of scalar.now) }
{
    match (&schema.kind, scalar) {
        (_, Tree::List(_)) => true,
        (_, Tree::Map(_)) => true,
        (TypeKind::Any, _) => true,
        (_, Tree::Null) => schema.nullable,
        (TypeKind::Bool, Tree::Bool(_)) => true,
        (TypeKind::Int, Tree::Int(_)) => true,
        (TypeKind::Str, Tree::Str(_)) => true,
        _ => false,
    }
}
