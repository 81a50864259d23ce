//! The branches of a union and their kinds.

ghost use Rattle.std.specs.Prelude.{◌≡◌, ℕ, option_map};
ghost use Rattle.avro_nodes.specs.Nodes.{nodes_view};
ghost use Rattle.avro_schema.specs.Kinds.{branch_kind};
ghost use Rattle.avro_schema.specs.Inside.KindNumbers.{primitive_number, kind_view, branch_view};
ghost use Rattle.avro_schema.specs.Inside.Types.{member_name};

use crate::keywords::Container;
use avro_nodes::{Node, PrimitiveKind};

/// What kind of type a branch is. A union has at most one branch of each primitive type, one array,
/// one map, and any number of different named types.
#[derive(Clone, Copy)]
pub enum BranchKind {
    Primitive(PrimitiveKind),
    Array,
    Map,
    /// a named type, which the branch's place identifies
    Named,
}

/// A branch of a union.
#[derive(Clone, Copy)]
pub struct Branch {
    pub place: u32,
    pub kind: BranchKind,
}

/// The number of a primitive type.
fn primitive_number(kind: PrimitiveKind) -> u32
    ensures { result ≡ primitive_number kind }
{
    match kind {
        PrimitiveKind::Null => 0,
        PrimitiveKind::Boolean => 1,
        PrimitiveKind::Int => 2,
        PrimitiveKind::Long => 3,
        PrimitiveKind::Float => 4,
        PrimitiveKind::Double => 5,
        PrimitiveKind::Bytes => 6,
        PrimitiveKind::Text => 7,
    }
}

impl Branch {
    /// The number of the branch's kind. Two branches with the same number can't be in one union.
    pub fn kind_number(&self) -> u64
        ensures { result ≡ (branch_view self.now).1 }
    {
        match self.kind {
            BranchKind::Primitive(kind) => u64::from(primitive_number(kind)),
            BranchKind::Array => 8,
            BranchKind::Map => 9,
            BranchKind::Named => 10 + u64::from(self.place),
        }
    }
}

/// The kind of a branch, from the nodes that it added. A branch that added none is a reference to a
/// named type. `None` if the branch is a union.
#[tactic(auto, unfolding(crate::specs::Kinds::branch_kind))]
pub fn branch_kind(added: &[Node]) -> Option<BranchKind>
    ensures { (place : ℕ) → option_map (kind_view place) result ≡ branch_kind place (nodes_view added.now) }
{
    match added.first() {
        None => Some(BranchKind::Named),
        Some(node) => match node {
            Node::Primitive { kind, .. } => Some(BranchKind::Primitive(*kind)),
            Node::Array { .. } => Some(BranchKind::Array),
            Node::Map { .. } => Some(BranchKind::Map),
            Node::Union { .. } => None,
            Node::Enum { .. } | Node::Fixed { .. } | Node::Rec { .. } => Some(BranchKind::Named),
        },
    }
}

/// The attribute with the type of an array's items or a map's values.
pub fn member_name(container: Container) -> &'static str
    ensures { result.now ≡ member_name container }
{
    match container {
        Container::Items => "items",
        Container::Values => "values",
    }
}
