//! The CHECK of the column `deleted`.

ghost use Rattle.std.specs.Prelude.{◌≡◌, ◌↔◌, IsTrue};
ghost use Rattle.sqlite.specs.declared.types.Value.TheVariants.{Int};
ghost use Rattle.sqlite_schema.specs.declared.code.Op.TheVariants.{Column as ColumnNode, Literal as LiteralNode};
ghost use Rattle.reg_tables.specs.Layout.{versions};
ghost use Rattle.reg_tables.specs.Inside.Checks.{node_at, IsTestAt, IsFlagCheckAt};

use sqlite_schema::code::{Op, Terms};
use sqlite_schema::schema::Column;
use sqlite_sql::ops::{BinaryOp, CompareOp};
use sqlite_value::keys::Collation;
use sqlite_value::value::Value;

/// Whether the only check is that `deleted` is 0 or 1.
pub fn are_version_checks(checks: &Terms) -> bool
    ensures { IsTrue result ↔ (checks.now ≡ versions.checks) }
{
    match checks.roots.as_slice() {
        [root] => is_check(checks.nodes.as_slice(), *root),
        _ => false,
    }
}

/// Whether the expression at this node is `deleted = 0 OR deleted = 1`.
fn is_check(nodes: &[Op], at: usize) -> bool
    ensures { IsTrue result ↔ IsFlagCheckAt nodes.now at }
{
    match nodes.get(at) {
        Some(Op::Binary(BinaryOp::Or, left, right)) => {
            is_test(nodes, *left, 0) && is_test(nodes, *right, 1)
        }
        _ => false,
    }
}

/// Whether the expression at this node is `deleted` = this number.
fn is_test(nodes: &[Op], at: usize, number: i64) -> bool
    ensures { IsTrue result ↔ IsTestAt nodes.now at number }
{
    match nodes.get(at) {
        Some(Op::Binary(BinaryOp::Compare(CompareOp::Eq, Collation::Binary), left, right)) => {
            is_fourth(nodes, *left) && is_literal(nodes, *right, number)
        }
        _ => false,
    }
}

/// Whether the expression at this node is the fourth column.
fn is_fourth(nodes: &[Op], at: usize) -> bool
    ensures { IsTrue result ↔ (node_at nodes.now at ≡ ColumnNode 1 4) }
{
    match nodes.get(at) {
        Some(Op::Column(slot, place)) => *slot == 1 && *place == 4,
        _ => false,
    }
}

/// Whether the expression at this node is this number.
fn is_literal(nodes: &[Op], at: usize, number: i64) -> bool
    ensures { IsTrue result ↔ (node_at nodes.now at ≡ LiteralNode (Int number)) }
{
    match nodes.get(at) {
        Some(Op::Literal(Value::Int(it))) => *it == number,
        _ => false,
    }
}
