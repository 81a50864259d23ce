//! The tables of a layout.

ghost use Rattle.std.specs.Prelude.{◌≡◌, ◌↔◌, [], ◌∷◌, IsTrue, true, false};
ghost use Rattle.sqlite.specs.declared.types.Value.TheVariants.{Null};
ghost use Rattle.sqlite.specs.Collation.TheVariants.{Binary};
ghost use Rattle.reg_tables.specs.Inside.Forms.{checks_of, column_of, table_of, table_without_tree};

use crate::declared::checks::are_version_checks;
use crate::declared::forms::{ColumnForm, TableForm};
use crate::declared::keys::{are_numbers, is_name, is_one_key};
use crate::declared::listed_forms::{Form, are_declared};
use crate::declared::schemas::TableInTree;
use sqlite_items::Items;
use sqlite_schema::code::Terms;
use sqlite_schema::schema::{Column, Kind, Stamps, Table};
use sqlite_value::keys::{Collation, Order};
use sqlite_value::value::Value;

impl Form<Table> for TableInTree {
    ghost meaning = { table_of };

    fn declares(&self, item: &Table) -> bool {
        let form = self.form;
        item.tree == self.tree
            && has_form(item, form)
            && are_checks(&item.checks, form.has_flag)
            && are_declared(item.references.as_slice(), form.references)
    }
}

impl Form<Column> for ColumnForm {
    ghost meaning = { column_of };

    fn declares(&self, item: &Column) -> bool {
        match self {
            ColumnForm::Nullable(name, kind) => is_declared_but_for_null(item, name, *kind)
                && !item.not_null,
            ColumnForm::Required(name, kind) => is_declared_but_for_null(item, name, *kind)
                && item.not_null,
        }
    }
}

/// If `has_flag`, whether the only check is that of `versions`. Otherwise, whether there is none.
fn are_checks(checks: &Terms, has_flag: bool) -> bool
    ensures { IsTrue result ↔ (checks.now ≡ checks_of has_flag) }
{
    if has_flag {
        are_version_checks(checks)
    } else {
        are_none(checks)
    }
}

/// Whether a table is as declared, apart from its tree, its checks and its references.
fn has_form(table: &Table, form: &TableForm) -> bool
    ensures { IsTrue result ↔ (table.now ≡ record (table_without_tree form.now) {
      tree = table.now.tree;
      checks = table.now.checks;
      references = table.now.references;
    }) }
{
    is_name(&table.name, form.name)
        && table.key == form.key
        && are_numbers(&table.primary, form.primary)
        && is_one_key(&table.uniques, form.unique)
        && is_one_order(&table.orders)
        && has_no_extras(table)
        && are_declared(table.columns.as_slice(), form.columns)
}

/// Whether the table has no default that is computed or reads the time, and no AUTOINCREMENT.
fn has_no_extras(table: &Table) -> bool
    ensures { IsTrue result ↔ (table.now ≡ record table.now {
      computed = [];
      stamps = record { places = []; terms = []; formats = [] };
      is_counted = false;
    }) }
{
    table.computed.as_slice().is_empty() && has_no_stamps(&table.stamps) && !table.is_counted
}

/// Whether a column is as declared, apart from NOT NULL: the given name and type, in a STRICT table,
/// default NULL, compared by bytes.
fn is_declared_but_for_null(column: &Column, name: &[u8], kind: Kind) -> bool
    ensures { IsTrue result ↔ (column.now ≡ record column.now {
      name = name.now;
      kind = kind;
      is_strict = true;
      default = Null;
      collation = Binary;
    }) }
{
    column.name.as_slice() == name
        && column.kind == kind
        && column.is_strict
        && matches!(column.default, Value::Null)
        && column.collation == Collation::Binary
}

/// Whether these are the orders of one key, all ascending.
fn is_one_order(orders: &Items<Order>) -> bool
    ensures { IsTrue result ↔ (orders.now ≡ (record { digits = 0 }) ∷ []) }
{
    match orders.as_slice() {
        [one] => one.digits == 0,
        _ => false,
    }
}

fn are_none(terms: &Terms) -> bool
    ensures { IsTrue result ↔ (terms.now ≡ []) }
{
    terms.roots.as_slice().is_empty()
}

fn has_no_stamps(stamps: &Stamps) -> bool
    ensures { IsTrue result ↔ (stamps.now
        ≡ record { places = []; terms = []; formats = [] }) }
{
    stamps.places.as_slice().is_empty()
        && are_none(&stamps.terms)
        && stamps.formats.as_slice().is_empty()
}
