//! The indexes of a layout.

ghost use Rattle.std.specs.Prelude.{◌≡◌, ◌↔◌, ◌+◌, IsTrue};
ghost use Rattle.reg_tables.specs.Layout.{versions_of_id};
ghost use Rattle.reg_tables.specs.Inside.Forms.{key_index_of, index_of};

use crate::declared::keys::are_numbers;
use crate::declared::listed_forms::Form;
use crate::declared::schemas::{IndexForm, TableInTree};
use sqlite_schema::schema::Index;

impl Form<Index> for IndexForm {
    ghost meaning = { index_of };

    fn declares(&self, item: &Index) -> bool {
        match self {
            IndexForm::OfKey(table) => is_key_index(item, table),
            IndexForm::OfIds(tree) => is_versions_of_id(item, *tree),
        }
    }
}

fn is_key_index(index: &Index, table: &TableInTree) -> bool
    ensures { IsTrue result ↔ (index.now ≡ key_index_of table.now) }
{
    let form = table.form;
    is_next(index.tree, table.tree)
        && is_index(index, form.index, index.tree, table.tree, form.unique, true)
}

/// Whether the tree is the one after `before`.
fn is_next(tree: u32, before: u32) -> bool
    ensures { IsTrue result ↔ (tree ≡ before + 1) }
{
    tree > 0 && tree - 1 == before
}

fn is_versions_of_id(index: &Index, tree: u32) -> bool
    ensures { IsTrue result ↔ (index.now ≡ record versions_of_id { tree = tree }) }
{
    is_index(index, b"versions_of_id", tree, 2, &[3], false)
}

/// Whether the index has exactly these properties, with all columns ascending.
fn is_index(
    index: &Index,
    name: &[u8],
    tree: u32,
    table: u32,
    columns: &[usize],
    is_unique: bool,
) -> bool
    ensures { IsTrue result ↔ (index.now ≡ record {
      name = name.now;
      tree = tree;
      table = table;
      columns = columns.now;
      order = record { digits = 0 };
      is_unique = is_unique;
    }) }
{
    index.name.as_slice() == name
        && index.tree == tree
        && index.table == table
        && are_numbers(&index.columns, columns)
        && index.order.digits == 0
        && index.is_unique == is_unique
}
