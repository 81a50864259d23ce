//! Whether the schema of a database is that of a layout, or is empty.

ghost use Rattle.std.specs.Prelude.{◌≡◌, ◌↔◌, IsTrue};
ghost use Rattle.sqlite.specs.Held.{state};
ghost use Rattle.reg_tables.specs.Layout.{layout_one, layout_one_unindexed, empty_schema, layout_two_unindexed, IsIndexedLayoutTwo};
ghost use Rattle.reg_tables.specs.Inside.Forms.{schema_of};

use crate::declared::listed_forms::are_declared;
use crate::declared::schemas::{
    LAYOUT_ONE, LAYOUT_ONE_UNINDEXED, LAYOUT_TWO, LAYOUT_TWO_INDEXED_LAST, LAYOUT_TWO_UNINDEXED,
    SchemaForm,
};
use sqlite::{Alter, Connection};
use sqlite_schema::schema::Schema;

mod checks;
mod forms;
mod indexes;
mod keys;
mod listed_forms;
mod references;
mod schemas;
mod tables;

/// Whether the schema is layout 1 with its index, as `create_layout_one` makes it.
pub fn has_layout_one<S: Alter>(conn: &Connection<S>) -> bool
    ensures { IsTrue result ↔ ((state S.Store conn.now).now.schema ≡ layout_one) }
{
    is_schema(conn.schema(), &LAYOUT_ONE)
}

/// Whether the schema is layout 1 without its index, which `index_versions` makes.
pub fn is_unindexed_one<S: Alter>(conn: &Connection<S>) -> bool
    ensures { IsTrue result ↔ ((state S.Store conn.now).now.schema ≡ layout_one_unindexed) }
{
    is_schema(conn.schema(), &LAYOUT_ONE_UNINDEXED)
}

/// Whether the schema is layout 2, with the index made before or after the new tables.
pub fn has_layout_two<S: Alter>(conn: &Connection<S>) -> bool
    ensures { IsTrue result ↔ IsIndexedLayoutTwo (state S.Store conn.now).now.schema }
{
    is_layout_two(conn.schema())
}

/// Whether the schema is layout 2 without its index, which `index_versions` makes. `false` if a
/// dropped index left a gap among the trees.
pub fn is_unindexed_two<S: Alter>(conn: &Connection<S>) -> bool
    ensures { IsTrue result ↔ ((state S.Store conn.now).now.schema ≡ layout_two_unindexed) }
{
    is_schema(conn.schema(), &LAYOUT_TWO_UNINDEXED)
}

/// Whether the database has no table, index or view.
pub fn is_empty_database<S: Alter>(conn: &Connection<S>) -> bool
    ensures { IsTrue result ↔ ((state S.Store conn.now).now.schema ≡ empty_schema) }
{
    is_empty(conn.schema())
}

fn is_empty(schema: &Schema) -> bool
    ensures { IsTrue result ↔ (schema.now ≡ empty_schema) }
{
    schema.tables.as_slice().is_empty()
        && schema.indexes.as_slice().is_empty()
        && schema.views.as_slice().is_empty()
}

fn is_layout_two(schema: &Schema) -> bool
    ensures { IsTrue result ↔ IsIndexedLayoutTwo schema.now }
{
    is_schema(schema, &LAYOUT_TWO) || is_schema(schema, &LAYOUT_TWO_INDEXED_LAST)
}

fn is_schema(schema: &Schema, form: &SchemaForm) -> bool
    ensures { IsTrue result ↔ (schema.now ≡ schema_of form.now) }
{
    are_declared(schema.tables.as_slice(), form.tables)
        && are_declared(schema.indexes.as_slice(), form.indexes)
        && schema.views.as_slice().is_empty()
}
