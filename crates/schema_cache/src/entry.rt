//! An entry of the cache.

ghost use Rattle.std.specs.Prelude.{◌≡◌, ◌≤◌, Some, IfOk, IfErr, length};
ghost use Rattle.avro_nodes.specs.Nodes.{nodes_view};
ghost use Rattle.avro_schema.specs.DenotedNodes.{denoted_nodes};
ghost use Rattle.schema_cache.specs.Entries.{IsCacheable, max_cached_text};

use avro_schema::Schema;
use std::alloc::Global;
use std::marker::Model;

/// A text and the schema that it denotes.
#[derive(Drop)]
pub struct Entry {
    text: String,
    schema: Schema,
}

impl Model for Entry {
    ghost use Rattle.std.specs.Prelude.{string_bytes};
    ghost use Rattle.schema_cache.specs.Entries.{EntryView, entry_code, IsCacheable};

    ghost Value = { EntryView };

    ghost coded = { entry_code };

    ghost view = { λ e. record { text = string_bytes e.text; nodes = e.schema } };

    ghost invariant = { λ e. IsCacheable (string_bytes e.text) e.schema };
}

impl Entry {
    /// Copies the text, and adds a schema that the text denotes. If the allocation fails, returns
    /// the schema.
    pub fn new(alloc: Global, text: &str, schema: Schema) -> Result<Entry, Schema>
        requires { IsCacheable text.now schema }
        ensures ok { IfOk result (λ entry. entry ≡ record { text = text.now; nodes = schema }) }
        ensures err { IfErr result (λ back. back ≡ schema) }
    {
        match String::from_str(alloc, text) {
            Ok(text) => Ok(Entry { text, schema }),
            Err(_) => Err(schema),
        }
    }

    /// The text.
    pub fn text(&self) -> &str
        ensures text { result.now ≡ self.now.text }
        ensures short { length result.now ≤ max_cached_text }
    {
        self.text.as_str()
    }

    /// The schema that it denotes.
    pub fn schema(&self) -> &Schema
        ensures schema { result.now ≡ self.now.nodes }
        ensures denotes { denoted_nodes self.now.text ≡ Some (nodes_view result.now) }
    {
        &self.schema
    }

    /// Returns the schema, and drops the text.
    pub fn into_schema(self) -> Schema
        ensures schema { result ≡ self.nodes }
        ensures denotes { denoted_nodes self.text ≡ Some (nodes_view result) }
    {
        let Entry { text: _, schema } = self;
        schema
    }
}
