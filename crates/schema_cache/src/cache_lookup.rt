//! The result of a read.

ghost use Rattle.std.specs.Prelude.{◌≡◌};
ghost use Rattle.schema_cache.specs.Answers.{found_schema};

use avro_schema::Schema;

/// The schema that a text denotes, borrowed from the cache or parsed for this call.
#[derive(Drop)]
pub enum CacheLookup<'a> {
    /// A schema in the cache.
    Cached(&'a Schema),
    /// A parsed schema that isn't in the cache.
    Uncached(Schema),
}

impl CacheLookup<'_> {
    /// Returns the schema.
    pub fn schema(&self) -> &Schema
        ensures { result.now ≡ found_schema self.now }
    {
        match self {
            CacheLookup::Cached(schema) => schema,
            CacheLookup::Uncached(schema) => schema,
        }
    }
}
