//! Which schemas the cache keeps, which a full cache evicts, and the policy for a scan.

use avro_schema::SchemaError;
use schema_cache::{CacheLookup, EvictionPolicy, SchemaCache};
use std::alloc::Global;
use std::process::Abort;
use std::test::Fail;

/// The identity text of the schema, or `NotJson` for a text that isn't JSON, and whether the schema is cached. Any
/// other error fails the test.
fn outcome(
    alloc: Global,
    cache: &mut SchemaCache,
    id: u32,
    text: &str,
    eviction_policy: EvictionPolicy,
) -> Result<(String, bool), Fail> {
    match cache.read(alloc, id, text, eviction_policy) {
        Ok(CacheLookup::Cached(schema)) => Ok((schema.text(alloc)?, true)),
        Ok(CacheLookup::Uncached(schema)) => Ok((schema.text(alloc)?, false)),
        Err(SchemaError::NotJson) => Ok((String::from_str(alloc, "NotJson")?, false)),
        Err(_) => Err("another error".into()),
    }
}

/// Reads of one text under each id of a range. First come the first id, the id after the last one, the text, the
/// number of blanks after it, and the policy. Then come the result of each read, and whether its schema is cached. The
/// last columns are the number of cached schemas after the reads, and the bytes of their texts.
type Reads = (
    u32,
    u32,
    &'static str,
    usize,
    EvictionPolicy,
    &'static str,
    bool,
    usize,
    usize,
);

/// Reads in sequence, with one cache that is empty at first.
#[rattlefmt::skip]
const READS: [Reads; 13] = [
    // an id has one text: a new one replaces it, unless it is invalid
    (7, 8, " \"int\"", 0, EvictionPolicy::EvictIfFull, "\"int\"", true, 1, 6),
    (7, 8, " \"int\"", 0, EvictionPolicy::EvictIfFull, "\"int\"", true, 1, 6),
    (7, 8, "\"string\"", 0, EvictionPolicy::EvictIfFull, "\"string\"", true, 1, 8),
    (7, 8, "\"int", 0, EvictionPolicy::EvictIfFull, "NotJson", false, 1, 8),
    (7, 8, "\"string\"", 0, EvictionPolicy::EvictIfFull, "\"string\"", true, 1, 8),
    // a text of more than 64 KiB isn't cached
    (8, 9, "\"int\"", 65532, EvictionPolicy::EvictIfFull, "\"int\"", false, 1, 8),
    // the least recently used schemas are evicted
    (1000, 1256, "\"int\"", 0, EvictionPolicy::EvictIfFull, "\"int\"", true, 256, 1280),
    (7, 8, "\"int\"", 0, EvictionPolicy::EvictIfFull, "\"int\"", true, 256, 1280),
    // under `NeverEvict` the cached schemas stay; 2000 is new, and 1000 was evicted
    (2000, 2001, "\"int\"", 0, EvictionPolicy::NeverEvict, "\"int\"", false, 256, 1280),
    (1000, 1001, "\"int\"", 0, EvictionPolicy::NeverEvict, "\"int\"", false, 256, 1280),
    (1001, 1256, "\"int\"", 0, EvictionPolicy::NeverEvict, "\"int\"", true, 256, 1280),
    // texts of 64 KiB: the cache has room for six of them
    (7, 12, "\"long\"", 65530, EvictionPolicy::EvictIfFull, "\"long\"", true, 256, 328_935),
    (12, 32, "\"long\"", 65530, EvictionPolicy::EvictIfFull, "\"long\"", true, 6, 393_216),
];

/// Checks the reads of a row, and the size of the cache after them.
fn check_reads(
    rt: &impl Abort,
    alloc: Global,
    cache: &mut SchemaCache,
    row: &Reads,
) -> Result<(), Fail> {
    let (first, end, text, blanks, eviction_policy, said, kept, schemas, bytes) = *row;
    let mut text = String::from_str(alloc, text)?;
    text.push_str(&" ".repeat(alloc, blanks)?)?;
    for id in first..end {
        let (read, is_kept) = outcome(alloc, cache, id, &text, eviction_policy)?;
        assert_eq!(rt; read.as_str(), said, "{id}");
        assert_eq!(rt; is_kept, kept, "{id}");
    }
    assert_eq!(rt; cache.len_and_bytes(), (schemas, bytes), "{first}");
    Ok(())
}

/// The cache keeps and evicts schemas as `READS` says.
#[test]
fn schemas_are_kept_and_evicted(rt: HostRuntime) -> Result<(), Fail> {
    let mut cache = SchemaCache::new();
    for row in &READS {
        check_reads(&rt, rt.alloc(), &mut cache, row)?;
    }
    Ok(())
}

/// The policy for a scan is `NeverEvict` if it has more schemas, or more bytes of texts, than a cache may have.
#[test]
fn too_large_scans_never_evict(rt: HostRuntime) {
    assert_eq!(rt;
        EvictionPolicy::for_scan(256, 393_216),
        EvictionPolicy::EvictIfFull
    );
    assert_eq!(rt;
        EvictionPolicy::for_scan(257, 0),
        EvictionPolicy::NeverEvict
    );
    assert_eq!(rt;
        EvictionPolicy::for_scan(1, 393_217),
        EvictionPolicy::NeverEvict
    );
}
