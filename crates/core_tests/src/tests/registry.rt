//! Decisions when ids or version numbers run out, and the schemas that decisions cache. The expected statuses and
//! bodies were derived manually from the profile (`docs/avro-registry-profile.md`).

use avro_schema::Schema;
use reg_core::{
    Change, Command, Decision, Level, Mode, Row, Subject, Text, View, decide, decide_with_cache,
};
use schema_cache::SchemaCache;
use std::alloc::Global;
use std::collections::BTreeMap;
use std::process::Abort;
use std::test::Fail;

/// Registrations of `"int"` in a subject with one version. The first columns are the version's number, whether it is
/// soft-deleted, the id of `"int"` if any, and the number of schemas. Then come the status, the body, and the number
/// of the added version, or 0 if none is added.
#[rattlefmt::skip]
const LAST_NUMBERS: [(u32, bool, Option<u32>, u32, u16, &str, u32); 5] = [
    // the next number comes after those of soft-deleted versions
    (2_147_483_646, true, Some(1), 1, 200, ID_1, 2_147_483_647),
    (2_147_483_647, true, Some(1), 1, 422, NO_NUMBER, 0),
    // no id is left for a new schema
    (1, true, None, 2_147_483_647, 422, NO_NUMBER, 0),
    // a schema that a live version has needs no number
    (2_147_483_647, false, Some(1), 2_147_483_647, 200, ID_1, 0),
    // the level is checked before the numbers
    (2_147_483_647, false, None, 2_147_483_647, 409, INCOMPATIBLE, 0),
];

const ID_1: &str = "{\"id\":1}";

const NO_NUMBER: &str = "{\"error_code\":42292,\"message\":\"No number is left\"}";

const INCOMPATIBLE: &str =
    "{\"error_code\":409,\"message\":\"Schema is incompatible with an earlier version\"}";

/// The subject s.
fn subject(alloc: Global) -> Result<Subject, Fail> {
    Ok(Subject::new(String::from_str(alloc, "s")?).ok_or("a subject")?)
}

/// A view for the subject s. Its only version has this number, and the schema with the id 1, `"string"`. `"int"` has
/// no id.
fn view(alloc: Global, number: u32, deleted: bool) -> Result<View, Fail> {
    let mut rows = Vec::new(alloc);
    rows.push(Row::new(subject(alloc)?, number, 1, deleted))?;
    let mut texts = BTreeMap::new(alloc);
    texts.insert(1, String::from_str(alloc, "\"string\"")?)?;
    Ok(View {
        rows,
        texts,
        own: None,
        global: Level::Backward,
        own_mode: None,
        global_mode: Mode::Readwrite,
        known: None,
        count: 1,
    })
}

/// A registration of `"int"` in the subject s.
fn register(alloc: Global) -> Result<Command, Fail> {
    Ok(Command::Register {
        subject: subject(alloc)?,
        text: Text::from(String::from_str(alloc, "\"int\"")?),
        supported: true,
    })
}

/// The decision on the registration.
fn decided(alloc: Global, view: &View) -> Result<Decision, Fail> {
    let schema = Schema::read(alloc, "\"int\"")?;
    let command = register(alloc)?;
    Ok(decide(alloc, view, &command, Some(&schema))?)
}

/// The same with a cache of schemas.
fn decided_with(alloc: Global, view: &View, cache: &mut SchemaCache) -> Result<Decision, Fail> {
    let schema = Schema::read(alloc, "\"int\"")?;
    let command = register(alloc)?;
    Ok(decide_with_cache(alloc, view, &command, Some(&schema), Some(cache))?)
}

/// Checks a decision's status and body, and the number of the version that its last change adds. The number is 0 if
/// that change adds no version, or if there is no change.
fn check_decision(rt: &impl Abort, decision: &Decision, status: u16, body: &str, last: u32) {
    let added = match decision.changes.last() {
        Some(Change::AddRow { row, .. }) => row.version(),
        _ => 0,
    };
    assert_eq!(rt; decision.reply.status(), status);
    assert_eq!(rt; decision.reply.body(), body);
    assert_eq!(rt; added, last);
}

#[test]
fn numbers_run_out(rt: HostRuntime) -> Result<(), Fail> {
    for (number, deleted, known, count, status, body, last) in LAST_NUMBERS {
        let mut view = view(rt.alloc(), number, deleted)?;
        view.known = known;
        view.count = count;
        check_decision(&rt, &decided(rt.alloc(), &view)?, status, body, last);
    }
    Ok(())
}

/// A version's schema is cached after it is compared once.
#[test]
fn compared_schemas_are_cached(rt: HostRuntime) -> Result<(), Fail> {
    let view = view(rt.alloc(), 1, false)?;
    let mut cache = SchemaCache::new();
    for _ in 0..2 {
        let decision = decided_with(rt.alloc(), &view, &mut cache)?;
        check_decision(&rt, &decision, 409, INCOMPATIBLE, 0);
        assert_eq!(rt; cache.len_and_bytes(), (1, 8));
    }
    Ok(())
}
