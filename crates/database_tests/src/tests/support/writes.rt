//! A list of deliveries: writes with retry keys, a retry, and reads between them.

use super::deliveries::{ListedCommand, Row};

const FULL_SET: &str = "{\"compatibility\":\"FULL\"}";

const INCOMPATIBLE: &str =
    "{\"error_code\":409,\"message\":\"Schema is incompatible with an earlier version\"}";

const NOT_SOFT_DELETED: &str = "{\"error_code\":40405,\"message\":\"Subject is not soft-deleted\"}";

const REUSED: &str =
    "{\"error_code\":42290,\"message\":\"Retry key was used for another request\"}";

/// Deliveries to a new registry: writes, a retry of one, its key with another command, and reads.
/// They leave eight kept replies, two texts, no version and no evidence. The reads need no row, so
/// their reply is the same when the list is sent again. After a disk fault it must be 50001 too.
pub const WRITES: [Row; 13] = [
    (Some("z1"), ListedCommand::SetGlobal("FULL"), 200, FULL_SET),
    (
        Some("z2"),
        ListedCommand::Register("t", "\"int\""),
        200,
        "{\"id\":1}",
    ),
    (Some("z3"), ListedCommand::DeleteVersion("t", "1"), 200, "1"),
    (
        Some("z4"),
        ListedCommand::Register("t", "\"string\""),
        200,
        "{\"id\":2}",
    ),
    (None, ListedCommand::Types, 200, "[\"AVRO\"]"),
    (
        Some("z5"),
        ListedCommand::Register("t", "\"int\""),
        409,
        INCOMPATIBLE,
    ),
    (None, ListedCommand::Types, 200, "[\"AVRO\"]"),
    (
        Some("z2"),
        ListedCommand::Register("t", "\"int\""),
        200,
        "{\"id\":1}",
    ),
    (
        Some("z2"),
        ListedCommand::DeleteVersion("t", "1"),
        422,
        REUSED,
    ),
    (
        Some("z6"),
        ListedCommand::DeleteSubject("t", true),
        404,
        NOT_SOFT_DELETED,
    ),
    (
        Some("z7"),
        ListedCommand::DeleteSubject("t", false),
        200,
        "[2]",
    ),
    (None, ListedCommand::Types, 200, "[\"AVRO\"]"),
    (
        Some("z8"),
        ListedCommand::DeleteSubject("t", true),
        200,
        "[1,2]",
    ),
];
