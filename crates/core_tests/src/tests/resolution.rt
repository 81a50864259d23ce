//! How many pairs of places the recursion opens, also if elimination decides. The expected numbers were derived
//! manually.

use avro_resolve::resolves;
use avro_schema::Schema;
use avro_testing::{Template, expand};
use std::alloc::Global;
use std::test::Fail;

/// An int.
const INT: &str = r#"once "int""#;

const TWO_FIELDS: &str =
    r#"once {"type":"record","name":"R","fields":[{"name":"a","type":"int"},{"name":"b","type":"int"}]}"#;

/// With `STALE_READER`, a pair is assumed and then fails. The assumptions made since must be withdrawn.
const STALE_WRITER: &str =
    r#"once {"type":"record","name":"A","fields":[{"name":"b","type":{"type":"record","name":"B","fields":[{"name":"a","type":["null","A"]}]}},{"name":"c","type":"int"}]}"#;

const STALE_READER: &str =
    r#"once [{"type":"record","name":"x.A","fields":[{"name":"b","type":{"type":"record","name":"x.B","fields":[{"name":"a","type":["null","x.A"]}]}},{"name":"c","type":"string"}]},{"type":"record","name":"y.A","fields":[{"name":"b","type":"x.B"}]}]"#;

/// A record whose second field leads to a chain of thirty records; the last one has an int.
const LADDER: &str =
    r##"once {"type":"record","name":"w.T","fields":[{"name":"wd","default":null,"type":["null",{"type":"record","name":"w.A30","fields":[{"name":"f","type":"int"}]}
29..0 ,{"type":"record","name":"w.A#","fields":[{"name":"f","type":"w.A>"}]}
once ]},{"name":"f","type":"w.A1"}]}"##;

/// A reader for `LADDER`, with two records at each step instead of one. Each field is a union of the next two records,
/// and the last two records have strings. Without the set of failed pairs, each pair would be tried on each path to
/// it, over a billion times in all.
const LADDER_OF_TWO: &str =
    r##"once {"type":"record","name":"r.T","fields":[{"name":"rd","default":null,"type":["null",{"type":"record","name":"x.A30","fields":[{"name":"f","type":"string"}]},{"type":"record","name":"y.A30","fields":[{"name":"f","type":"string"}]}
29..0 ,{"type":"record","name":"x.A#","fields":[{"name":"f","type":["x.A>","y.A>"]}]},{"type":"record","name":"y.A#","fields":[{"name":"f","type":["x.A>","y.A>"]}]}
once ]},{"name":"f","type":["x.A1","y.A1"]}]}"##;

/// A cycle of 40 records. All but the first are defined in a union, from the last down, so that the text doesn't nest
/// deeply.
const CYCLE_OF_40: &str =
    r##"once {"type":"record","name":"w1.R","fields":[{"name":"wd","default":null,"type":["null",{"type":"record","name":"w40.R","fields":[{"name":"f","type":"w1.R"}]}
39..1 ,{"type":"record","name":"w#.R","fields":[{"name":"f","type":"w>.R"}]}
once ]},{"name":"f","type":"w2.R"}]}"##;

/// A cycle of 41 records.
const CYCLE_OF_41: &str =
    r##"once {"type":"record","name":"r1.R","fields":[{"name":"rd","default":null,"type":["null",{"type":"record","name":"r41.R","fields":[{"name":"f","type":"r1.R"}]}
40..1 ,{"type":"record","name":"r#.R","fields":[{"name":"f","type":"r>.R"}]}
once ]},{"name":"f","type":"r2.R"}]}"##;

const ONE_FIELD: &str = r#"once {"type":"record","name":"R","fields":[{"name":"x","type":"int"}]}"#;

/// A field with many aliases; the last alias is a field of the writer.
const ALIASES: &str =
    r##"once {"type":"record","name":"R","fields":[{"name":"y","type":"long","aliases":[
0..4100 "a#",
once "x"]}]}"##;

/// The same, but no alias is a field of the writer.
const OTHER_ALIASES: &str =
    r##"once {"type":"record","name":"R","fields":[{"name":"y","type":"long","aliases":[
0..4100 "a#",
once "z"]}]}"##;

/// A record with two fields: a union of 320 fixed types whose names have the same last part, and an int.
const MANY_BRANCHES: &str = r##"once {"type":"record","name":"A","fields":[{"name":"u","type":[
0..320 ;{"type":"fixed","name":"n#.F","size":1}
once ]},{"name":"z","type":"int"}]}"##;

/// A union of 320 records that could read `MANY_BRANCHES` except for a string, and of one that can. For each of the
/// 320, the recursion withdraws its assumptions about the branches.
const MANY_READERS: &str =
    r##"once [{"type":"record","name":"c.A","fields":[{"name":"u","type":{"type":"fixed","name":"r.F","size":1}},{"name":"z","type":"string"}]}
1..320 ,{"type":"record","name":"c#.A","fields":[{"name":"u","type":"r.F"},{"name":"z","type":"string"}]}
once ,{"type":"record","name":"d.A","fields":[{"name":"u","type":"r.F"},{"name":"z","type":"int"}]}]"##;

/// A record with two fields: a record without fields, and an int.
const NO_FIELDS: &str =
    r##"once {"type":"record","name":"A","fields":[{"name":"u","type":{"type":"record","name":"U","fields":[]}},{"name":"z","type":"int"}]}"##;

/// A union of 1,000 records that could read `NO_FIELDS` except for a string, and of one that can. All contain the same
/// record, whose field has 4,000 aliases. Until its limit, the recursion looks these up once for each of the 1,000, in
/// a record without fields.
const ALIASED_READERS: &str =
    r##"once [{"type":"record","name":"c.A","fields":[{"name":"u","type":{"type":"record","name":"r.U","fields":[{"name":"y","type":"int","default":0,"aliases":[
0..4000 ;"a#"
once ]}]}},{"name":"z","type":"string"}]}
1..1000 ,{"type":"record","name":"c#.A","fields":[{"name":"u","type":"r.U"},{"name":"z","type":"string"}]}
once ,{"type":"record","name":"d.A","fields":[{"name":"u","type":"r.U"},{"name":"z","type":"int"}]}]"##;

/// A hundred records with a field of the same record, which has an int. One union has all of them, another one all but
/// the first.
const IN_UNIONS: &str =
    r##"once {"type":"record","name":"T","fields":[{"name":"wd","default":null,"type":["null",{"type":"record","name":"n.Z","fields":[{"name":"f","type":"int"}]}
0..100 ,{"type":"record","name":"n#.A","fields":[{"name":"f","type":"n.Z"}]}
once ]},{"name":"u","type":[
0..100 ;"n#.A"
once ]},{"name":"v","type":[
1..100 ;"n#.A"
once ]}]}"##;

/// The same with a string. An additional branch of the first union can read each record; no branch of the second union
/// can.
const STRINGS_IN_UNIONS: &str =
    r##"once {"type":"record","name":"T","fields":[{"name":"rd","default":null,"type":["null",{"type":"record","name":"n.Z","fields":[{"name":"f","type":"string"}]},{"type":"record","name":"e.A","fields":[]}
0..100 ,{"type":"record","name":"n#.A","fields":[{"name":"f","type":"n.Z"}]}
once ]},{"name":"u","type":[
0..100 ;"n#.A"
once ,"e.A"]},{"name":"v","type":[
1..100 ;"n#.A"
once ]}]}"##;

/// The same with that branch in both unions, and with 110 more unions, each of null and the record `n9.A`.
const STRINGS_IN_MANY_UNIONS: &str =
    r##"once {"type":"record","name":"T","fields":[{"name":"rd","default":null,"type":["null",{"type":"record","name":"n.Z","fields":[{"name":"f","type":"string"}]},{"type":"record","name":"e.A","fields":[]}
0..100 ,{"type":"record","name":"n#.A","fields":[{"name":"f","type":"n.Z"}]}
once ]},{"name":"u","type":[
0..100 ;"n#.A"
once ,"e.A"]},{"name":"v","type":[
1..100 ;"n#.A"
once ,"e.A"]}
0..110 ,{"name":"w#","default":null,"type":["null","n9.A"]}
once ]}"##;

/// Writers, readers, the verdicts, and the numbers of pairs that the recursion opens.
const VISITS: [(&str, &str, bool, u128); 11] = [
    (INT, INT, true, 1),
    (TWO_FIELDS, INT, false, 1),
    // eleven pairs are reached
    (STALE_WRITER, STALE_READER, false, 15),
    (LADDER, LADDER_OF_TWO, false, 122),
    // the maximum number of open pairs, before elimination decides
    (CYCLE_OF_40, CYCLE_OF_41, true, 1000),
    (ONE_FIELD, ALIASES, true, 2),
    (ONE_FIELD, OTHER_ALIASES, false, 1),
    // One pair of the roots, and 323 for each of 321 records: its own pair, the pairs of its two fields, and the 320
    // pairs of the branches. At most four pairs are open at once, and under a thousand are reached.
    (MANY_BRANCHES, MANY_READERS, true, 103_684),
    // Each record counts for 4,032. Its own pair counts for 13: nine, and one for each of the four fields of both
    // records. The pair of its first field's type counts for 4,010, and that of its second field's for nine. The pair
    // of the roots counts for nine. So 992 records and two pairs of the next exceed four million, and elimination
    // decides.
    (NO_FIELDS, ALIASED_READERS, true, 2979),
    // The recursion decides. It opens the pairs of the roots, of the first unions, of `n.Z` and of its field, and 102
    // pairs for each of the hundred records. Then come the pair of the second unions, and one for each of their
    // records: only for the first, which fails, or for all 99.
    (IN_UNIONS, STRINGS_IN_UNIONS, false, 10_206),
    (IN_UNIONS, STRINGS_IN_MANY_UNIONS, true, 10_304),
];

fn schema(alloc: Global, parts: &'static str) -> Result<Schema, Fail> {
    let text = expand(alloc, Template { word: "", parts }, "", 0)?;
    Ok(Schema::read(alloc, text.as_str())?)
}

/// By the contracts, `visits` could be the number of reached pairs. This test shows that it counts opened pairs.
#[test]
fn visits_counts_opened_pairs(rt: HostRuntime) -> Result<(), Fail> {
    let alloc = rt.alloc();
    for (writer, reader, yes, visits) in VISITS {
        let verdict = resolves(alloc, &schema(alloc, writer)?, &schema(alloc, reader)?)?;
        assert_eq!(rt; verdict.visits, visits);
        assert_eq!(rt; verdict.yes, yes, "{visits}");
    }
    Ok(())
}
