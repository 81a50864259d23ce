//! The pairs of texts that are resolved, without the hostile ones.

use crate::shape::Shape;
use avro_testing::Template;

/// A record of fields of one type.
const FIELDS: &str = r##"once {"type":"record","name":"R","fields":[
each ;{"name":"f#","type":$}
once ]}"##;

/// A union of records.
const UNION: &str = r##"once [
each ;{"type":"record","name":"A#","fields":[{"name":"f","type":"int"}]}
once ]"##;

/// A chain of records: each has a field of the previous one.
const CHAIN: &str = r##"once [{"type":"record","name":"n.A0","fields":[{"name":"f","type":$}]}
later ,{"type":"record","name":"n.A#","fields":[{"name":"f","type":"n.A<"}]}
once ]"##;

/// The same with one last name.
pub const ONE_NAME: &str =
    r##"once [{"type":"record","name":"n0.A","fields":[{"name":"f","type":$}]}
later ,{"type":"record","name":"n#.A","fields":[{"name":"f","type":"n<.A"}]}
once ]"##;

/// A record with a chain of records of one last name, each with a field of the next one. The last
/// record of the chain has a field of the type `$`.
pub const CYCLE: &str = r##"once {"type":"record","name":"c.A","fields":[{"name":"d","type":["null"
last ,{"type":"record","name":"n#.A","fields":[{"name":"f","type":$}]}
down ,{"type":"record","name":"n#.A","fields":[{"name":"f","type":"n>.A"}]}
once ],"default":null},{"name":"f","type":"n1.A"}]}"##;

/// Nested records, 20 deep.
const NESTED: &str = r##"0..20 {"type":"record","name":"R#","fields":[@{"name":"next","type":
once "int"}]}}]}}]}}]}}]}}]}}]}}]}}]}}]}}]}}]}}]}}]}}]}}]}}]}}]}}]}}]}"##;

/// A record of fields of a binary tree.
const TREE: &str =
    r##"once {"type":"record","name":"R","fields":[{"name":"f","type":{"type":"record","name":"Tree","fields":[{"name":"value","type":"int"},{"name":"left","type":["null","Tree"]},{"name":"right","type":["null","Tree"]}]}}
later ,{"name":"f#","type":"Tree"}
once ]}"##;

/// An enum.
const ENUM: &str = r##"once {"type":"enum","name":"E","symbols":[
later "~",
once "a"]}"##;

/// Enums of one last name.
pub const ENUMS: &str = r##"once [
each ;{"type":"enum","name":"n#.A","symbols":[@"$"]}
once ]"##;

/// Records of one last name, each with a field of the same record.
const FAN: &str = r##"once [{"type":"record","name":"n.Z","fields":[{"name":"f","type":$}]}
each ,{"type":"record","name":"n#.A","fields":[{"name":"f","type":"n.Z"}]}
once ]"##;

/// A record with one field for each of many other records.
const REFERENCES: &str = r##"once {"type":"record","name":"R","fields":[{"name":"d","type":["null"
each ,{"type":"record","name":"n#.A","fields":[{"name":"f#","type":"int"}]}
once ],"default":null}
each ,{"name":"g#","type":"n#.A"}
once ]}"##;

/// An enum of 20,000 symbols, and records with a field of this enum and another field.
const RETAKEN: &str = r##"once [{"type":"enum","name":"E","symbols":[
1..20000 "~",
once "a"]}
each ,{"type":"record","name":"n#.A","fields":[{"name":"e","type":"E"},{"name":"f","type":$}]}
once ]"##;

/// A chain of records, and an enum of 5000 symbols.
const CHAIN_AND_ENUM: &str = r##"once [{"type":"enum","name":"E","symbols":[
1..5000 "~",
once "a"]},{"type":"record","name":"n.A0","fields":[{"name":"f","type":$}]}
later ,{"type":"record","name":"n.A#","fields":[{"name":"f","type":"n.A<"}]}
once ]"##;

/// Records of one last name, and eleven fields with the union of all of them.
const UNIONS: &str = r##"once {"type":"record","name":"R","fields":[{"name":"d","type":["null",
each ;{"type":"record","name":"n#.A","fields":[{"name":"f","type":$}]}
once ],"default":null}
0..11 ,{"name":"u#","type":[@]}
once ]}"##;

/// Records of one last name with a field of the same record, and nineteen fields with the union of
/// all of them.
const MANY_UNIONS: &str =
    r##"once {"type":"record","name":"R","fields":[{"name":"d","type":["null",{"type":"record","name":"n.Z","fields":[{"name":"f","type":$}]}
each ,{"type":"record","name":"n#.A","fields":[{"name":"f","type":"n.Z"}]}
once ],"default":null}
0..19 ,{"name":"u#","type":[@]}
once ]}"##;

/// Records of eight fields, and the types of these fields: records of one field. This is an int in
/// the first type and a string in the fourth. The fifth type refers to the third, and each other
/// type to the one before it.
const CROWD: &str = r##"once [{"type":"record","name":"p0.P","fields":[{"name":"f","type":"int"}]}
1..3 ,{"type":"record","name":"p#.P","fields":[{"name":"f","type":"p<.P"}]}
once ,{"type":"record","name":"p3.P","fields":[{"name":"f","type":"string"}]}
once ,{"type":"record","name":"p4.P","fields":[{"name":"f","type":"p2.P"}]}
5..8 ,{"type":"record","name":"p#.P","fields":[{"name":"f","type":"p<.P"}]}
each ,{"type":"record","name":"n#.A","fields":[{"name":"x0","type":"p0.P"},{"name":"x1","type":"p1.P"},{"name":"x2","type":"p2.P"},{"name":"x3","type":"p3.P"},{"name":"x4","type":"p4.P"},{"name":"x5","type":"p5.P"},{"name":"x6","type":"p6.P"},{"name":"x7","type":"p7.P"}]}
once ]"##;

/// Records of one last name, and eleven records with a field for each of them.
const WIDE: &str = r##"once [
each ;{"type":"record","name":"n#.A","fields":[{"name":"f#","type":"int"}]}
0..11 ,{"type":"record","name":"w#.W","fields":[@]}
once ]"##;

/// The shapes for resolving.
static RESOLUTION: [Shape; 26] = [
    // a record of fields of type int, with itself
    Shape {
        name: "fields",
        counts: &[10, 100, 1000, 4095],
        after_cycle: 3040,
        inner: "",
        writer: Template {
            word: r#""int""#,
            parts: FIELDS,
        },
        reader: Template {
            word: r#""int""#,
            parts: FIELDS,
        },
    },
    // the same, but the reader has the fields in reverse order
    Shape {
        name: "reversed",
        counts: &[10, 100, 1000, 4095],
        after_cycle: 3040,
        inner: "",
        writer: Template {
            word: r#""int""#,
            parts: FIELDS,
        },
        reader: Template {
            word: r#""int""#,
            parts: r##"once {"type":"record","name":"R","fields":[
down {"name":"f#","type":$},
once {"name":"f0","type":$}]}"##,
        },
    },
    // as `fields`, but the reader has strings
    Shape {
        name: "other-types",
        counts: &[10, 100, 1000, 4095],
        after_cycle: 3040,
        inner: "",
        writer: Template {
            word: r#""int""#,
            parts: FIELDS,
        },
        reader: Template {
            word: r#""string""#,
            parts: FIELDS,
        },
    },
    // nested records, 20 deep, each with many fields, with itself
    Shape {
        name: "nested",
        counts: &[1, 10, 100],
        after_cycle: 100,
        inner: r##"each {"name":"f#","type":"int"},"##,
        writer: Template {
            word: "",
            parts: NESTED,
        },
        reader: Template {
            word: "",
            parts: NESTED,
        },
    },
    // fields of a binary tree, with itself
    Shape {
        name: "tree",
        counts: &[1, 100],
        after_cycle: 100,
        inner: "",
        writer: Template {
            word: "",
            parts: TREE,
        },
        reader: Template {
            word: "",
            parts: TREE,
        },
    },
    // a union of records, with itself
    Shape {
        name: "union",
        counts: &[100, 680, 2000],
        after_cycle: 1500,
        inner: "",
        writer: Template {
            word: "",
            parts: UNION,
        },
        reader: Template {
            word: "",
            parts: UNION,
        },
    },
    // an enum of many symbols, with itself
    Shape {
        name: "enum",
        counts: &[100, 1000, 10000, 110000, 140000],
        after_cycle: 130000,
        inner: "",
        writer: Template {
            word: "",
            parts: ENUM,
        },
        reader: Template {
            word: "",
            parts: ENUM,
        },
    },
    // enums of 60 symbols and one last name, with themselves
    Shape {
        name: "enums",
        counts: &[100, 1000, 3500],
        after_cycle: 3000,
        inner: r##"1..60 "~","##,
        writer: Template {
            word: "a",
            parts: ENUMS,
        },
        reader: Template {
            word: "a",
            parts: ENUMS,
        },
    },
    // enums of 340 symbols and one last name; the reader has as many enums with another last
    // symbol, and one more enum, which has a default
    Shape {
        name: "last-symbols",
        counts: &[100, 499],
        after_cycle: 460,
        inner: r##"1..340 "~","##,
        writer: Template {
            word: "Guh",
            parts: ENUMS,
        },
        reader: Template {
            word: "Huh",
            parts: r##"once [
each ;{"type":"enum","name":"n#.A","symbols":[@"$"]}
once ,{"type":"enum","name":"z.A","symbols":["other"],"default":"other"}]"##,
        },
    },
    // a chain of records, with itself
    Shape {
        name: "chain",
        counts: &[100, 1000, 4000],
        after_cycle: 3000,
        inner: "",
        writer: Template {
            word: r#""int""#,
            parts: CHAIN,
        },
        reader: Template {
            word: r#""int""#,
            parts: CHAIN,
        },
    },
    // the same, but the reader's first record has a string in place of the int
    Shape {
        name: "broken-chain",
        counts: &[100, 1000, 4000],
        after_cycle: 3000,
        inner: "",
        writer: Template {
            word: r#""int""#,
            parts: CHAIN,
        },
        reader: Template {
            word: r#""string""#,
            parts: CHAIN,
        },
    },
    // the same, but all records have one last name
    Shape {
        name: "one-name",
        counts: &[100, 1000, 4000],
        after_cycle: 3000,
        inner: "",
        writer: Template {
            word: r#""int""#,
            parts: ONE_NAME,
        },
        reader: Template {
            word: r#""string""#,
            parts: ONE_NAME,
        },
    },
    // records with a field of the same record, which has an int, and for the reader a string
    Shape {
        name: "fan",
        counts: &[100, 1000, 4000],
        after_cycle: 3000,
        inner: "",
        writer: Template {
            word: r#""int""#,
            parts: FAN,
        },
        reader: Template {
            word: r#""string""#,
            parts: FAN,
        },
    },
    // a cycle of records of one last name, with a cycle of one more record
    Shape {
        name: "cycles",
        counts: &[40, 400, 4000],
        after_cycle: 3000,
        inner: "",
        writer: Template {
            word: r#""c.A""#,
            parts: CYCLE,
        },
        reader: Template {
            word: r#""n.A""#,
            parts: r##"once {"type":"record","name":"c.A","fields":[{"name":"d","type":["null",{"type":"record","name":"n.A","fields":[{"name":"f","type":"c.A"}]}
last ,{"type":"record","name":"n#.A","fields":[{"name":"f","type":$}]}
down ,{"type":"record","name":"n#.A","fields":[{"name":"f","type":"n>.A"}]}
once ],"default":null},{"name":"f","type":"n1.A"}]}"##,
        },
    },
    // a record with a chain of records of one last name; the last record has an int, and for the
    // reader a string
    Shape {
        name: "open-cycles",
        counts: &[400, 4000],
        after_cycle: 3000,
        inner: "",
        writer: Template {
            word: r#""int""#,
            parts: CYCLE,
        },
        reader: Template {
            word: r#""string""#,
            parts: CYCLE,
        },
    },
    // a record with one field for each of many records of one last name and different fields, with
    // itself
    Shape {
        name: "references",
        counts: &[200, 2000],
        after_cycle: 1500,
        inner: "",
        writer: Template {
            word: "",
            parts: REFERENCES,
        },
        reader: Template {
            word: "",
            parts: REFERENCES,
        },
    },
    // An enum of 20,000 symbols, and records of one last name. They have a field of this enum and
    // another field, which is an int, and for the reader a string.
    Shape {
        name: "retaken",
        counts: &[200, 2000],
        after_cycle: 1500,
        inner: "",
        writer: Template {
            word: r#""int""#,
            parts: RETAKEN,
        },
        reader: Template {
            word: r#""string""#,
            parts: RETAKEN,
        },
    },
    // a ladder with two records a rung on the reader's side, and different types at the end
    Shape {
        name: "ladder",
        counts: &[30, 300],
        after_cycle: 200,
        inner: "",
        writer: Template {
            word: r#""int""#,
            parts: r##"once {"type":"record","name":"T","fields":[{"name":"d","type":["null"
last ,{"type":"record","name":"w.A#","fields":[{"name":"f","type":$}]}
down ,{"type":"record","name":"w.A#","fields":[{"name":"f","type":["w.A>"]}]}
once ],"default":null},{"name":"f","type":["w.A1"]}]}"##,
        },
        reader: Template {
            word: r#""string""#,
            parts: r##"once {"type":"record","name":"T","fields":[{"name":"d","type":["null"
last ,{"type":"record","name":"x.A#","fields":[{"name":"f","type":$}]},{"type":"record","name":"y.A#","fields":[{"name":"f","type":$}]}
down ,{"type":"record","name":"x.A#","fields":[{"name":"f","type":["x.A>","y.A>"]}]},{"type":"record","name":"y.A#","fields":[{"name":"f","type":["x.A>","y.A>"]}]}
once ],"default":null},{"name":"f","type":["x.A1","y.A1"]}]}"##,
        },
    },
    // a broken chain, and an enum of 5000 symbols
    Shape {
        name: "beside",
        counts: &[200],
        after_cycle: 200,
        inner: "",
        writer: Template {
            word: r#""int""#,
            parts: CHAIN_AND_ENUM,
        },
        reader: Template {
            word: r#""string""#,
            parts: CHAIN_AND_ENUM,
        },
    },
    // eleven unions of the same records of one last name, which have an int, and for the reader a
    // string
    Shape {
        name: "unions",
        counts: &[200, 2000],
        after_cycle: 1500,
        inner: r##"each ;"n#.A""##,
        writer: Template {
            word: r#""int""#,
            parts: UNIONS,
        },
        reader: Template {
            word: r#""string""#,
            parts: UNIONS,
        },
    },
    // Eleven records of one last name, with themselves. Each has one field for each of many
    // records, which have another last name and different fields.
    Shape {
        name: "wide",
        counts: &[200, 2000],
        after_cycle: 1500,
        inner: r##"each ;{"name":"g#","type":"n#.A"}"##,
        writer: Template {
            word: "",
            parts: WIDE,
        },
        reader: Template {
            word: "",
            parts: WIDE,
        },
    },
    // records, with the same records after a record of 100,000 aliases
    Shape {
        name: "aliases",
        counts: &[200, 2000],
        after_cycle: 1400,
        inner: "",
        writer: Template {
            word: "",
            parts: UNION,
        },
        reader: Template {
            word: "",
            parts: r##"once [{"type":"record","name":"Other","aliases":[
52..100052 ;"~"
once ],"fields":[]},
each ;{"type":"record","name":"A#","fields":[{"name":"f","type":"int"}]}
once ]"##,
        },
    },
    // records of one last name, with a record whose field has 100,000 aliases
    Shape {
        name: "field-aliases",
        counts: &[200, 2000],
        after_cycle: 1500,
        inner: "",
        writer: Template {
            word: "",
            parts: r##"once [
each ;{"type":"record","name":"n#.A","fields":[{"name":"f","type":"int"}]}
once ]"##,
        },
        reader: Template {
            word: "",
            parts: r##"once {"type":"record","name":"r.A","fields":[{"name":"g","type":"int","default":0,"aliases":[
52..100052 ;"~"
once ]}]}"##,
        },
    },
    // nineteen unions of the same records of one last name, the maximum that fits into a text. The
    // records have a field of a record with an int, and for the reader a string.
    Shape {
        name: "many-unions",
        counts: &[2000, 3900],
        after_cycle: 3000,
        inner: r##"each ;"n#.A""##,
        writer: Template {
            word: r#""int""#,
            parts: MANY_UNIONS,
        },
        reader: Template {
            word: r#""string""#,
            parts: MANY_UNIONS,
        },
    },
    // Records of one last name with eight fields, x0 to x7, whose types fail in turn, except the
    // fourth. The reader's records have one field. Its first 37 aliases name none of the eight
    // fields, and then all eight follow, the fourth first.
    Shape {
        name: "crowd",
        counts: &[400, 1500, 3100],
        after_cycle: 2900,
        inner: r##"52..89 "~","##,
        writer: Template {
            word: "",
            parts: CROWD,
        },
        reader: Template {
            word: "",
            parts: r##"once [{"type":"record","name":"p.P","fields":[{"name":"f","type":"string"}]}
each ,{"type":"record","name":"n#.A","fields":[{"name":"z","type":"p.P","default":{"f":""},"aliases":[@"x3","x0","x1","x2","x4","x5","x6","x7"]}]}
once ]"##,
        },
    },
    // Records of one last name with a field of their own type, with a thousand records of twenty
    // such fields. These have the name of the writer's field as an alias.
    Shape {
        name: "aliased",
        counts: &[400, 4090],
        after_cycle: 3000,
        inner: r##"0..20 ;{"name":"~","type":"A","aliases":["x"]}"##,
        writer: Template {
            word: "",
            parts: r##"once [
each ;{"type":"record","name":"n#.A","fields":[{"name":"x","type":"A"}]}
once ]"##,
        },
        reader: Template {
            word: "",
            parts: r##"once [
0..1000 ;{"type":"record","name":"n#.A","fields":[@]}
once ]"##,
        },
    },
];

/// The shapes that are resolved, without the hostile ones.
pub fn resolution() -> &'static [Shape] {
    &RESOLUTION
}
