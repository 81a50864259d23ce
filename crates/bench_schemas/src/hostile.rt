//! Pairs of texts that were made to be slow.

use crate::resolution::{CYCLE, ENUMS, ONE_NAME};
use crate::shape::{HOLES, Shape, TWO_HOLES};
use avro_testing::Template;

/// Records that each have a field of one record, which has an int. Fields with unions of these
/// records follow.
const WRITTEN: &str =
    r##"once {"type":"record","name":"T","fields":[{"name":"written","default":null,"type":["null",{"type":"record","name":"n.Z","fields":[{"name":"f","type":"int"}]}
each ,{"type":"record","name":"n#.A","fields":[{"name":"f","type":"n.Z"}]}
once ]}@]}"##;

/// The same with a string for the int, and with a record that can read each of the writer's
/// records.
const READ: &str =
    r##"once {"type":"record","name":"T","fields":[{"name":"read","default":null,"type":["null",{"type":"record","name":"n.Z","fields":[{"name":"f","type":"string"}]},{"type":"record","name":"e.A","fields":[]}
each ,{"type":"record","name":"n#.A","fields":[{"name":"f","type":"n.Z"}]}
once ]}@]}"##;

/// The shapes of hostile pairs.
static HOSTILE: [Shape; 9] = [
    // Many records of the reader refer to one record, which resolves, and fail at their next field.
    // For each of them, the forty unions of that record are examined again, each with 3,000
    // branches that failed before.
    Shape {
        name: "rescans",
        counts: &[70, 700],
        after_cycle: 0,
        inner: r##"52..3052 ;"~""##,
        writer: Template {
            word: "",
            parts: r##"once {"type":"record","name":"T","fields":[{"name":"written","default":null,"type":["null",{"type":"fixed","name":"z.I","size":1}
0..14 ,{"type":"fixed","name":"y#.Y","size":1},{"type":"record","name":"y#.V","fields":[{"name":"u","type":"y#.Y"}]},{"type":"record","name":"w#.W","fields":[{"name":"x","type":"y#.V"},{"name":"z","type":"z.I"}]}
once ]},{"name":"f","type":[
0..14 ;"w#.W"
once ]}]}"##,
        },
        reader: Template {
            word: "",
            parts: r##"once {"type":"record","name":"T","fields":[{"name":"read","default":null,"type":["null",{"type":"fixed","name":"z.Y","size":1},{"type":"fixed","name":"z.S","size":1},{"type":"fixed","name":"z.I","size":1}
52..3052 ,{"type":"fixed","name":"~","size":1}
once ,{"type":"record","name":"v.V","fields":[
0..40 ;{"name":"u#","aliases":["u"],"type":[@,"z.Y"]}
once ]}
each ,{"type":"record","name":"c#.W","fields":[{"name":"x","type":"v.V"},{"name":"z","type":"z.S"}]}
once ,{"type":"record","name":"d.W","fields":[{"name":"x","type":"v.V"},{"name":"z","type":"z.I"}]}]},{"name":"f","type":[
each ;"c#.W"
once ,"d.W"]}]}"##,
        },
    },
    // a chain of records of one last name, with a record whose field repeats one alias
    Shape {
        name: "repeated-alias",
        counts: &[400, 4000],
        after_cycle: 2900,
        inner: "",
        writer: Template {
            word: r#""int""#,
            parts: ONE_NAME,
        },
        reader: Template {
            word: "",
            parts: r##"once {"type":"record","name":"r.A","fields":[{"name":"g","type":"A","aliases":[
0..230000 ;"f"
once ]}]}"##,
        },
    },
    // the same chain, with a record of two fields; the second has 139,948 different aliases
    Shape {
        name: "distinct-aliases",
        counts: &[400, 4000],
        after_cycle: 2900,
        inner: "",
        writer: Template {
            word: r#""int""#,
            parts: ONE_NAME,
        },
        reader: Template {
            word: "",
            parts: r##"once {"type":"record","name":"r.A","fields":[{"name":"f","type":"A","default":{}},{"name":"g","type":"A","default":{},"aliases":[
52..140000 ;"~"
once ]}]}"##,
        },
    },
    // unions that lack every 24th record
    Shape {
        name: "holes",
        counts: &[330, 3300],
        after_cycle: 2900,
        inner: HOLES,
        writer: Template {
            word: "",
            parts: WRITTEN,
        },
        reader: Template {
            word: "",
            parts: READ,
        },
    },
    // the same, but each of the reader's unions has a branch that can read each record
    Shape {
        name: "shared",
        counts: &[330, 3300],
        after_cycle: 2900,
        inner: HOLES,
        writer: Template {
            word: "",
            parts: WRITTEN,
        },
        reader: Template {
            word: r#","e.A""#,
            parts: READ,
        },
    },
    // unions that lack two of every 24 records, so that few records are in the same unions
    Shape {
        name: "subsets",
        counts: &[330, 3300],
        after_cycle: 2900,
        inner: TWO_HOLES,
        writer: Template {
            word: "",
            parts: WRITTEN,
        },
        reader: Template {
            word: "",
            parts: READ,
        },
    },
    // enums of 46 symbols and one last name; the reader has as many enums, of 47 symbols
    Shape {
        name: "more-symbols",
        counts: &[400, 3900],
        after_cycle: 2900,
        inner: r##"1..46 "~","##,
        writer: Template {
            word: "a",
            parts: ENUMS,
        },
        reader: Template {
            word: "a",
            parts: r##"once [
each ;{"type":"enum","name":"n#.A","symbols":["Z",@"$"]}
once ]"##,
        },
    },
    // records of ten fields, with a thousand records of nine fields that have the ten names as aliases
    Shape {
        name: "ten-aliases",
        counts: &[300, 3200],
        after_cycle: 2900,
        inner: r##"0..9 ;{"name":"A#","type":"n.Z","aliases":["a","b","c","d","e","f","g","h","i","j"]}"##,
        writer: Template {
            word: "",
            parts: r##"once [{"type":"record","name":"n.Z","fields":[{"name":"f","type":"int"}]}
each ,{"type":"record","name":"n#.A","fields":[{"name":"a","type":"n.Z"},{"name":"b","type":"n.Z"},{"name":"c","type":"n.Z"},{"name":"d","type":"n.Z"},{"name":"e","type":"n.Z"},{"name":"f","type":"n.Z"},{"name":"g","type":"n.Z"},{"name":"h","type":"n.Z"},{"name":"i","type":"n.Z"},{"name":"j","type":"n.Z"}]}
once ]"##,
        },
        reader: Template {
            word: "",
            parts: r##"once [{"type":"record","name":"n.Z","fields":[{"name":"f","type":"string"}]}
0..1000 ,{"type":"record","name":"n#.A","fields":[@]}
once ]"##,
        },
    },
    // a chain of records, with one recursive record of 25,950 fields, whose sources are kept for
    // each open pair
    Shape {
        name: "deep",
        counts: &[100, 998],
        after_cycle: 0,
        inner: "",
        writer: Template {
            word: r#""int""#,
            parts: CYCLE,
        },
        reader: Template {
            word: "",
            parts: r##"once {"type":"record","name":"A","fields":[{"name":"f","type":"A"},{"name":"Z","type":{"type":"record","name":"Z","fields":[]}}
52..26000 ,{"name":"~","type":"Z","default":{}}
once ]}"##,
        },
    },
];

/// The hostile shapes that are resolved.
pub fn hostile() -> &'static [Shape] {
    &HOSTILE
}
