//! The texts that are read.

use crate::shape::{NO_TEXT, Shape};
use avro_testing::Template;

/// The shapes for reading.
static READING: [Shape; 13] = [
    // groups of three fields of type int, one of them with a default
    Shape {
        name: "fields",
        counts: &[1, 3, 33, 333, 1333],
        after_cycle: 0,
        inner: "",
        writer: Template {
            word: "",
            parts: r##"once {"type":"record","name":"Root","fields":[
each ;{"name":"first_#","type":"int","default":#},{"name":"second_#","type":"int"},{"name":"third_#","type":"int"}
once ]}"##,
        },
        reader: NO_TEXT,
    },
    // fields with a doc, as most schemas have them
    Shape {
        name: "documented",
        counts: &[1, 10, 100, 1000],
        after_cycle: 0,
        inner: "",
        writer: Template {
            word: "",
            parts: r##"once {"type":"record","name":"Order","namespace":"shop.orders","doc":"An order of a shop.","fields":[
each ;{"name":"field_#","type":"string","doc":"What field # of an order holds, in a few words."}
once ]}"##,
        },
        reader: NO_TEXT,
    },
    // a tree: branches of a long and ten leaves, and leaves of a long, a string and a union; a doc
    // for each record, and for each field whose type isn't a record
    Shape {
        name: "tree",
        counts: &[1, 10, 30],
        after_cycle: 0,
        inner: r##"0..10 ,{"name":"leaf_#","type":{"type":"record","name":"Leaf_#","doc":"Leaf # of a branch.","fields":[{"name":"id","type":"long","doc":"Which one it is."},{"name":"text","type":"string","doc":"What it says."},{"name":"note","type":["null","string"],"doc":"What else it says.","default":null}]}}"##,
        writer: Template {
            word: "",
            parts: r##"once {"type":"record","name":"Tree","namespace":"shop.trees","doc":"The root.","fields":[
each ;{"name":"branch_#","type":{"type":"record","name":"branch_#.Branch","doc":"Branch # of the tree.","fields":[{"name":"id","type":"long","doc":"Which one it is."}@]}}
once ]}"##,
        },
        reader: NO_TEXT,
    },
    // fields of nested records, 20 deep
    Shape {
        name: "nested",
        counts: &[1, 10, 100],
        after_cycle: 0,
        inner: r##"1..20 {"type":"record","name":"Nested_#","fields":[{"name":"inner","type":"##,
        writer: Template {
            word: "",
            parts: r##"once {"type":"record","name":"Root","fields":[
each ;{"name":"field_#","type":{"type":"record","name":"space_#.Nested_0","fields":[{"name":"inner","type":@"int"}]}}]}}]}}]}}]}}]}}]}}]}}]}}]}}]}}]}}]}}]}}]}}]}}]}}]}}]}}]}}
once ]}"##,
        },
        reader: NO_TEXT,
    },
    // fields with aliases, whose types are records with aliases in their own and another namespace
    Shape {
        name: "aliased",
        counts: &[1, 10, 100, 1000],
        after_cycle: 0,
        inner: "",
        writer: Template {
            word: "",
            parts: r##"once {"type":"record","name":"Root","namespace":"bench.aliased","aliases":["Old","other.Old"],"fields":[
each ;{"name":"field_#","aliases":["first_#","second_#"],"type":{"type":"record","name":"Inner_#","aliases":["Old_#","other.Old_#"],"fields":[{"name":"value","type":"int","aliases":["number"]}]}}
once ]}"##,
        },
        reader: NO_TEXT,
    },
    // groups of three branches: a record, an enum and a fixed
    Shape {
        name: "union",
        counts: &[1, 3, 33, 333],
        after_cycle: 0,
        inner: "",
        writer: Template {
            word: "",
            parts: r##"once [
each ;{"type":"record","name":"Record_#","fields":[]},{"type":"enum","name":"Enum_#","symbols":["A","B"]},{"type":"fixed","name":"Fixed_#","size":16}
once ]"##,
        },
        reader: NO_TEXT,
    },
    // an array of a record, whose fields have defaults; the array's default has as many empty
    // objects as the record has fields
    Shape {
        name: "defaults",
        counts: &[3, 10, 100, 1000],
        after_cycle: 0,
        inner: "",
        writer: Template {
            word: "",
            parts: r##"once {"type":"record","name":"Root","fields":[{"name":"items","type":{"type":"array","items":{"type":"record","name":"Item","fields":[
each ;{"name":"field_#","type":"int","default":#}
once ]}},"default":[
each ;{}
once ]}]}"##,
        },
        reader: NO_TEXT,
    },
    // symbols of an enum
    Shape {
        name: "symbols",
        counts: &[10, 1000, 60000],
        after_cycle: 0,
        inner: "",
        writer: Template {
            word: "",
            parts: r##"once {"type":"enum","name":"Root","symbols":[
each ;"SYMBOL_#"
once ]}"##,
        },
        reader: NO_TEXT,
    },
    // parts of a name, between its dots
    Shape {
        name: "parts",
        counts: &[10, 1000, 500000],
        after_cycle: 0,
        inner: "",
        writer: Template {
            word: "",
            parts: r##"once {"type":"fixed","size":1,"name":"a
each .a
once "}"##,
        },
        reader: NO_TEXT,
    },
    // fields of a type in the null namespace, in a record whose namespace fills the text
    Shape {
        name: "references",
        counts: &[1000, 4000, 15000, 25000],
        after_cycle: 0,
        inner: "",
        writer: Template {
            word: "",
            parts: r##"once [{"type":"fixed","name":"A","size":1},{"type":"record","name":"Root","namespace":"a
30 a
once ","fields":[
each ;{"name":"a#","type":"A"}
once ]}]"##,
        },
        reader: NO_TEXT,
    },
    // Branches of a union that name the record around it, whose namespace fills the text. The text
    // is no schema, since the branches are equal. They are compared only after all are read.
    Shape {
        name: "branches",
        counts: &[100, 1000, 10000, 100000, 187000],
        after_cycle: 0,
        inner: "",
        writer: Template {
            word: "",
            parts: r##"once {"type":"record","name":"A","namespace":"a
4 a
once ","fields":[{"name":"a","type":[
each ;"A"
once ]}]}"##,
        },
        reader: NO_TEXT,
    },
    // objects in a doc
    Shape {
        name: "objects",
        counts: &[10, 1000, 140000],
        after_cycle: 0,
        inner: "",
        writer: Template {
            word: "",
            parts: r##"once {"type":"int","doc":[
each ;{"":0}
once ]}"##,
        },
        reader: NO_TEXT,
    },
    // nested objects, 20 deep, in a doc
    Shape {
        name: "chains",
        counts: &[1, 100, 9000],
        after_cycle: 0,
        inner: "",
        writer: Template {
            word: "",
            parts: r##"once {"type":"int","doc":[
each ;{"":{"":{"":{"":{"":{"":{"":{"":{"":{"":{"":{"":{"":{"":{"":{"":{"":{"":{"":{"":0}}}}}}}}}}}}}}}}}}}}
once ]}"##,
        },
        reader: NO_TEXT,
    },
];

/// The shapes that are read.
pub fn reading() -> &'static [Shape] {
    &READING
}
