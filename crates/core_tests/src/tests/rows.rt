//! Rows that spell a registry, and rows that spell none.

use reg_rows::{Tables, spells};
use std::alloc::Global;
use std::test::Fail;

/// A row of a table. Rows of `evidence` and `against` belong to the subject s. Those of `against` name the id 1.
#[derive(Clone, Copy)]
enum Row {
    Text(u32, &'static str),
    Meta(&'static str, &'static str),
    Mode(&'static str, &'static str),
    Evidence(u32, &'static str),
    Against(u32, u32),
}

const GLOBAL: Row = Row::Meta("global", "BACKWARD");

const MODE: Row = Row::Meta("mode", "READWRITE");

const FULL: Row = Row::Evidence(1, "FULL");

/// The layout, the rows other than `format` and `layout` of `meta`, and whether all of them spell a registry.
const CASES: [(&str, &[Row], bool); 25] = [
    ("1", &[], false),
    ("1", &[GLOBAL], true),
    ("1", &[GLOBAL, Row::Text(1, "\"int\"")], true),
    (
        "1",
        &[GLOBAL, Row::Text(1, "\"int\""), Row::Text(3, "\"long\"")],
        false,
    ),
    ("1", &[GLOBAL, MODE], false),
    ("1", &[GLOBAL, Row::Mode("s", "READONLY")], false),
    ("1", &[GLOBAL, FULL], false),
    ("1", &[GLOBAL, Row::Against(1, 1)], false),
    ("2", &[GLOBAL], false),
    ("2", &[MODE], false),
    ("2", &[GLOBAL, MODE], true),
    ("2", &[GLOBAL, MODE, Row::Meta("more", "1")], false),
    ("2", &[GLOBAL, Row::Meta("mode", "IMPORT")], false),
    ("3", &[GLOBAL, MODE], false),
    (
        "2",
        &[
            GLOBAL,
            MODE,
            Row::Mode("s", "READONLY"),
            Row::Mode("t", "READWRITE"),
        ],
        true,
    ),
    ("2", &[GLOBAL, MODE, Row::Mode("s", "readonly")], false),
    ("2", &[GLOBAL, MODE, Row::Mode("", "READONLY")], false),
    ("2", &[GLOBAL, MODE, FULL], true),
    ("2", &[GLOBAL, MODE, Row::Evidence(1, "Full")], false),
    // in any order
    (
        "2",
        &[GLOBAL, MODE, FULL, Row::Against(1, 2), Row::Against(1, 1)],
        true,
    ),
    // no evidence, or evidence of another version
    ("2", &[GLOBAL, MODE, Row::Against(1, 1)], false),
    ("2", &[GLOBAL, MODE, FULL, Row::Against(2, 1)], false),
    // positions that begin at 0 or at 2, and a gap
    ("2", &[GLOBAL, MODE, FULL, Row::Against(1, 0)], false),
    (
        "2",
        &[
            GLOBAL,
            MODE,
            FULL,
            Row::Evidence(2, "NONE"),
            Row::Against(1, 1),
            Row::Against(2, 2),
        ],
        false,
    ),
    (
        "2",
        &[GLOBAL, MODE, FULL, Row::Against(1, 1), Row::Against(1, 3)],
        false,
    ),
];

fn pair(alloc: Global, name: &str, value: &str) -> Result<(String, String), Fail> {
    Ok((
        String::from_str(alloc, name)?,
        String::from_str(alloc, value)?,
    ))
}

fn add(alloc: Global, tables: &mut Tables, row: Row) -> Result<(), Fail> {
    let subject = String::from_str(alloc, "s")?;
    match row {
        Row::Text(id, text) => tables.texts.push((id, String::from_str(alloc, text)?))?,
        Row::Meta(name, value) => tables.meta.push(pair(alloc, name, value)?)?,
        Row::Mode(of, mode) => tables.modes.push(pair(alloc, of, mode)?)?,
        Row::Evidence(version, level) => {
            let level = String::from_str(alloc, level)?;
            tables.evidence.push((subject, version, level))?;
        }
        Row::Against(version, position) => {
            tables.against.push((subject, version, position, 1))?;
        }
    }
    Ok(())
}

/// The tables of this layout, with these rows and the rows `format` and `layout` of `meta`.
fn tables(alloc: Global, layout: &'static str, rows: &[Row]) -> Result<Tables, Fail> {
    let mut tables = Tables {
        texts: Vec::new(alloc),
        versions: Vec::new(alloc),
        levels: Vec::new(alloc),
        kept: Vec::new(alloc),
        meta: Vec::new(alloc),
        modes: Vec::new(alloc),
        evidence: Vec::new(alloc),
        against: Vec::new(alloc),
    };
    add(alloc, &mut tables, Row::Meta("format", "avroreg"))?;
    add(alloc, &mut tables, Row::Meta("layout", layout))?;
    for row in rows {
        add(alloc, &mut tables, *row)?;
    }
    Ok(tables)
}

#[test]
fn rows_spell_a_registry(rt: HostRuntime) -> Result<(), Fail> {
    let alloc = rt.alloc();
    for (index, (layout, rows, spelt)) in CASES.into_iter().enumerate() {
        let tables = tables(alloc, layout, rows)?;
        assert_eq!(rt; spells(alloc, &tables)?, spelt, "{index}");
    }
    Ok(())
}
