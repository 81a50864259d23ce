//! Numbers, and nodes that no text denotes. The expected texts were derived manually from the profile
//! (`docs/avro-registry-profile.md`), which doesn't say how a float is written.

use avro_nodes::{Members, Node, PrimitiveKind, identity_of, plain_of};
use serde_json::Value;
use std::alloc::Global;
use std::test::Fail;

/// Texts, each with its rewritten text after the arrow, or without an arrow if a number in it is rejected.
const NUMBERS: &str = r#"=>
0=>0
16.0=>16
0.00=>0
-0=>0
-0.0=>0
-12.000=>-12
10=>10
18446744073709551615=>18446744073709551615
18446744073709551615.0=>18446744073709551615
-9223372036854775808=>-9223372036854775808
-9223372036854775808.00=>-9223372036854775808
+1=>+1
.5=>.5
e1=>e1
1 .0=>1 .0
[1.0,-2.0, 30 ]=>[1,-2, 30 ]
[true,false,null]=>[true,false,null]
"1.50"=>"1.50"
"01e"1.0=>"01e"1
"\"1.50"2.0=>"\"1.50"2
"\\"2.0=>"\\"2
"\u0031.5"2.0=>"\u0031.5"2
"1.50=>"1.50
["é1.0",2.0,"ü"]=>["é1.0",2,"ü"]
é1.0ü=>é1ü
1.50
1.05
1.
1.0.0
01
-01
00
-
--1
-.0
1e3
1E3
1.0e0
1+1
1-1
1e
18446744073709551616
100000000000000000000
-9223372036854775809
-18446744073709551616
"\\"1.50
{"a":1.0,"b":1.5}
{"a":1.5,"b":1.0}
"é"01"#;

#[test]
fn numbers(rt: HostRuntime) -> Result<(), Fail> {
    for row in NUMBERS.lines() {
        let (text, want) = match row.split_once("=>") {
            Some((text, want)) => (text, Some(want)),
            None => (row, None),
        };
        let plain = plain_of(rt.alloc(), text)?;
        assert_eq!(rt; plain.as_ref().map(String::as_str), want, "{row}");
    }
    Ok(())
}

fn members(alloc: Global, json: &str) -> Result<Members, Fail> {
    match Value::from_str(alloc, json)? {
        Value::Object(members) => Ok(members),
        _ => Err("not an object".into()),
    }
}

/// An extra member named `type` is left out. A float is written as `serde_json` writes it.
#[test]
fn nodes_that_no_text_denotes(rt: HostRuntime) -> Result<(), Fail> {
    let alloc = rt.alloc();
    let json = r#"{"A":1,"type":7,"x":[1.5,-0.0,2.5e-7],"zz":8}"#;
    let extra = members(alloc, json)?;
    let kind = PrimitiveKind::Double;
    let text = identity_of(alloc, &[Node::Primitive { kind, extra }])?;
    let wanted = r#"{"A":1,"type":"double","x":[1.5,-0.0,2.5e-7],"zz":8}"#;
    assert_eq!(rt; text.as_str(), wanted);
    Ok(())
}
