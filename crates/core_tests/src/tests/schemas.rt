//! The errors of invalid texts, the nodes of a schema, and another text of the same schema. The expected errors were
//! derived manually: the profile (`docs/avro-registry-profile.md`) says which texts are invalid, and `SchemaError`
//! names the errors.

use avro_nodes::Node;
use avro_schema::{Schema, identity_denotes};
use std::alloc::Global;
use std::test::Fail;

/// Texts that denote no schema, each after the name of its error.
const REJECTED: &str = r#"NotJson|
NotJson|{'type':'int'}
BadNumber|{"type":"record","name":"R","fields":[{"name":"x","type":"double","default":1.5}]}
BadNumber|{"type":"record","name":"R","fields":[{"name":"x","type":"double","default":1e3}]}
BadNumber|{"type":"fixed","name":"F","size":18446744073709551616}
BadNumber|{"type":"int","doc":1E0}
BadNumber|1.50
BadName|{"type":"fixed","name":"int","size":1}
BadName|{"type":"fixed","name":"a.string","size":1}
BadName|{"type":"fixed","name":"","size":1}
BadName|{"type":"fixed","name":"1F","size":1}
BadName|{"type":"fixed","name":"a-b","size":1}
BadName|{"type":"fixed","name":".F","size":1}
BadName|{"type":"fixed","name":"a..F","size":1}
BadName|{"type":"fixed","name":"a.","size":1}
BadName|{"type":"fixed","name":"é","size":1}
BadName|{"type":"fixed","name":"F","namespace":"a.","size":1}
BadName|{"type":"fixed","name":"F","namespace":".a","size":1}
BadName|{"type":"fixed","name":"F","namespace":"1","size":1}
BadName|{"type":"enum","name":"a.E","symbols":[],"aliases":[".c"]}
BadName|{"type":"enum","name":"E","symbols":[],"aliases":[""]}
BadName|{"type":"enum","name":"E","symbols":["a.b"]}
BadName|{"type":"enum","name":"E","symbols":[""]}
BadName|{"type":"record","name":"R","fields":[{"name":"a.b","type":"int"}]}
BadName|{"type":"record","name":"R","fields":[{"name":"9","type":"int"}]}
BadName|{"type":"record","name":"R","fields":[{"name":"x","type":"int","aliases":["a.b"]}]}
Undefined|"Foo"
Undefined|"record"
Undefined|""
Undefined|".a"
Undefined|{"type":"Foo"}
Undefined|{"type":"array","items":"a.B"}
Undefined|[{"type":"fixed","name":"a.F","size":1},{"type":"array","items":"F"}]
Undefined|{"type":"record","name":"a.R","fields":[{"name":"x","type":"b.R"}]}
Undefined|{"type":"record","name":"R","fields":[{"name":"x","type":"S"},{"name":"y","type":{"type":"fixed","name":"S","size":1}}]}
Undefined|{"type":"record","name":"R","fields":[{"name":"x","type":"x.R"}],"aliases":["x.R"]}
Redefined|[{"type":"fixed","name":"F","size":1},{"type":"fixed","name":"F","size":1}]
Redefined|{"type":"record","name":"a.R","fields":[{"name":"x","type":{"type":"fixed","name":"R","size":1}}]}
Redefined|{"type":"enum","name":"E","symbols":["A","B","A"]}
Redefined|{"type":"record","name":"R","fields":[{"name":"x","type":"int"},{"name":"y","type":"int"},{"name":"x","type":"int"}]}
BadShape|null
BadShape|true
BadShape|1
BadShape|{}
BadShape|{"type":null}
BadShape|{"type":{"type":"int"}}
BadShape|{"type":["int"]}
BadShape|{"type":"array"}
BadShape|{"type":"map","items":"int"}
BadShape|{"type":"array","items":null}
BadShape|{"type":"fixed","size":1}
BadShape|{"type":"fixed","name":1,"size":1}
BadShape|{"type":"fixed","name":"F"}
BadShape|{"type":"fixed","name":"F","size":-1}
BadShape|{"type":"fixed","name":"F","size":2147483648}
BadShape|{"type":"fixed","name":"F","size":"1"}
BadShape|{"type":"fixed","name":"F","namespace":null,"size":1}
BadShape|{"type":"fixed","name":"a.F","namespace":1,"size":1}
BadShape|{"type":"fixed","name":"F","size":1,"aliases":null}
BadShape|{"type":"fixed","name":"F","size":1,"aliases":"a"}
BadShape|{"type":"fixed","name":"F","size":1,"aliases":[1]}
BadShape|{"type":"enum","name":"E"}
BadShape|{"type":"enum","name":"E","symbols":"A"}
BadShape|{"type":"enum","name":"E","symbols":[null]}
BadShape|{"type":"enum","name":"E","symbols":["A"],"default":"B"}
BadShape|{"type":"enum","name":"E","symbols":["A"],"default":null}
BadShape|{"type":"record","name":"R"}
BadShape|{"type":"record","name":"R","fields":{}}
BadShape|{"type":"record","name":"R","fields":["x"]}
BadShape|{"type":"record","name":"R","fields":[{"type":"int"}]}
BadShape|{"type":"record","name":"R","fields":[{"name":"x"}]}
BadShape|{"type":"record","name":"R","fields":[{"name":"x","type":"int","order":null}]}
BadShape|{"type":"record","name":"R","fields":[{"name":"x","type":"int","order":"up"}]}
BadShape|{"type":"record","name":"R","fields":[{"name":"x","type":"int","aliases":null}]}
BadUnion|["int",{"type":"int"}]
BadUnion|[["int"]]
BadShape|[null]
BadUnion|["int",[]]
BadUnion|["null","int","null"]
BadUnion|[{"type":"array","items":"int"},{"type":"array","items":"long"}]
BadUnion|[{"type":"map","values":"int"},{"type":"map","values":"int"}]
BadUnion|{"type":"record","name":"R","fields":[{"name":"x","type":["R","null","R"]}]}
BadUnion|[{"type":"fixed","name":"F","size":1},"F"]
BadDefault|{"type":"record","name":"R","fields":[{"name":"x","type":["string","null"],"default":null}]}
BadDefault|{"type":"record","name":"R","fields":[{"name":"x","type":[],"default":null}]}
BadDefault|{"type":"record","name":"R","fields":[{"name":"x","type":"null","default":0}]}
BadDefault|{"type":"record","name":"R","fields":[{"name":"x","type":"boolean","default":0}]}
BadDefault|{"type":"record","name":"R","fields":[{"name":"x","type":"int","default":2147483648}]}
BadDefault|{"type":"record","name":"R","fields":[{"name":"x","type":"int","default":-2147483649}]}
BadDefault|{"type":"record","name":"R","fields":[{"name":"x","type":"int","default":"0"}]}
BadDefault|{"type":"record","name":"R","fields":[{"name":"x","type":"long","default":9223372036854775808}]}
BadDefault|{"type":"record","name":"R","fields":[{"name":"x","type":"float","default":null}]}
BadDefault|{"type":"record","name":"R","fields":[{"name":"x","type":"double","default":"1"}]}
BadDefault|{"type":"record","name":"R","fields":[{"name":"x","type":"bytes","default":"\u0100"}]}
BadDefault|{"type":"record","name":"R","fields":[{"name":"x","type":"bytes","default":0}]}
BadDefault|{"type":"record","name":"R","fields":[{"name":"x","type":"string","default":null}]}
BadDefault|{"type":"record","name":"R","fields":[{"name":"x","type":{"type":"enum","name":"E","symbols":["A"]},"default":0}]}
BadDefault|{"type":"record","name":"R","fields":[{"name":"x","type":{"type":"fixed","name":"F","size":2},"default":"a"}]}
BadDefault|{"type":"record","name":"R","fields":[{"name":"x","type":{"type":"fixed","name":"F","size":2},"default":"abc"}]}
BadDefault|{"type":"record","name":"R","fields":[{"name":"x","type":{"type":"fixed","name":"F","size":1},"default":"\u0100"}]}
BadDefault|{"type":"record","name":"R","fields":[{"name":"x","type":{"type":"array","items":"int"},"default":[1,"2"]}]}
BadDefault|{"type":"record","name":"R","fields":[{"name":"x","type":{"type":"array","items":"int"},"default":{}}]}
BadDefault|{"type":"record","name":"R","fields":[{"name":"x","type":{"type":"map","values":"int"},"default":{"a":null}}]}
BadDefault|{"type":"record","name":"R","fields":[{"name":"x","type":{"type":"map","values":"int"},"default":[]}]}
BadDefault|{"type":"record","name":"R","fields":[{"name":"x","type":{"type":"record","name":"S","fields":[{"name":"a","type":"int"}]},"default":{}}]}
BadDefault|{"type":"record","name":"R","fields":[{"name":"x","type":{"type":"record","name":"S","fields":[{"name":"a","type":"int","default":0}]},"default":{"a":null}}]}
BadDefault|{"type":"record","name":"R","fields":[{"name":"x","type":{"type":"record","name":"S","fields":[]},"default":[]}]}
BadDefault|{"type":"record","name":"R","fields":[{"name":"x","type":{"type":"array","items":["int","null"]},"default":[null]}]}"#;

/// The name of the error of an invalid text. A valid text fails the test.
fn error_name(alloc: Global, text: &str) -> Result<String, Fail> {
    match Schema::read(alloc, text) {
        Ok(_) => Err("the text denotes a schema".into()),
        Err(error) => Ok(format!(in alloc; "{error:?}")?),
    }
}

#[test]
fn rejections(rt: HostRuntime) -> Result<(), Fail> {
    for row in REJECTED.lines() {
        let (name, text) = row.split_once('|').ok_or("a row without an error")?;
        assert_eq!(rt; error_name(rt.alloc(), text)?.as_str(), name, "{text}");
    }
    Ok(())
}

#[test]
fn places_and_nodes(rt: HostRuntime) -> Result<(), Fail> {
    let alloc = rt.alloc();
    let first = Schema::read(
        alloc,
        r#"{"type":"array","items":[{"type":"fixed","name":"F","size":3},"int"]}"#,
    )?;
    assert_eq!(rt; first.places(), 4);
    assert!(rt; matches!(first.node(0), Node::Array { .. }));
    assert!(rt; matches!(first.node(1), Node::Union { .. }));
    assert!(rt; matches!(first.node(2), Node::Fixed { .. }));
    assert!(rt; matches!(first.node(3), Node::Primitive { .. }));
    let second = Schema::read(
        alloc,
        r#"{"items":[{"name":"F","size":3.0,"type":"fixed"},{"type":"int"}],"type":"array"}"#,
    )?;
    assert!(rt; first.is_same(&second));
    identity_denotes();
    Ok(())
}
