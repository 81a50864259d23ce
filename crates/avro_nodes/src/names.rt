//! Full names and namespaces (Avro 1.11 specification, Names).

ghost use Rattle.std.specs.Prelude.{◌≡◌};
ghost use Rattle.avro_nodes.specs.Names.{has_dot, last_part, namespace_of};

/// Whether the name contains a dot, as each full name outside the null namespace does.
#[tactic(auto, unfolding(crate::specs::Names::has_dot))]
pub fn has_dot(name: &str) -> bool
    ensures { result ≡ has_dot name.now }
{
    name.as_bytes().iter().any(|c| *c == b'.')
}

/// The namespace of a full name: all before its last dot. The null namespace is empty.
pub fn namespace_of(name: &str) -> &str
    ensures { result.now ≡ namespace_of name.now }
{
    let mut end = 0;
    for (i, c) in name.as_bytes().iter().enumerate() {
        if *c == b'.' {
            end = i;
        }
    }
    &name[..end]
}

/// A full name without its namespace: all after its last dot.
#[tactic(auto, unfolding(crate::specs::Names::last_part))]
pub fn last_part(name: &str) -> &str
    ensures { result.now ≡ last_part name.now }
{
    let bytes = name.as_bytes();
    let mut start = bytes.len();
    while start > 0 && bytes[start - 1] != b'.' {
        start -= 1;
    }
    &name[start..]
}
