//! The members of an object whose names aren't reserved.

ghost use Rattle.std.specs.Prelude.{◌≡◌, true, false, OnOk, option_map, string_bytes};
ghost use Rattle.serde_json.specs.Data.{no_members, put};
ghost use Rattle.serde_json.specs.Find.{get_member};
ghost use Rattle.serde_json.specs.View.{view, members_view};
ghost use Rattle.avro_schema.specs.Attributes.{without};
ghost use Rattle.avro_schema.specs.Inside.Reserved.{is_reserved, has_reserved, are_in_order};

use avro_nodes::Members;
use serde_json::Value;
use std::alloc::{AllocError, Global};

/// A map of members whose names aren't reserved.
#[derive(Drop)]
pub struct OtherMembers {
    members: Members,
    ghost unreserved: { has_reserved (members_view members.entries) ≡ false },
    ghost in_order: { are_in_order (members_view members.entries) ≡ true },
}

impl OtherMembers {
    /// An empty map.
    pub fn none(alloc: Global) -> OtherMembers
        ensures { members_view result.members.entries ≡ no_members }
    {
        OtherMembers {
            members: Members::new(alloc),
        }
    }

    /// Adds a member, and replaces an earlier one with this name.
    ///
    /// # Errors
    ///
    /// `AllocError` if allocation fails.
    pub fn put(&mut self, key: String, value: Value) -> Result<(), AllocError>
        requires { is_reserved (string_bytes key) ≡ false }
        ensures { OnOk result (members_view self.new.members.entries
            ≡ put (string_bytes key) (view value) (members_view self.old.members.entries)) }
    {
        drop(self.members.insert(key, value)?);
        Ok(())
    }

    /// Removes the member with this name, and returns its value.
    pub fn take(&mut self, key: &str) -> Option<Value>
        ensures value { option_map view result
            ≡ get_member key.now (members_view self.old.members.entries) }
        ensures rest { members_view self.new.members.entries
            ≡ without key.now (members_view self.old.members.entries) }
    {
        self.members.remove(key)
    }

    /// The members as a map.
    pub fn into_map(self) -> Members
        ensures { result ≡ self.members }
    {
        self.members
    }
}
