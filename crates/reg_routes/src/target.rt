//! A request's target: its path and its query.

ghost use Rattle.std.specs.Prelude.{◌≡◌, IfOk};
ghost use Rattle.reg_routes.specs.Queries.{query_flag};
ghost use Rattle.reg_routes.specs.Targets.{path_of, query_of, segment_subject, segment_text, decoded_segment};

use crate::path_segments::segment_at;
use crate::query::query_flag;
use crate::split_at_byte::split_at_byte;
use percent_encoding::percent_decode;
use reg_core::{OutOfMemory, Subject, Text};
use std::alloc::Global;

/// A target, split at its first `?`. (RFC 9110, section 7.1; RFC 3986, section 3.)
#[derive(Clone, Copy)]
pub struct Target<'a> {
    pub path: &'a [u8],
    pub query: &'a [u8],
}

/// The percent-decoded text of a segment, or `None` if that isn't UTF-8.
fn decoded_segment(alloc: Global, segment: &[u8]) -> Result<Option<Text>, OutOfMemory>
    ensures { IfOk result (λ text. text ≡ decoded_segment segment.now) }
{
    let mut bytes = Vec::new(alloc);
    percent_decode(segment).append_to(&mut bytes)?;
    match String::from_utf8(bytes) {
        Ok(text) => Ok(Some(Text::from(text))),
        Err(_) => Ok(None),
    }
}

impl<'a> Target<'a> {
    /// Splits a target at its first `?`.
    pub fn of(target: &'a [u8]) -> Target<'a>
        ensures path { result.path.now ≡ path_of target.entry.now }
        ensures query { result.query.now ≡ query_of target.entry.now }
    {
        let (path, query) = split_at_byte(target, b'?');
        Target { path, query }
    }

    /// The percent-decoded segment of the path after `slashes` slashes, which is empty if the path has
    /// fewer. `None` if the decoded bytes aren't UTF-8.
    ///
    /// # Errors
    ///
    /// `OutOfMemory` if an allocation fails.
    pub fn segment_text(&self, alloc: Global, slashes: u32) -> Result<Option<Text>, OutOfMemory>
        ensures { IfOk result (λ text. text ≡ segment_text slashes self.now.path.now) }
    {
        decoded_segment(alloc, segment_at(self.path, slashes))
    }

    /// The same segment as a subject, or `None` if it isn't a valid one.
    ///
    /// # Errors
    ///
    /// `OutOfMemory` if an allocation fails.
    pub fn segment_subject(
        &self,
        alloc: Global,
        slashes: u32,
    ) -> Result<Option<Subject>, OutOfMemory>
        ensures { IfOk result (λ subject. subject ≡ segment_subject slashes self.now.path.now) }
    {
        match self.segment_text(alloc, slashes)? {
            Some(text) => Ok(Subject::new(text.into_string())),
            None => Ok(None),
        }
    }

    /// Whether the first query parameter of this name is `true`.
    ///
    /// # Errors
    ///
    /// `OutOfMemory` if an allocation fails.
    pub fn query_flag(&self, alloc: Global, name: &str) -> Result<bool, OutOfMemory>
        ensures { IfOk result (λ on. on ≡ query_flag self.now.query.now name.now) }
    {
        query_flag(alloc, self.query, name)
    }
}
