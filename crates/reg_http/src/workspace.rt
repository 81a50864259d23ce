//! What parsing requests needs and all conversations of a server share.

use httparse::spans::{EMPTY_HEADER_SPAN, HeaderSpan};
use reg_core::OutOfMemory;
use reg_messages::MAX_HEAD;
use reg_routes::Routes;
use std::alloc::Global;

/// The table of paths, and room for the fields of a head. One serves any number of conversations.
#[derive(Drop)]
pub struct Workspace {
    pub(crate) routes: Routes,
    pub(crate) headers: Vec<HeaderSpan>,
}

impl Workspace {
    /// A workspace, with room for the fields of every head within the size limit.
    ///
    /// # Errors
    ///
    /// `OutOfMemory` if an allocation fails.
    pub fn new(alloc: Global) -> Result<Workspace, OutOfMemory> {
        Ok(Workspace {
            routes: Routes::new(alloc)?,
            headers: vec![in alloc; EMPTY_HEADER_SPAN; MAX_HEAD]?,
        })
    }
}
