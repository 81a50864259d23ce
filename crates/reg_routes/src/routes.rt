//! The resource of a path.

ghost use Rattle.std.specs.Prelude.{◌≡◌, IfOk, MatchOption, OnOk, None, Some};
ghost use Rattle.matchit.specs.Seek.{first};
ghost use Rattle.reg_routes.specs.Routes.{resource_of, paths, with_path};

use crate::resource::Resource;
use matchit::{InsertError, Router};
use reg_core::OutOfMemory;
use std::alloc::Global;
use std::marker::Model;
use std::str;

/// The router: the table of the API's paths.
#[derive(Drop)]
pub struct Routes {
    router: Router<Resource>,
}

impl Model for Routes {
    ghost use Rattle.std.specs.Prelude.{◌≡◌};
    ghost use Rattle.reg_routes.specs.Routes.{paths};

    ghost Value = { Unit {0} };

    ghost view = { λ _. tt };

    ghost invariant = { λ routes. routes.router ≡ paths };
}

/// Adds a path.
fn add(router: &mut Router<Resource>, path: &str, resource: Resource) -> Result<(), InsertError>
    ensures { OnOk result (router.new ≡ with_path path.now resource router.old) }
{
    router.insert(path, resource)
}

/// The router with all paths of the API.
fn router(alloc: Global) -> Result<Router<Resource>, InsertError>
    ensures { IfOk result (λ router. router ≡ paths) }
{
    let mut router = Router::new(alloc);
    add(&mut router, "/subjects", Resource::Subjects)?;
    add(&mut router, "/subjects/{subject}", Resource::Subject)?;
    add(
        &mut router,
        "/subjects/{subject}/versions",
        Resource::Versions,
    )?;
    add(
        &mut router,
        "/subjects/{subject}/versions/{version}",
        Resource::Version,
    )?;
    add(
        &mut router,
        "/subjects/{subject}/versions/{version}/schema",
        Resource::Text,
    )?;
    add(&mut router, "/schemas/types", Resource::Types)?;
    add(&mut router, "/schemas/ids/{id}", Resource::Id)?;
    add(
        &mut router,
        "/schemas/ids/{id}/versions",
        Resource::VersionsOfId,
    )?;
    add(&mut router, "/config", Resource::Config)?;
    add(&mut router, "/config/{subject}", Resource::ConfigOf)?;
    add(
        &mut router,
        "/compatibility/subjects/{subject}/versions",
        Resource::Compatibility,
    )?;
    add(
        &mut router,
        "/compatibility/subjects/{subject}/versions/{version}",
        Resource::CompatibilityOf,
    )?;
    add(&mut router, "/mode", Resource::Mode)?;
    add(&mut router, "/mode/{subject}", Resource::ModeOf)?;
    Ok(router)
}

impl Routes {
    /// The table of all paths of the API.
    ///
    /// # Errors
    ///
    /// `OutOfMemory` if an allocation fails.
    pub fn new(alloc: Global) -> Result<Routes, OutOfMemory> {
        match router(alloc) {
            Ok(router) => Ok(Routes { router }),
            Err(_) => Err(OutOfMemory),
        }
    }

    /// The resource of a path, or `None` if there is none.
    fn lookup(&self, path: &str) -> Option<Resource>
        ensures { MatchOption result (first paths path.now ≡ None)
            (λ resource. (found : _) × (first paths path.now ≡ Some found) × (found.value ≡ resource)) }
    {
        match self.router.at(path) {
            Ok(found) => Some(*found.value),
            Err(_) => None,
        }
    }

    /// The resource of a path as sent, without decoding. `None` if no path of the API matches, or
    /// if the path isn't UTF-8. It allocates nothing.
    pub fn resource_of(&self, path: &[u8]) -> Option<Resource>
        ensures { result ≡ resource_of path.now }
    {
        match str::from_utf8(path) {
            Ok(path) => self.lookup(path),
            Err(_) => None,
        }
    }
}
