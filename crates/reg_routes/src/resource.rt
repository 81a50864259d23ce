//! The resources of the API, and the operation of each of their methods.

ghost use Rattle.std.specs.Prelude.{◌≡◌, [], ◌∷◌, bytes_eq};
ghost use Rattle.reg_routes.specs.Routes.{allow_of, operation_for, get, methods_of, put};

use http::Method;

/// A resource of the API. (Schema Registry API reference, Subjects, Schemas, Config, Compatibility
/// and Mode.)
#[derive(Clone, Copy, Debug, PartialEq, Eq)]
pub enum Resource {
    /// `/subjects`
    Subjects,
    /// `/subjects/{subject}`
    Subject,
    /// `/subjects/{subject}/versions`
    Versions,
    /// `/subjects/{subject}/versions/{version}`
    Version,
    /// `/subjects/{subject}/versions/{version}/schema`
    Text,
    /// `/schemas/types`
    Types,
    /// `/schemas/ids/{id}`
    Id,
    /// `/schemas/ids/{id}/versions`
    VersionsOfId,
    /// `/config`
    Config,
    /// `/config/{subject}`
    ConfigOf,
    /// `/compatibility/subjects/{subject}/versions`
    Compatibility,
    /// `/compatibility/subjects/{subject}/versions/{version}`
    CompatibilityOf,
    /// `/mode`
    Mode,
    /// `/mode/{subject}`
    ModeOf,
}

/// The operation of a method on a resource. Each is one kind of command.
#[derive(Clone, Copy, Debug, PartialEq, Eq)]
pub enum Operation {
    SetGlobal,
    SetLevel,
    Register,
    DeleteVersion,
    DeleteSubject,
    Global,
    LevelOf,
    Lookup,
    Subjects,
    Versions,
    Version,
    Text,
    ById,
    VersionsOfId,
    Types,
    Check,
    CheckAll,
    SetGlobalMode,
    SetMode,
    GlobalMode,
    ModeOf,
}

/// The operation of a resource with one method, or `None` for another method.
fn only(method: &[u8], name: &Method, operation: Operation) -> Option<Operation>
    ensures { result ≡ operation_for method.now ((name.now, operation) ∷ []) }
{
    if method == name.as_str().as_bytes() {
        Some(operation)
    } else {
        None
    }
}

/// The operation of a resource with two methods, or `None` for another method.
fn either(
    method: &[u8],
    first: &Method,
    first_operation: Operation,
    second: &Method,
    second_operation: Operation,
) -> Option<Operation>
    ensures { result ≡ operation_for method.now
        ((first.now, first_operation) ∷ (second.now, second_operation) ∷ []) }
{
    if method == first.as_str().as_bytes() {
        Some(first_operation)
    } else {
        only(method, second, second_operation)
    }
}

/// The operation of a resource with GET and PUT, or `None` for another method.
fn get_or_put(method: &[u8], shown: Operation, set: Operation) -> Option<Operation>
    ensures { result ≡ operation_for method.now ((get, shown) ∷ (put, set) ∷ []) }
{
    either(method, &Method::GET, shown, &Method::PUT, set)
}

impl Resource {
    /// The operation of this method, or `None` if the resource doesn't have it. Methods are
    /// case-sensitive.
    pub fn operation(self, method: &[u8]) -> Option<Operation>
        ensures { result ≡ operation_for method.now (methods_of self) }
    {
        match self {
            Resource::Subjects => only(method, &Method::GET, Operation::Subjects),
            Resource::Subject => either(
                method,
                &Method::DELETE,
                Operation::DeleteSubject,
                &Method::POST,
                Operation::Lookup,
            ),
            Resource::Versions => either(
                method,
                &Method::GET,
                Operation::Versions,
                &Method::POST,
                Operation::Register,
            ),
            Resource::Version => either(
                method,
                &Method::DELETE,
                Operation::DeleteVersion,
                &Method::GET,
                Operation::Version,
            ),
            Resource::Text => only(method, &Method::GET, Operation::Text),
            Resource::Types => only(method, &Method::GET, Operation::Types),
            Resource::Id => only(method, &Method::GET, Operation::ById),
            Resource::VersionsOfId => only(method, &Method::GET, Operation::VersionsOfId),
            Resource::Config => get_or_put(method, Operation::Global, Operation::SetGlobal),
            Resource::ConfigOf => get_or_put(method, Operation::LevelOf, Operation::SetLevel),
            Resource::Compatibility => only(method, &Method::POST, Operation::CheckAll),
            Resource::CompatibilityOf => only(method, &Method::POST, Operation::Check),
            Resource::Mode => get_or_put(method, Operation::GlobalMode, Operation::SetGlobalMode),
            Resource::ModeOf => get_or_put(method, Operation::ModeOf, Operation::SetMode),
        }
    }

    /// The methods of this resource in byte order, separated by `, `: the value of an `Allow`
    /// field. (RFC 9110, section 10.2.1.)
    pub fn allow(self) -> &'static str
        ensures { result.now ≡ allow_of self }
    {
        match self {
            Resource::Subjects
            | Resource::Text
            | Resource::Types
            | Resource::Id
            | Resource::VersionsOfId => "GET",
            Resource::Subject => "DELETE, POST",
            Resource::Versions => "GET, POST",
            Resource::Version => "DELETE, GET",
            Resource::Config | Resource::ConfigOf | Resource::Mode | Resource::ModeOf => "GET, PUT",
            Resource::Compatibility | Resource::CompatibilityOf => "POST",
        }
    }
}
