//! The error codes of refusals and faults.

ghost use Rattle.std.specs.Prelude.{◌≡◌};
ghost use Rattle.reg_core.specs.Codes.{number_of, status_of, message_of, fault_body};

/// Why a request was rejected or failed. (Schema Registry API reference, errors; some codes are
/// this project's own.)
#[derive(Clone, Copy, Debug, PartialEq, Eq)]
pub enum Code {
    /// 40001: the request is malformed.
    MalformedRequest,
    /// 404: no such path.
    NotFound,
    /// 40401: the subject has no version that the request may see.
    SubjectNotFound,
    /// 40402: the subject has no such version that the request may see.
    VersionNotFound,
    /// 40403: no version of the subject that the request may see has the schema, no version has the
    /// id, or the text is no id.
    SchemaNotFound,
    /// 40404: all versions of the subject are soft-deleted.
    SubjectSoftDeleted,
    /// 40405: a version of the subject isn't soft-deleted.
    SubjectNotSoftDeleted,
    /// 40406: the version is already soft-deleted.
    VersionSoftDeleted,
    /// 40407: the version isn't soft-deleted.
    VersionNotSoftDeleted,
    /// 40408: the subject has no level of its own.
    NoOwnLevel,
    /// 40409: the subject has no mode of its own.
    NoOwnMode,
    /// 405: the path has no such method.
    MethodNotAllowed,
    /// 409: the subject's level doesn't admit the schema.
    Incompatible,
    /// 413: the body is too long.
    BodyTooLarge,
    /// 42201: the text denotes no schema, its type isn't supported, or it has references.
    InvalidSchema,
    /// 42202: the text is neither `latest` nor a version number.
    InvalidVersion,
    /// 42203: the text is no compatibility level.
    InvalidLevel,
    /// 42204: the text is no mode.
    InvalidMode,
    /// 42205: the mode doesn't permit writes.
    NotPermitted,
    /// 42290: the retry key was used with another command.
    KeyReused,
    /// 42292: the next version number or id would exceed the limit.
    NoNumberLeft,
    /// 501: the body has an unsupported transfer coding.
    TransferCodingNotSupported,
    /// 50001: an allocation or the disk failed; the command wasn't executed, except perhaps if the
    /// server crashes after a disk fault.
    BackendFault,
}

impl Code {
    /// The `error_code` in the reply's body. It is the HTTP status, or five digits that begin with
    /// the status.
    pub fn number(self) -> u32
        ensures { result ≡ number_of self }
    {
        match self {
            Code::MalformedRequest => 40001,
            Code::NotFound => 404,
            Code::SubjectNotFound => 40401,
            Code::VersionNotFound => 40402,
            Code::SchemaNotFound => 40403,
            Code::SubjectSoftDeleted => 40404,
            Code::SubjectNotSoftDeleted => 40405,
            Code::VersionSoftDeleted => 40406,
            Code::VersionNotSoftDeleted => 40407,
            Code::NoOwnLevel => 40408,
            Code::NoOwnMode => 40409,
            Code::MethodNotAllowed => 405,
            Code::Incompatible => 409,
            Code::BodyTooLarge => 413,
            Code::InvalidSchema => 42201,
            Code::InvalidVersion => 42202,
            Code::InvalidLevel => 42203,
            Code::InvalidMode => 42204,
            Code::NotPermitted => 42205,
            Code::KeyReused => 42290,
            Code::NoNumberLeft => 42292,
            Code::TransferCodingNotSupported => 501,
            Code::BackendFault => 50001,
        }
    }

    /// The HTTP status: the first three digits of the number.
    pub fn status(self) -> u16
        ensures { result ≡ status_of self }
    {
        match self {
            Code::MalformedRequest => 400,
            Code::NotFound
            | Code::SubjectNotFound
            | Code::VersionNotFound
            | Code::SchemaNotFound
            | Code::SubjectSoftDeleted
            | Code::SubjectNotSoftDeleted
            | Code::VersionSoftDeleted
            | Code::VersionNotSoftDeleted
            | Code::NoOwnLevel
            | Code::NoOwnMode => 404,
            Code::MethodNotAllowed => 405,
            Code::Incompatible => 409,
            Code::BodyTooLarge => 413,
            Code::InvalidSchema
            | Code::InvalidVersion
            | Code::InvalidLevel
            | Code::InvalidMode
            | Code::NotPermitted
            | Code::KeyReused
            | Code::NoNumberLeft => 422,
            Code::BackendFault => 500,
            Code::TransferCodingNotSupported => 501,
        }
    }

    /// The message of the code.
    pub fn message(self) -> &'static str
        ensures { result.now ≡ message_of self }
    {
        match self {
            Code::MalformedRequest => "Malformed request",
            Code::NotFound => "Not found",
            Code::SubjectNotFound => "Subject not found",
            Code::VersionNotFound => "Version not found",
            Code::SchemaNotFound => "Schema not found",
            Code::SubjectSoftDeleted => "Subject is soft-deleted",
            Code::SubjectNotSoftDeleted => "Subject is not soft-deleted",
            Code::VersionSoftDeleted => "Version is soft-deleted",
            Code::VersionNotSoftDeleted => "Version is not soft-deleted",
            Code::NoOwnLevel => "Subject has no level of its own",
            Code::NoOwnMode => "Subject has no mode of its own",
            Code::MethodNotAllowed => "Method not allowed",
            Code::Incompatible => "Schema is incompatible with an earlier version",
            Code::BodyTooLarge => "Body too large",
            Code::InvalidSchema => "Invalid schema",
            Code::InvalidVersion => "Invalid version",
            Code::InvalidLevel => "Invalid compatibility level",
            Code::InvalidMode => "Invalid mode",
            Code::NotPermitted => "Operation not permitted",
            Code::KeyReused => "Retry key was used for another request",
            Code::NoNumberLeft => "No number is left",
            Code::TransferCodingNotSupported => "Transfer coding not supported",
            Code::BackendFault => "Error in the backend data store",
        }
    }

    /// The body of the reply for the code, `{"error_code":n,"message":"M"}`.
    pub(crate) fn fault_body(self) -> &'static str
        ensures { result.now ≡ fault_body self }
    {
        match self {
            Code::MalformedRequest => "{\"error_code\":40001,\"message\":\"Malformed request\"}",
            Code::NotFound => "{\"error_code\":404,\"message\":\"Not found\"}",
            Code::SubjectNotFound => "{\"error_code\":40401,\"message\":\"Subject not found\"}",
            Code::VersionNotFound => "{\"error_code\":40402,\"message\":\"Version not found\"}",
            Code::SchemaNotFound => "{\"error_code\":40403,\"message\":\"Schema not found\"}",
            Code::SubjectSoftDeleted =>
                "{\"error_code\":40404,\"message\":\"Subject is soft-deleted\"}",
            Code::SubjectNotSoftDeleted =>
                "{\"error_code\":40405,\"message\":\"Subject is not soft-deleted\"}",
            Code::VersionSoftDeleted =>
                "{\"error_code\":40406,\"message\":\"Version is soft-deleted\"}",
            Code::VersionNotSoftDeleted =>
                "{\"error_code\":40407,\"message\":\"Version is not soft-deleted\"}",
            Code::NoOwnLevel =>
                "{\"error_code\":40408,\"message\":\"Subject has no level of its own\"}",
            Code::NoOwnMode =>
                "{\"error_code\":40409,\"message\":\"Subject has no mode of its own\"}",
            Code::MethodNotAllowed => "{\"error_code\":405,\"message\":\"Method not allowed\"}",
            Code::Incompatible =>
                "{\"error_code\":409,\"message\":\"Schema is incompatible with an earlier version\"}",
            Code::BodyTooLarge => "{\"error_code\":413,\"message\":\"Body too large\"}",
            Code::InvalidSchema => "{\"error_code\":42201,\"message\":\"Invalid schema\"}",
            Code::InvalidVersion => "{\"error_code\":42202,\"message\":\"Invalid version\"}",
            Code::InvalidLevel =>
                "{\"error_code\":42203,\"message\":\"Invalid compatibility level\"}",
            Code::InvalidMode => "{\"error_code\":42204,\"message\":\"Invalid mode\"}",
            Code::NotPermitted => "{\"error_code\":42205,\"message\":\"Operation not permitted\"}",
            Code::KeyReused =>
                "{\"error_code\":42290,\"message\":\"Retry key was used for another request\"}",
            Code::NoNumberLeft => "{\"error_code\":42292,\"message\":\"No number is left\"}",
            Code::TransferCodingNotSupported =>
                "{\"error_code\":501,\"message\":\"Transfer coding not supported\"}",
            Code::BackendFault =>
                "{\"error_code\":50001,\"message\":\"Error in the backend data store\"}",
        }
    }
}
