// Methods and statuses, and how they are written.
ghost use Rattle.std.specs.Prelude.{◌≡◌};
ghost use Rattle.http_messages.specs.Replies.{allow_line};
ghost use Rattle.http_messages.specs.Statuses.{method_text, code_of, phrase_of, allowed_by};

use http::StatusCode;

/// The methods that requests are made with.
#[derive(Clone, Copy)]
pub enum Method {
    /// Asks for a list.
    Get,
    /// Sends a request to the desk.
    Post,
}

impl Method {
    /// As it stands in the first line of a request.
    pub fn as_str(self) -> &'static str
        ensures { result.now ≡ method_text self }
    {
        match self {
            Method::Get => "GET",
            Method::Post => "POST",
        }
    }
}

/// The statuses of replies.
#[derive(Clone, Copy)]
pub enum Status {
    /// The request was accepted, or a list is given.
    Success,
    /// The bytes are no request.
    BadRequest,
    /// The request isn't this machine's own, or in another's name.
    Forbidden,
    /// The path is none of the desk's.
    NotFound,
    /// The path takes this method and no other.
    MethodNotAllowed(Method),
    /// The desk refuses the request.
    Conflict,
    /// The body's length isn't told.
    LengthRequired,
    /// The body is longer than any that is read.
    PayloadTooLarge,
    /// The request's moment is too far ahead of the plan's clock.
    UnprocessableEntity,
    /// The body is sent in a coding that isn't read.
    NotImplemented,
    /// The desk can't answer: memory or its store fails.
    ServiceUnavailable,
}

impl Status {
    fn status_code(self) -> StatusCode
        ensures { result ≡ code_of self }
    {
        match self {
            Status::Success => StatusCode::OK,
            Status::BadRequest => StatusCode::BAD_REQUEST,
            Status::Forbidden => StatusCode::FORBIDDEN,
            Status::NotFound => StatusCode::NOT_FOUND,
            Status::MethodNotAllowed(_) => StatusCode::METHOD_NOT_ALLOWED,
            Status::Conflict => StatusCode::CONFLICT,
            Status::LengthRequired => StatusCode::LENGTH_REQUIRED,
            Status::PayloadTooLarge => StatusCode::PAYLOAD_TOO_LARGE,
            Status::UnprocessableEntity => StatusCode::UNPROCESSABLE_ENTITY,
            Status::NotImplemented => StatusCode::NOT_IMPLEMENTED,
            Status::ServiceUnavailable => StatusCode::SERVICE_UNAVAILABLE,
        }
    }

    /// The status in three digits.
    pub fn code(self) -> u16
        ensures { result ≡ code_of self }
    {
        self.status_code().as_u16()
    }

    /// The words beside the code.
    pub fn phrase(self) -> &'static str
        ensures { result.now ≡ phrase_of self }
    {
        self.status_code().canonical_reason().unwrap_or("")
    }

    /// The line of a reply that tells which method the path takes, where another was used.
    pub(crate) fn allow_line(self) -> &'static str
        ensures { result.now ≡ allow_line (allowed_by self) }
    {
        match self {
            Status::MethodNotAllowed(Method::Get) => "Allow: GET\r\n",
            Status::MethodNotAllowed(Method::Post) => "Allow: POST\r\n",
            _ => "",
        }
    }
}
