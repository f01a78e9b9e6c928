//! Why a request is answered without asking the office.
ghost use Rattle.std.specs.Prelude.{◌≡◌};
ghost use Rattle.mx_http.specs.request.Rejected.{rejection_status, rejection_body, rejection_allows};

use http::StatusCode;

/// Why a request is answered without asking the office.
#[derive(Clone, Copy, Debug, PartialEq, Eq)]
pub enum Rejection {
    /// 400: the head can't be read, the length of the body is said twice or is no number, the input ends too soon, or a
    /// part of the path can't be read.
    BadRequest,
    /// 404: there is no such path.
    NotFound,
    /// 405: the path takes another method: POST, or else GET.
    WrongMethod { allow_post: bool },
    /// 411: the length of the body isn't said, or the body comes in a transfer coding.
    LengthRequired,
    /// 413: the body has more than 65,536 bytes.
    BodyTooLarge,
    /// 431: the head doesn't end within 8,192 bytes.
    HeadTooLarge,
}

impl Rejection {
    /// The status.
    pub fn status(self) -> StatusCode
        ensures { result ≡ rejection_status self }
    {
        match self {
            Rejection::BadRequest => StatusCode::BAD_REQUEST,
            Rejection::NotFound => StatusCode::NOT_FOUND,
            Rejection::WrongMethod { .. } => StatusCode::METHOD_NOT_ALLOWED,
            Rejection::LengthRequired => StatusCode::LENGTH_REQUIRED,
            Rejection::BodyTooLarge => StatusCode::PAYLOAD_TOO_LARGE,
            Rejection::HeadTooLarge => StatusCode::REQUEST_HEADER_FIELDS_TOO_LARGE,
        }
    }

    /// The body.
    pub fn body(self) -> &'static [u8]
        ensures { result.now ≡ rejection_body self }
    {
        match self {
            Rejection::BadRequest => b"bad request\n",
            Rejection::NotFound | Rejection::WrongMethod { .. } => b"",
            Rejection::LengthRequired => b"length required\n",
            Rejection::BodyTooLarge | Rejection::HeadTooLarge => b"too large\n",
        }
    }

    /// Whether POST, or else GET, is the method that is allowed instead.
    pub fn allows(self) -> Option<bool>
        ensures { result ≡ rejection_allows self }
    {
        match self {
            Rejection::WrongMethod { allow_post } => Some(allow_post),
            _ => None,
        }
    }
}
