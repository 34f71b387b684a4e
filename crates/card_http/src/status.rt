// The statuses of answers.
use card_events::Reply;
use card_wire::Early;

/// The status of an answer.
#[derive(Clone, Copy)]
pub enum Status {
    /// 200: what was asked for is done, or is in the body.
    Done,
    /// 400: the bytes are no request, or the body is no JSON.
    BadRequest,
    /// 404: the path has no route, or the account or statement isn't there.
    NotFound,
    /// 405: the route has another method.
    BadMethod,
    /// 409: the request was refused.
    Conflict,
    /// 413: the body is longer than 16,384 bytes.
    TooLarge,
    /// 422: the JSON body is no request.
    NoRequest,
    /// 431: the head is longer than 8,192 bytes.
    LongHead,
    /// 503: the keeper failed.
    Unavailable,
    /// 507: memory ran out.
    NoStorage,
}

impl Status {
    ghost use Rattle.std.specs.Prelude.{◌≡◌};
    ghost use Rattle.card_http.specs.Answers.{status_code, phrase, early_status, reply_status};

    /// Its number.
    #[tactic(auto, unfolding(crate::specs::Answers::status_code))]
    pub fn code(self) -> u16
        ensures { result ≡ status_code self }
    {
        match self {
            Status::Done => 200,
            Status::BadRequest => 400,
            Status::NotFound => 404,
            Status::BadMethod => 405,
            Status::Conflict => 409,
            Status::TooLarge => 413,
            Status::NoRequest => 422,
            Status::LongHead => 431,
            Status::Unavailable => 503,
            Status::NoStorage => 507,
        }
    }

    /// Its phrase, as the registry of statuses has it.
    #[tactic(auto, unfolding(crate::specs::Answers::status_code, crate::specs::Answers::phrase))]
    pub fn phrase(self) -> &'static str
        ensures { result.now ≡ phrase self }
    {
        match self {
            Status::Done => "OK",
            Status::BadRequest => "Bad Request",
            Status::NotFound => "Not Found",
            Status::BadMethod => "Method Not Allowed",
            Status::Conflict => "Conflict",
            Status::TooLarge => "Payload Too Large",
            Status::NoRequest => "Unprocessable Entity",
            Status::LongHead => "Request Header Fields Too Large",
            Status::Unavailable => "Service Unavailable",
            Status::NoStorage => "Insufficient Storage",
        }
    }

    /// That of an answer which is given without the body.
    pub fn of_early(early: Early) -> Status
        ensures { result ≡ early_status early }
    {
        match early {
            Early::BadRequest => Status::BadRequest,
            Early::NotFound => Status::NotFound,
            Early::BadMethod => Status::BadMethod,
            Early::TooLarge => Status::TooLarge,
        }
    }

    /// That of a reply.
    pub fn of_reply(reply: &Reply) -> Status
        ensures { result ≡ reply_status reply.now }
    {
        match reply {
            Reply::Done => Status::Done,
            Reply::Accepted(_) => Status::Done,
            Reply::Refused(_) => Status::Conflict,
        }
    }
}
