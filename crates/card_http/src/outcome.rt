// The outcome of a request.
use crate::status::Status;
use card_events::Reply;
use card_wire::BodyFault;

/// What becomes of a request that was read whole.
#[derive(Drop)]
pub enum Outcome {
    /// The machine replied.
    Replied(Reply),
    /// The body is no JSON.
    NoJson,
    /// This member makes the body no request.
    NoRequest(String),
    /// What was asked for.
    Told(String),
    /// What was asked for isn't there.
    Missing,
    /// The keeper failed, and nothing was done.
    KeeperFailed,
    /// Memory was wanted and isn't there, and nothing was done.
    MemoryWanted,
}

impl Outcome {
    ghost use Rattle.std.specs.Prelude.{◌≡◌};
    ghost use Rattle.card_http.specs.Outcomes.{outcome_status, unread};

    /// The status of its answer.
    #[tactic(auto, unfolding(crate::specs::Outcomes::outcome_status))]
    pub fn status(&self) -> Status
        ensures { result ≡ outcome_status self.now }
    {
        match self {
            Outcome::Replied(reply) => Status::of_reply(reply),
            Outcome::NoJson => Status::BadRequest,
            Outcome::NoRequest(_) => Status::NoRequest,
            Outcome::Told(_) => Status::Done,
            Outcome::Missing => Status::NotFound,
            Outcome::KeeperFailed => Status::Unavailable,
            Outcome::MemoryWanted => Status::NoStorage,
        }
    }

    /// What becomes of a body that gives no request.
    pub fn unread(fault: BodyFault) -> Outcome
        ensures { result ≡ unread fault }
    {
        match fault {
            BodyFault::NotJson => Outcome::NoJson,
            BodyFault::Member(name) => Outcome::NoRequest(name),
            BodyFault::Memory => Outcome::MemoryWanted,
        }
    }
}
