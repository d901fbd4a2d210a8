// The requests that wait.
ghost use Rattle.std.specs.Prelude.{◌≡◌, ◌<◌, [], ◌∷◌, ◌++◌, Some, None, length, IfSome, IfNone};
ghost use Rattle.gq_trade.specs.Queues.{IsOldest, oldest_to, place_to, request_of};

use arrayvec::ArrayVec;
use gq_model::limits::GREATEST_LEAVES;
use std::marker::Model;

/// What a client asks for.
#[derive(Clone, Copy, Debug, PartialEq, Eq)]
pub enum Ask {
    /// A session.
    Open,
    /// The next level of its session.
    Upgrade,
    /// The end of its session.
    Close,
    /// A reply to this argument.
    Call(u32),
}

/// A request of a session, with the leaf that serves that session beside it.
#[derive(Clone, Copy, Debug, PartialEq, Eq)]
pub struct Request {
    pub session: usize,
    pub server: usize,
    pub ask: Ask,
}

impl Default for Request {
    fn default() -> Request {
        Request {
            session: 0,
            server: 0,
            ask: Ask::Open,
        }
    }
}

/// Requests, the oldest first: at most one for each leaf of a scenario, since a leaf that has asked waits. No call allocates host memory.
#[derive(Drop)]
pub struct Requests {
    requests: ArrayVec<Request, GREATEST_LEAVES>,
}

impl Model for Requests {
    ghost use Rattle.std.specs.Prelude.{List};
    ghost use Rattle.gq_trade.specs.declared.requests.Request.{Request};

    ghost Value = { List Request };

    ghost view = { λ q. q.requests.items };
}

impl Requests {
    /// No requests.
    pub fn new() -> Requests
        ensures { result ≡ [] }
    {
        Requests {
            requests: ArrayVec::new(),
        }
    }

    /// Adds a request behind all others.
    pub fn push(&mut self, request: Request)
        requires { length self.old < GREATEST_LEAVES }
        ensures { self.new ≡ self.old ++ request ∷ [] }
    {
        self.requests.push(request);
    }

    /// The oldest request to a server, which stays.
    pub fn oldest(&self, server: usize) -> Option<Request>
        ensures some { IfSome result (λ r. IsOldest server self.now r) }
        ensures none { IfNone result (oldest_to server self.now ≡ None) }
    {
        let place = self.place_to(server);
        if place == self.requests.len() {
            return None;
        }
        Some(self.requests.as_slice()[place])
    }

    /// The request of a session, if one of it waits.
    pub fn of_session(&self, session: usize) -> Option<Request>
        ensures { result ≡ request_of session self.now }
    {
        let requests = self.requests.as_slice();
        for k in 0..requests.len() {
            if requests[k].session == session {
                return Some(requests[k]);
            }
        }
        None
    }

    /// Takes the oldest request to a server; the others stay in their order.
    pub fn take_oldest(&mut self, server: usize) -> Option<Request>
        ensures some { IfSome result (λ r. oldest_to server self.old ≡ Some (r, self.new)) }
        ensures none { IfNone result ((oldest_to server self.old ≡ None) × (self.new ≡ self.old)) }
    {
        let place = self.place_to(server);
        if place == self.requests.len() {
            return None;
        }
        Some(self.requests.remove(place))
    }

    /// All of them, the oldest first.
    pub fn as_slice(&self) -> &[Request]
        ensures { result.now ≡ self.now }
    {
        self.requests.as_slice()
    }

    // The place of the oldest request to a server, or how many there are.
    fn place_to(&self, server: usize) -> usize
        ensures { result ≡ place_to server self.now }
    {
        let requests = self.requests.as_slice();
        for k in 0..requests.len() {
            if requests[k].server == server {
                return k;
            }
        }
        requests.len()
    }
}
