//! A client with a fixed schedule.

ghost use Rattle.std.specs.Prelude.{◌≡◌, ◌≤◌, ◌^◌, ◌⊎◌, IfSome, IfNone};

/// A client that sends a request at each multiple of `interval`, one at a time: a request waits until the one before it has
/// ended. Times are in microseconds since the client's start.
#[derive(Clone, Copy)]
pub(crate) struct Client {
    interval: u64,
    /// When the next request is due.
    due: u64,
    /// When the last request ended.
    free: u64,
}

impl Client {
    ghost use Rattle.hdr_load.specs.Clients.{new_client, after_request};

    /// Returns a client whose first request is due at 0.
    pub(crate) fn new(interval: u64) -> Client
        ensures { result ≡ new_client interval }
    {
        Client {
            interval,
            due: 0,
            free: 0,
        }
    }

    /// The time between two requests.
    pub(crate) fn interval(&self) -> u64
        ensures { result ≡ self.now.interval }
    {
        self.interval
    }

    /// Sends the next request, which takes the time `service`, and returns when it ended. Returns `None` if a time overflows.
    pub(crate) fn send(&mut self, service: u64) -> Option<u64>
        ensures ended { IfSome result (λ end. (self.new ≡ after_request self.old service)
            × (end ≡ self.new.free)) }
        ensures long { IfNone result ((2 ^ 64 ≤ (after_request self.old service).due)
            ⊎ (2 ^ 64 ≤ (after_request self.old service).free)) }
    {
        let end = self.due.max(self.free).checked_add(service)?;
        let due = self.due.checked_add(self.interval)?;
        self.due = due;
        self.free = end;
        Some(end)
    }
}
