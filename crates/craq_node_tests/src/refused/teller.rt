//! Marks where each call begins and ends, and whether it ran out of memory; every mode marks the
//! calls it makes.
use std::alloc::Global;

/// A library call that may run out of memory.
#[derive(Clone, Copy)]
pub enum Call {
    /// `Core::step` of an event that may take memory.
    Step,
    /// `Core::step` of a stop, or of an ignored message: it takes no memory.
    QuietStep,
    WorldTake,
    WorldRun,
    WorldExplain,
    DeskTake,
    Audit,
    /// `decode` of a message between nodes.
    Decode,
    /// `ClientMessage::decode`, of version 1.
    DecodeMessage,
    /// `ClientReply::decode`, of version 1.
    DecodeReply,
    /// `Payload::decode`, of requests of both versions.
    DecodePayload,
    /// `Answered::decode`, of replies of both versions.
    DecodeAnswered,
    ReadPlan,
    Serve,
    Start,
    Join,
}

impl Call {
    /// Returns the call's name in marks.
    fn name(self) -> &'static str {
        match self {
            Call::Step => "Core::step",
            Call::QuietStep => "Core::step, quiet",
            Call::WorldTake => "World::take",
            Call::WorldRun => "World::run",
            Call::WorldExplain => "World::explain",
            Call::DeskTake => "Desk::take",
            Call::Audit => "audit",
            Call::Decode => "decode",
            Call::DecodeMessage => "ClientMessage::decode",
            Call::DecodeReply => "ClientReply::decode",
            Call::DecodePayload => "Payload::decode",
            Call::DecodeAnswered => "Answered::decode",
            Call::ReadPlan => "Plan::read",
            Call::Serve => "serve",
            Call::Start => "Store::start",
            Call::Join => "Store::join",
        }
    }
}

/// The largest number of times that a call is made if it runs out of memory.
pub const TRIES: u32 = 2;

/// Writes marks to standard error.
#[derive(Clone, Copy)]
pub struct Teller {
    pub host: HostRuntime,
    /// The source of memory.
    pub alloc: Global,
}

impl Teller {
    /// Marks the beginning of a call.
    pub fn begin(self, call: Call) {
        let _ = eprintln!(self.host; "begin {}", call.name());
    }

    /// Marks the end of a call. Returns true unless the call ran out of memory.
    pub fn end(self, call: Call, is_refused: bool) -> bool {
        let _ = eprintln!(self.host; "end {}", call.name());
        if is_refused {
            let _ = eprintln!(self.host; "no memory for {}", call.name());
        }
        !is_refused
    }

    /// Marks that the call took its step and then ran out of memory for the step's results.
    pub fn took_step(self, call: Call) {
        let _ = eprintln!(self.host; "no memory after the step of {}", call.name());
    }
}
