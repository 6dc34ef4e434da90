//! Appends the frames of replies to the unsent bytes; called by `protocol_codec`.
ghost use Rattle.std.specs.Prelude.{◌≡◌, ℕ, List, ◌++◌, IfErr, OnOk, OnErr};
ghost use Rattle.std.specs.List.{AllByRecursion};
ghost use Rattle.craq_frames.specs.Frame.{frame};
ghost use Rattle.craq_frames.specs.Payload.{NamesNode};
ghost use Rattle.craq_frames.specs.Versions.{IsAnswered, EncodesAnswered};
ghost use Rattle.craq_frames.specs.Allowed.{IsAllowed};
ghost use Rattle.craq_frames.specs.Serving.{refused, reported};

use crate::{Answered, ClientReply, PayloadVersion};
use bytes::BytesMut;
use craq_names::Refusal;

/// Appends the frame of the replies to a payload, each of which a request handler may give.
/// `Memory` where a growth was refused; `output` is unchanged then.
pub(crate) fn make_unsent(output: &mut BytesMut, answered: Answered) -> Result<(), Refusal>
    requires rules { IsAnswered answered }
    requires allowed { AllByRecursion IsAllowed (reported answered) }
    ensures ok { OnOk result ((reply : List ℕ) × (output.new.items ≡ output.old.items ++ frame reply)
        × EncodesAnswered answered reply) }
    ensures err { IfErr result (λ e. e ≡ Refusal.Memory) }
    ensures same { OnErr result (output.new.items ≡ output.old.items) }
{
    match answered.write_frame(output) {
        Ok(()) => Ok(()),
        Err(_) => Err(Refusal::Memory),
    }
}

/// Appends the frame of a refusal, of version 1. `Memory` where a growth was refused; `output` is
/// unchanged then.
pub(crate) fn refuse(output: &mut BytesMut, why: Refusal) -> Result<(), Refusal>
    requires { NamesNode why }
    ensures ok { OnOk result ((reply : List ℕ) × (output.new.items ≡ output.old.items ++ frame reply)
        × EncodesAnswered (refused why) reply) }
    ensures err { IfErr result (λ e. e ≡ Refusal.Memory) }
    ensures same { OnErr result (output.new.items ≡ output.old.items) }
{
    let refusal = Answered::One(PayloadVersion::First, ClientReply::Refused(why));
    make_unsent(output, refusal)
}
