//! Laws: which requests and replies have an encoding at all, which replies a request handler may
//! give, and what the bytes of a connection are. For readers of the contracts; no code calls them.
ghost use Rattle.std.specs.Prelude.{◌≤◌, ◌↔◌, ℕ, List, [], ◌∷◌, ◌++◌, length, Option, None, Some, Ok};
ghost use Rattle.craq_frames.specs.declared.protocol_codec.Asking.{Asking};
ghost use Rattle.craq_frames.specs.declared.protocol_codec.CodecEvent.TheVariants.{Ask, Refused};
ghost use Rattle.craq_frames.specs.Allowed.{IsAllowed, reply_limit};
ghost use Rattle.craq_frames.specs.Payload.{AskFits, AnswerFits, IsAnswer, EncodesAnswer, EncodesAsk, answer_encoding};
ghost use Rattle.craq_frames.specs.Steps.{Advances, Follows, IsTakenAhead};
ghost use Rattle.craq_frames.specs.Talk.{Exchanges, Stands, first_now, later_now};
ghost use Rattle.craq_frames.specs.Typed.{IsTypedAnswer};

use crate::{ClientMessage, ClientReply};

/// States that each request that is a value of its type has an encoding: numbers fit their widths,
/// and keys, values and transactions are within their limits. The body is empty: the contract is
/// the law.
pub fn asks_with_encodings()
    ensures { (m : ClientMessage) → AskFits m → (bytes : List ℕ) × EncodesAsk m bytes }
{}

/// States that a reply passes `spelled` exactly if there are bytes that encode it. The reply is a
/// value of its type, whose numbers fit their widths. The body is empty: the contract is the law.
pub fn replies_with_encodings()
    ensures { (m : ClientReply) → IsTypedAnswer m → IsAnswer m ↔ ((bytes : List ℕ) × EncodesAnswer m bytes) }
{}

/// Law: a request handler may give exactly the replies that have an encoding in a payload of at
/// most 100,000 bytes. The reply is a value of its type, whose numbers are within their widths. It
/// has no body: the contract is the law.
pub fn allowed_replies_are_short()
    ensures { (r : ClientReply) → AnswerFits r
        → IsAllowed r ↔ (IsAnswer r × (length (answer_encoding r) ≤ reply_limit)) }
{}

/// Laws: the bytes that a codec makes answer the bytes that came to it. These may come in any
/// parts; each request that is asked is a turn with the reply that is given back, and requests of one
/// payload may be asked ahead of the replies before them. It has no body: the contract is the law.
pub fn codecs_answer()
    ensures begins { Stands [] [] [] None None [] [] }
    ensures received { (read made input more : List ℕ) (a : Option Asking) (m : Option ClientMessage) (later : List ClientMessage) (turns : Exchanges)
        → Stands read made input a m later turns → Stands (read ++ more) made (input ++ more) a m later turns }
    ensures asked { (read made input rest unsent : List ℕ) (a b : Option Asking) (m : ClientMessage) (turns : Exchanges)
        → Stands read made input a None [] turns → Advances input rest unsent b (Ok (Ask m)) → Stands read (made ++ unsent) rest b (Some m) [] turns }
    ensures refused { (read made input rest unsent : List ℕ) (a b : Option Asking) (turns : Exchanges)
        → Stands read made input a None [] turns → Advances input rest unsent b (Ok Refused) → Stands read (made ++ unsent) rest b None [] turns }
    ensures ahead { (read made input : List ℕ) (a b : Option Asking) (m n : ClientMessage) (later : List ClientMessage) (turns : Exchanges)
        → Stands read made input a (Some m) later turns → IsTakenAhead a b n → Stands read made input b (Some m) (later ++ n ∷ []) turns }
    ensures replied { (read made input unsent : List ℕ) (a b : Option Asking) (m : ClientMessage) (later : List ClientMessage) (r : ClientReply) (next : Option ClientMessage) (turns : Exchanges)
        → Stands read made input a (Some m) later turns → Follows a r unsent b (Ok next)
        → Stands read (made ++ unsent) input b (first_now next later) (later_now next later) (turns ++ (m, r) ∷ []) }
{}
