//! States which messages between nodes have an encoding at all; no code calls these laws, the
//! docstring of `spelled` names them.
ghost use Rattle.std.specs.Prelude.{◌↔◌, ℕ, List};
ghost use Rattle.craq_model.specs.Encodable.{IsEncodable};
ghost use Rattle.craq_wire.specs.Encoding.{Encodes};
ghost use Rattle.craq_wire.specs.Typed.{IsTypedMessage};

use crate::LinkMessage;

/// States that a message passes `spelled` exactly if there are bytes that encode it. The message is
/// a value of its type, whose numbers fit their widths. The body is empty: the contract is the law.
pub fn messages_with_encodings()
    ensures { (m : LinkMessage) → IsTypedMessage m → IsEncodable m ↔ ((bytes : List ℕ) × Encodes m bytes) }
{}
