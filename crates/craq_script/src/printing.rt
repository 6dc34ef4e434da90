//! Prints replies and refusals as `specs/Printed` defines; called by `craq_play`, `craq` and
//! `craq_embedding`.
ghost use Rattle.std.specs.Prelude.{◌≡◌, ◌++◌, OnOk, string_bytes};
ghost use Rattle.std.specs.List.{flat_map};
ghost use Rattle.craq_script.specs.Printed.{byte_text, value_text, object_text, reply_text, answer_text, refusal_text};

use craq_commands::Reply;
use craq_model::Answer;
use craq_names::{Refusal, Value, Version};
use std::alloc::AllocError;

/// Prints two lower-case hexadecimal digits for each byte.
fn print_bytes(text: &mut String, bytes: &[u8]) -> Result<(), AllocError>
    ensures { OnOk result (string_bytes text.new ≡ string_bytes text.old ++ flat_map byte_text bytes.now) }
{
    for byte in bytes {
        print_byte(text, *byte)?;
    }
    Ok(())
}

/// Prints the byte as two lower-case hexadecimal digits.
fn print_byte(text: &mut String, byte: u8) -> Result<(), AllocError>
    ensures { OnOk result (string_bytes text.new ≡ string_bytes text.old ++ byte_text byte) }
{
    write!(text, "{byte:02x}")
}

/// Prints `0x` and two lower-case hexadecimal digits for each of the value's bytes.
#[tactic(auto, unfolding(crate::specs::Printed::value_text))]
fn print_value(text: &mut String, value: &Value) -> Result<(), AllocError>
    ensures { OnOk result (string_bytes text.new ≡ string_bytes text.old ++ value_text value.now) }
{
    text.push_str("0x")?;
    print_bytes(text, value.as_slice())
}

/// Prints the objects that a transaction read: a space, the version, a colon and the value of each.
fn print_objects(text: &mut String, objects: &[(Version, Value)]) -> Result<(), AllocError>
    ensures { OnOk result (string_bytes text.new ≡ string_bytes text.old ++ flat_map object_text objects.now) }
{
    for object in objects {
        let version = object.0.get();
        write!(text, " {version}:")?;
        print_value(text, &object.1)?;
    }
    Ok(())
}

/// Prints the reply to an update. Fails only when out of memory; the text is then unspecified.
#[tactic(auto, unfolding(crate::specs::Printed::reply_text))]
pub fn print_reply(text: &mut String, reply: &Reply) -> Result<(), AllocError>
    ensures { OnOk result (string_bytes text.new ≡ string_bytes text.old ++ reply_text reply.now) }
{
    match reply {
        Reply::Written(version) => {
            let version = version.get();
            write!(text, "written {version}")
        }
        Reply::Mismatch(version) => {
            let version = version.get();
            write!(text, "mismatch {version}")
        }
        Reply::TooLong => text.push_str("toolong"),
        Reply::NotANumber => text.push_str("notanumber"),
        Reply::Overflow => text.push_str("overflow"),
        Reply::Underflow => text.push_str("underflow"),
        Reply::Done(objects) => {
            text.push_str("done")?;
            print_objects(text, objects.as_slice())
        }
        Reply::CompareFailed(place) => {
            let place = *place;
            write!(text, "comparefailed {place}")
        }
        Reply::Stale(last) => {
            let last = last.get();
            write!(text, "stale {last}")
        }
    }
}

/// Prints a reply: that to an update, or `read`, the version and the value. Fails only when out of
/// memory; the text is then unspecified.
#[tactic(auto, unfolding(crate::specs::Printed::answer_text))]
pub fn print_answer(text: &mut String, answer: &Answer) -> Result<(), AllocError>
    ensures { OnOk result (string_bytes text.new ≡ string_bytes text.old ++ answer_text answer.now) }
{
    match answer {
        Answer::Update(reply) => print_reply(text, reply),
        Answer::Read { version, value } => {
            let version = version.get();
            write!(text, "read {version} ")?;
            print_value(text, value)
        }
    }
}

/// Prints a refusal: `refused`, its number, and after number 9 the head. Fails only when out of
/// memory; the text is then unspecified.
#[tactic(auto, unfolding(crate::specs::Printed::refusal_text))]
pub fn print_refusal(text: &mut String, refusal: &Refusal) -> Result<(), AllocError>
    ensures { OnOk result (string_bytes text.new ≡ string_bytes text.old ++ refusal_text refusal.now) }
{
    let number = (*refusal).number();
    write!(text, "refused {number}")?;
    if let Refusal::NotHead(head) = refusal {
        let head = head.get();
        write!(text, " {head}")?;
    }
    text.push_str("\n")
}
