//! The output of verbs for people: a reply as text or as a JSON object; for `people`.
use crate::chains::ServedChain;
use crate::health::{READ_SECONDS, Seen};
use craq_cli::{ValueForm, VerbOptions};
use craq_commands::Reply;
use craq_frames::ClientReply;
use craq_names::{NodeId, Value, Version};
use craq_script::print_reply;
use serde_json::Value as Json;
use std::alloc::{AllocError, Global};

/// The end of a value that is printed as it is.
#[derive(Clone, Copy, Debug, PartialEq, Eq)]
pub enum ValueEnd {
    /// Nothing: the output has the bytes of the value alone.
    Nothing,
    /// A line feed.
    LineFeed,
}

/// Appends a text to the output.
fn push_text(out: &mut Vec<u8>, text: &str) -> Result<(), AllocError> {
    out.extend_from_slice(text.as_bytes())?;
    Ok(())
}

/// Returns two lower-case hexadecimal digits for each byte.
fn hexadecimal(alloc: Global, bytes: &[u8]) -> Result<String, AllocError> {
    let mut text = String::new(alloc);
    for byte in bytes {
        let byte = *byte;
        write!(text, "{byte:02x}")?;
    }
    Ok(text)
}

/// Returns the number that 8 bytes encode; `None` if there are not 8.
fn number_of(bytes: &[u8]) -> Option<u64> {
    if bytes.len() != 8 {
        return None;
    }
    let mut number = 0u64;
    for byte in bytes {
        number = number.wrapping_mul(256).wrapping_add(u64::from(*byte));
    }
    Some(number)
}

/// Appends a value as the options want it: hexadecimal digits, a number, or its bytes.
fn push_value(
    out: &mut Vec<u8>,
    alloc: Global,
    value: &Value,
    options: &VerbOptions<'_>,
) -> Result<(), AllocError> {
    let bytes = value.as_slice();
    if options.form == ValueForm::Hexadecimal {
        return push_text(out, hexadecimal(alloc, bytes)?.as_str());
    }
    match number_of(bytes) {
        Some(number) if options.form == ValueForm::Decimal => {
            push_text(out, format!(in alloc; "{number}")?.as_str())
        }
        _ => {
            out.extend_from_slice(bytes)?;
            Ok(())
        }
    }
}

/// Appends the objects that a transaction read: on each line the version, a blank and the value.
fn push_reads(
    out: &mut Vec<u8>,
    alloc: Global,
    reads: &[(Version, Value)],
    options: &VerbOptions<'_>,
) -> Result<(), AllocError> {
    for read in reads {
        let version = read.0.get();
        push_text(out, format!(in alloc; "{version} ")?.as_str())?;
        push_value(out, alloc, &read.1, options)?;
        push_text(out, "\n")?;
    }
    Ok(())
}

/// Appends the reply to an update.
fn push_update_reply(
    out: &mut Vec<u8>,
    alloc: Global,
    reply: &Reply,
    options: &VerbOptions<'_>,
) -> Result<(), AllocError> {
    if let Reply::Done(reads) = reply {
        push_text(out, "done\n")?;
        return push_reads(out, alloc, reads.as_slice(), options);
    }
    let mut text = String::new(alloc);
    print_reply(&mut text, reply)?;
    text.push_str("\n")?;
    push_text(out, text.as_str())
}

/// Returns true if a line feed follows a value that was read.
fn ends_line(options: &VerbOptions<'_>, value_end: ValueEnd) -> bool {
    options.form != ValueForm::Bytes || options.prints_pass || value_end == ValueEnd::LineFeed
}

/// Returns a reply as text. An object that was never written has no text. Fails only when out of
/// memory.
pub fn reply_text(
    alloc: Global,
    reply: &ClientReply,
    options: &VerbOptions<'_>,
    value_end: ValueEnd,
) -> Result<Vec<u8>, AllocError> {
    let mut out = Vec::new(alloc);
    match reply {
        ClientReply::Update { pass: _, reply } => {
            push_update_reply(&mut out, alloc, reply, options)?;
        }
        ClientReply::Read {
            pass: _,
            version,
            value,
        } => {
            if version.get() > 0 {
                push_value(&mut out, alloc, value, options)?;
                push_text(
                    &mut out,
                    if ends_line(options, value_end) {
                        "\n"
                    } else {
                        ""
                    },
                )?;
            }
        }
        _ => {}
    }
    Ok(out)
}

/// Returns a text as a JSON string.
fn json_string(alloc: Global, text: &str) -> Result<String, AllocError> {
    Json::String(String::from_str(alloc, text)?).to_string(alloc)
}

/// Appends a value as a member of a JSON object: `value_hex` if the form is hexadecimal or the value
/// is no text, `number` if the form is decimal and the value has 8 bytes, else `value`.
fn push_json_value(
    text: &mut String,
    alloc: Global,
    bytes: &[u8],
    form: ValueForm,
) -> Result<(), AllocError> {
    if form == ValueForm::Decimal {
        if let Some(number) = number_of(bytes) {
            return write!(text, "\"number\":{number}");
        }
    }
    match str::from_utf8(bytes) {
        Ok(value) if form != ValueForm::Hexadecimal => {
            let value = json_string(alloc, value)?;
            write!(text, "\"value\":{value}")
        }
        _ => {
            let digits = hexadecimal(alloc, bytes)?;
            write!(text, "\"value_hex\":\"{digits}\"")
        }
    }
}

/// Appends the version and the value of an object as members of a JSON object.
fn push_json_read(
    text: &mut String,
    alloc: Global,
    version: Version,
    value: &Value,
    form: ValueForm,
) -> Result<(), AllocError> {
    let version = version.get();
    write!(text, "\"version\":{version},")?;
    push_json_value(text, alloc, value.as_slice(), form)
}

/// Appends the objects that a transaction read as a JSON array.
fn push_json_reads(
    text: &mut String,
    alloc: Global,
    reads: &[(Version, Value)],
    form: ValueForm,
) -> Result<(), AllocError> {
    text.push_str("\"reply\":\"done\",\"reads\":[")?;
    for (index, read) in reads.iter().enumerate() {
        text.push_str(if index > 0 { ",{" } else { "{" })?;
        push_json_read(text, alloc, read.0, &read.1, form)?;
        text.push_str("}")?;
    }
    text.push_str("]")
}

/// Appends the reply to an update as members of a JSON object.
fn push_json_update(
    text: &mut String,
    alloc: Global,
    reply: &Reply,
    form: ValueForm,
) -> Result<(), AllocError> {
    match reply {
        Reply::Written(version) => {
            let version = version.get();
            write!(text, "\"reply\":\"written\",\"version\":{version}")
        }
        Reply::Mismatch(version) => {
            let version = version.get();
            write!(text, "\"reply\":\"mismatch\",\"version\":{version}")
        }
        Reply::Done(reads) => push_json_reads(text, alloc, reads.as_slice(), form),
        Reply::CompareFailed(index) => {
            let index = *index;
            write!(text, "\"reply\":\"comparefailed\",\"index\":{index}")
        }
        Reply::Stale(last) => {
            let last = last.get();
            write!(text, "\"reply\":\"stale\",\"last\":{last}")
        }
        _ => {
            text.push_str("\"reply\":\"")?;
            print_reply(text, reply)?;
            text.push_str("\"")
        }
    }
}

/// Returns a reply as the members of a JSON object, without its braces. Fails only when out of
/// memory.
pub fn reply_json(
    alloc: Global,
    reply: &ClientReply,
    form: ValueForm,
) -> Result<String, AllocError> {
    let mut text = String::new(alloc);
    match reply {
        ClientReply::Update { pass: _, reply } => push_json_update(&mut text, alloc, reply, form)?,
        ClientReply::Read {
            pass: _,
            version,
            value,
        } => {
            text.push_str("\"reply\":\"read\",")?;
            push_json_read(&mut text, alloc, *version, value, form)?;
        }
        _ => {}
    }
    Ok(text)
}

/// Appends the ids of nodes, parted by a text.
fn push_nodes(text: &mut String, nodes: &[NodeId], between: &str) -> Result<(), AllocError> {
    for (index, node) in nodes.iter().enumerate() {
        text.push_str(if index > 0 { between } else { "" })?;
        let node = node.get();
        write!(text, "{node}")?;
    }
    Ok(())
}

/// Returns the chains as text: on each line a name and the members, head first. Fails only when out
/// of memory.
pub fn chains_text(alloc: Global, chains: &[ServedChain]) -> Result<String, AllocError> {
    let mut text = String::new(alloc);
    for chain in chains {
        text.push_str(chain.name.as_str())?;
        text.push_str(": ")?;
        push_nodes(&mut text, chain.members.as_slice(), " ")?;
        text.push_str("\n")?;
    }
    Ok(text)
}

/// Appends a chain as a JSON object.
fn push_json_chain(
    text: &mut String,
    alloc: Global,
    chain: &ServedChain,
) -> Result<(), AllocError> {
    let (id, epoch) = (chain.id.get(), chain.epoch);
    let name = json_string(alloc, chain.name.as_str())?;
    write!(
        text,
        "{{\"id\":{id},\"name\":{name},\"epoch\":{epoch},\"members\":["
    )?;
    push_nodes(text, chain.members.as_slice(), ",")?;
    text.push_str("]}")
}

/// Returns the chains as the members of a JSON object, without its braces. Fails only when out of
/// memory.
pub fn chains_json(alloc: Global, chains: &[ServedChain]) -> Result<String, AllocError> {
    let mut text = String::from_str(alloc, "\"chains\":[")?;
    for (index, chain) in chains.iter().enumerate() {
        text.push_str(if index > 0 { "," } else { "" })?;
        push_json_chain(&mut text, alloc, chain)?;
    }
    text.push_str("]")?;
    Ok(text)
}

/// Returns the line of an update that took this long, in milliseconds. Fails only when out of memory.
pub fn update_line(alloc: Global, microseconds: u64) -> Result<String, AllocError> {
    let (whole, parts) = (microseconds / 1000, microseconds % 1000 / 10);
    format!(in alloc; "update {whole}.{parts:02} ms\n")
}

/// Returns the line of a member: the time of a read in milliseconds, or why it gave none. Fails only
/// when out of memory.
pub fn member_line(alloc: Global, node: NodeId, seen: &Seen) -> Result<String, AllocError> {
    let node = node.get();
    match seen {
        Seen::Read(microseconds) => {
            let microseconds = *microseconds;
            let (whole, parts) = (microseconds / 1000, microseconds % 1000 / 10);
            format!(in alloc; "node {node} {whole}.{parts:02} ms\n")
        }
        _ => {
            let reason = reason_of(alloc, seen)?;
            format!(in alloc; "node {node} {reason}\n")
        }
    }
}

/// Returns why a member gave no time, in words; an empty text if it gave one.
fn reason_of(alloc: Global, seen: &Seen) -> Result<String, AllocError> {
    match seen {
        Seen::Read(_) => Ok(String::new(alloc)),
        Seen::Stopped => String::from_str(alloc, "stopped"),
        Seen::Silent => {
            let seconds = READ_SECONDS;
            format!(in alloc; "no reply within {seconds} s")
        }
        Seen::Refused(refusal) => {
            let refusal = *refusal;
            let number = refusal.number();
            format!(in alloc; "refused {number}: {refusal}")
        }
    }
}

/// Appends the name of a member of a JSON object that is a number, with a comma if it is not the
/// first.
fn push_json_node(text: &mut String, begin: usize, node: NodeId) -> Result<(), AllocError> {
    text.push_str(if text.len() > begin { "," } else { "" })?;
    let node = node.get();
    write!(text, "\"{node}\":")
}

/// Appends the times of reads as members of a JSON object.
fn push_json_times(text: &mut String, members: &[(NodeId, Seen)]) -> Result<(), AllocError> {
    let begin = text.len();
    for (node, seen) in members {
        if let Seen::Read(microseconds) = *seen {
            push_json_node(text, begin, *node)?;
            let (whole, parts) = (microseconds / 1_000_000, microseconds % 1_000_000);
            write!(text, "{whole}.{parts:06}")?;
        }
    }
    Ok(())
}

/// Returns the reasons of members that gave no time, as members of a JSON object.
fn json_reasons(alloc: Global, members: &[(NodeId, Seen)]) -> Result<String, AllocError> {
    let mut text = String::new(alloc);
    for (node, seen) in members {
        if matches!(seen, Seen::Read(_)) {
            continue;
        }
        push_json_node(&mut text, 0, *node)?;
        let reason = json_string(alloc, reason_of(alloc, seen)?.as_str())?;
        text.push_str(reason.as_str())?;
    }
    Ok(text)
}

/// Returns the health of a chain as the members of a JSON object, without its braces: the times in
/// seconds, and why members gave none. Fails only when out of memory.
pub fn health_json(
    alloc: Global,
    update: Option<u64>,
    members: &[(NodeId, Seen)],
) -> Result<String, AllocError> {
    let mut text = String::from_str(alloc, "\"update_seconds\":")?;
    match update {
        Some(microseconds) => {
            let (whole, parts) = (microseconds / 1_000_000, microseconds % 1_000_000);
            write!(text, "{whole}.{parts:06}")?;
        }
        None => text.push_str("null")?,
    }
    text.push_str(",\"read_seconds\":{")?;
    push_json_times(&mut text, members)?;
    text.push_str("}")?;
    let reasons = json_reasons(alloc, members)?;
    if !reasons.is_empty() {
        let reasons = reasons.as_str();
        write!(text, ",\"failed\":{{{reasons}}}")?;
    }
    Ok(text)
}
