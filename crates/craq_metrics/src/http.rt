//! Requests for pages, and responses; HTTP/1.1 as far as a scraper needs it. Each response ends its
//! connection.
ghost use Rattle.std.specs.Prelude.{◌≡◌, ◌≤◌, ◌++◌, ℕ, List, length, IfOk, OnOk, string_bytes};
ghost use Rattle.httparse.specs.Grammar.{HasNoRequest, MayBecomeRequest, ReadsRequest, RequestHead};
ghost use Rattle.httparse.specs.Spans.{RequestOverflows};
ghost use Rattle.craq_metrics.specs.Http.{IsWhole, meaning, page_of, status_line, media_name, head_text, response_text};

use httparse::Status;
use httparse::spans::{EMPTY_HEADER_SPAN, parse_request};
use std::alloc::{AllocError, Global};

/// The most fields of a request's head.
pub const MOST_FIELDS: usize = 64;

/// A page.
#[derive(Clone, Copy, Debug, PartialEq, Eq)]
pub enum Page {
    /// `/metrics`: the figures as Prometheus reads them.
    Metrics,
    /// `/healthz`: the first chain without a node that can answer, if there is one.
    Health,
    /// `/status.json`: the figures as JSON.
    Status,
}

/// The meaning of the bytes that came on a connection.
#[derive(Clone, Copy, Debug, PartialEq, Eq)]
pub enum HttpRequest {
    /// A request for a page.
    Page(Page),
    /// A request for another target.
    NotFound,
    /// A request by another method than `GET`.
    NotAllowed,
    /// No request, whatever bytes follow; or one with more than 64 fields.
    Bad,
    /// The beginning of a request.
    Unfinished,
}

/// The status of a response.
#[derive(Clone, Copy, Debug, PartialEq, Eq)]
pub enum HttpStatus {
    Ok,
    BadRequest,
    NotFound,
    NotAllowed,
    TooLarge,
    Unavailable,
}

/// The type of a response's body.
#[derive(Clone, Copy, Debug, PartialEq, Eq)]
pub enum MediaType {
    Plain,
    Metrics,
    Json,
}

/// Returns what a target means.
#[tactic(auto, unfolding(crate::specs::Http::page_of))]
fn page_of(target: &[u8]) -> HttpRequest
    ensures page { result ≡ page_of target.now }
    ensures whole { IsWhole result }
{
    if target == b"/metrics".as_slice() {
        return HttpRequest::Page(Page::Metrics);
    }
    if target == b"/healthz".as_slice() {
        return HttpRequest::Page(Page::Health);
    }
    if target == b"/status.json".as_slice() {
        return HttpRequest::Page(Page::Status);
    }
    HttpRequest::NotFound
}

/// Returns what a request by this method for this target means.
#[tactic(auto, unfolding(crate::specs::Http::meaning))]
fn meaning_of(method: &[u8], target: &[u8]) -> HttpRequest
    ensures meaning { result ≡ meaning method.now target.now }
    ensures whole { IsWhole result }
{
    if method == b"GET".as_slice() {
        page_of(target)
    } else {
        HttpRequest::NotAllowed
    }
}

/// Returns what the bytes mean that came on a connection: the head of a request by the grammar of
/// RFC 9112, of which the method and the target are read. What follows the head is not read.
pub fn request_in(bytes: &[u8]) -> HttpRequest
    ensures request { (head : RequestHead) (rest : List ℕ) → ReadsRequest bytes.now head rest → length head.fields ≤ MOST_FIELDS → result ≡ meaning head.method head.target }
    ensures bad { result ≡ HttpRequest.Bad → RequestOverflows MOST_FIELDS bytes.now }
    ensures nothing { result ≡ HttpRequest.Unfinished → HasNoRequest bytes.now }
    ensures unfinished { result ≡ HttpRequest.Unfinished → MayBecomeRequest bytes.now }
{
    let mut headers = [EMPTY_HEADER_SPAN; MOST_FIELDS];
    match parse_request(bytes, &mut headers) {
        Ok(Status::Complete(head)) => meaning_of(head.method.of(bytes), head.path.of(bytes)),
        Ok(Status::Partial) => HttpRequest::Unfinished,
        Err(_) => HttpRequest::Bad,
    }
}

impl HttpStatus {
    /// Returns its number and its words.
    const fn line(self) -> &'static str
        ensures { result.now ≡ status_line self }
    {
        match self {
            HttpStatus::Ok => "200 OK",
            HttpStatus::BadRequest => "400 Bad Request",
            HttpStatus::NotFound => "404 Not Found",
            HttpStatus::NotAllowed => "405 Method Not Allowed\r\nAllow: GET",
            HttpStatus::TooLarge => "431 Request Header Fields Too Large",
            HttpStatus::Unavailable => "503 Service Unavailable",
        }
    }
}

impl MediaType {
    /// Returns its name.
    const fn name(self) -> &'static str
        ensures { result.now ≡ media_name self }
    {
        match self {
            MediaType::Plain => "text/plain; charset=utf-8",
            MediaType::Metrics => "text/plain; version=0.0.4; charset=utf-8",
            MediaType::Json => "application/json",
        }
    }
}

/// Appends the head of a response whose body has this length.
#[tactic(auto, unfolding(crate::specs::Http::head_text))]
fn push_head(text: &mut String, line: &str, kind: &str, length: usize) -> Result<(), AllocError>
    ensures { OnOk result (string_bytes text.new ≡ string_bytes text.old ++ head_text line.now kind.now length) }
{
    write!(
        text,
        "HTTP/1.1 {line}\r\nContent-Type: {kind}\r\nContent-Length: {length}\r\nConnection: close\r\n\r\n"
    )
}

/// Returns a response, which ends its connection. Fails only when out of memory.
#[tactic(auto, unfolding(crate::specs::Http::response_text))]
pub fn response(
    alloc: Global,
    status: HttpStatus,
    media: MediaType,
    body: &str,
) -> Result<String, AllocError>
    ensures { IfOk result (λ text. string_bytes text ≡ response_text status media body.now) }
{
    let mut text = String::new(alloc);
    push_head(&mut text, status.line(), media.name(), body.len())?;
    text.push_str(body)?;
    Ok(text)
}
