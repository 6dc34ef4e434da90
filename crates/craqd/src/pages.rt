//! `Pages`: serves the pages of `--metrics` on a listener of its own. Few connections at once, each
//! for a short time and a bounded request: a client here keeps nothing of the store from others.
ghost use Rattle.std.specs.Prelude.{◌≡◌};

use crate::figures::{chain_figures, server_figures};
use crate::serving::RunningStore;
use craq_metrics::{
    ChainFigures, HttpRequest, HttpStatus, MediaType, Page, first_unserved, health_text,
    metrics_text, request_in, response, status_text,
};
use craq_server::{Attempt, Connections, try_accept, wait_for_connection};
use craq_workers::Named;
use std::alloc::AllocError;
use std::io::{ErrorKind, Read, Write};
use std::net::{TcpListener, TcpStream};
use std::sync::atomic::{AtomicBool, AtomicU32, Ordering};
use std::sync::{Mutex, Wait};
use std::thread;
use std::thread::{Scope, Threads};
use std::time::{Clock, Duration, Instant};

/// The most connections at once. One more is closed without a response.
const MOST_CONNECTIONS: u32 = 16;

/// The most bytes of a request's head.
const MOST_BYTES: usize = 4_096;

/// The most reads of a connection.
const MOST_READS: u32 = 64;

/// The seconds within which a connection has its response.
const MOST_SECONDS: u64 = 5;

/// The longest wait for a connection to read or write, in milliseconds: a server that is over looks
/// so often.
const WAIT_MILLISECONDS: u64 = 100;

/// The pause after each connection, in milliseconds: at most 1,000 a second are taken.
const PAUSE_MILLISECONDS: u64 = 1;

/// The pause after each page, in milliseconds: at most 100 a second are made.
const PAGE_MILLISECONDS: u64 = 10;

/// The body of a response to a request for no page.
const NO_PAGE: &str = "expected /metrics, /healthz or /status.json\n";

/// The body of a response to a request with another method.
const NOT_GET: &str = "expected the method GET\n";

/// The body of a response to bytes that are no request.
const NO_REQUEST: &str = "expected a request of HTTP/1.1\n";

/// The pages of a server.
#[derive(Drop)]
pub struct Pages<'s, R: Wait, N: Named> {
    rt: R,
    store: &'s RunningStore<N>,
    connections: &'s Connections,
    listener: &'s TcpListener,
    /// The time at which the server started, if the clock gave it.
    began: Option<Instant>,
    /// The number of open connections.
    open: AtomicU32,
    /// Locked while a page is made.
    making: Mutex<()>,
}

/// Returns whether a failed read or write may be tried again.
const fn is_passing(kind: ErrorKind) -> bool {
    matches!(kind, ErrorKind::WouldBlock | ErrorKind::Interrupted)
}

/// Returns the status of the response to a request.
const fn status_of(asked: HttpRequest) -> HttpStatus
    ensures found { asked ≡ HttpRequest.NotFound → result ≡ HttpStatus.NotFound }
    ensures allowed { asked ≡ HttpRequest.NotAllowed → result ≡ HttpStatus.NotAllowed }
    ensures bad { asked ≡ HttpRequest.Bad → result ≡ HttpStatus.BadRequest }
    ensures large { asked ≡ HttpRequest.Unfinished → result ≡ HttpStatus.TooLarge }
{
    match asked {
        HttpRequest::Page(_) => HttpStatus::Ok,
        HttpRequest::NotFound => HttpStatus::NotFound,
        HttpRequest::NotAllowed => HttpStatus::NotAllowed,
        HttpRequest::Bad => HttpStatus::BadRequest,
        HttpRequest::Unfinished => HttpStatus::TooLarge,
    }
}

impl<'s, R, N> Pages<'s, R, N>
where
    N: Named + Send + 'static,
    R: AllocGlobal + Clock + Threads + Wait + Copy + Drop + Send + Sync + 'static,
{
    /// Makes the pages of a server, which starts now. Takes no memory.
    pub fn new(
        rt: R,
        store: &'s RunningStore<N>,
        connections: &'s Connections,
        listener: &'s TcpListener,
    ) -> Self {
        Pages {
            rt,
            store,
            connections,
            listener,
            began: Instant::now(&rt).ok(),
            open: AtomicU32::new(0),
            making: Mutex::new(()),
        }
    }

    /// Serves pages until the server is over.
    pub fn serve(&self, over: &AtomicBool) {
        thread::scope(thread::scope_env(), &self.rt, |scope| {
            self.accept(scope, over);
        });
    }

    /// Accepts connections until the server is over or the listener fails permanently.
    fn accept<'e, E>(&'e self, scope: &Scope<'e, E>, over: &'e AtomicBool) {
        for _ in self.rt.forever() {
            let waited = wait_for_connection(self.listener);
            if over.load(Ordering::SeqCst) {
                break;
            }
            match try_accept(self.listener) {
                Attempt::Connection(stream) => self.take_in(scope, over, stream),
                Attempt::NoneYet if waited => continue,
                Attempt::Failed => break,
                _ => (),
            }
            thread::sleep(&self.rt, Duration::from_millis(PAUSE_MILLISECONDS));
        }
    }

    /// Serves a connection on a thread of its own. Closes it where too many are open, or where there
    /// is no thread.
    fn take_in<'e, E>(&'e self, scope: &Scope<'e, E>, over: &'e AtomicBool, stream: TcpStream) {
        if self.open.load(Ordering::SeqCst) >= MOST_CONNECTIONS {
            return;
        }
        self.open.fetch_add(1, Ordering::SeqCst);
        if scope.spawn(move || self.attend(over, stream)).is_err() {
            self.open.fetch_sub(1, Ordering::SeqCst);
        }
    }

    /// Serves a connection to its end.
    fn attend(&self, over: &AtomicBool, stream: TcpStream) {
        self.answer(over, &stream);
        drop(stream);
        self.open.fetch_sub(1, Ordering::SeqCst);
    }

    /// Reads a request and writes its response.
    fn answer(&self, over: &AtomicBool, stream: &TcpStream) {
        let wait = Some(Duration::from_millis(WAIT_MILLISECONDS));
        if stream.set_read_timeout(wait).is_err() || stream.set_write_timeout(wait).is_err() {
            return;
        }
        let Ok(began) = Instant::now(&self.rt) else {
            return;
        };
        let Some(asked) = self.request(over, &began, stream) else {
            return;
        };
        if let Ok(text) = self.response_to(asked) {
            self.send(over, &began, stream, text.as_bytes());
        }
    }

    /// Returns whether a connection that began then has had its time, or the server is over.
    fn is_late(&self, over: &AtomicBool, began: &Instant) -> bool {
        if over.load(Ordering::SeqCst) {
            return true;
        }
        match began.elapsed(&self.rt) {
            Ok(elapsed) => elapsed.as_secs() >= MOST_SECONDS,
            Err(_) => true,
        }
    }

    /// Reads a request. `None` if none came in time.
    fn request(
        &self,
        over: &AtomicBool,
        began: &Instant,
        stream: &TcpStream,
    ) -> Option<HttpRequest> {
        let mut stream = stream;
        let mut buffer = [0u8; MOST_BYTES];
        let mut count = 0usize;
        for _ in 0..MOST_READS {
            if count >= MOST_BYTES {
                return Some(HttpRequest::Unfinished);
            }
            if self.is_late(over, began) {
                return None;
            }
            match stream.read(&mut buffer[count..]) {
                Ok(n) if n > 0 => {
                    count = count.saturating_add(n).min(MOST_BYTES);
                    let asked = request_in(&buffer[..count]);
                    if asked != HttpRequest::Unfinished {
                        return Some(asked);
                    }
                }
                Err(error) if is_passing(error.kind()) => (),
                _ => return None,
            }
        }
        None
    }

    /// Writes a response, as far as the connection takes it in time.
    fn send(&self, over: &AtomicBool, began: &Instant, stream: &TcpStream, text: &[u8]) {
        let mut stream = stream;
        let mut rest = text;
        for _ in 0..u64::MAX {
            if rest.is_empty() || self.is_late(over, began) {
                return;
            }
            match stream.write(rest) {
                Ok(n) if n > 0 && n <= rest.len() => rest = &rest[n..],
                Err(error) if is_passing(error.kind()) => (),
                _ => return,
            }
        }
    }

    /// Returns the response to a request. Fails only when out of memory.
    fn response_to(&self, asked: HttpRequest) -> Result<String, AllocError> {
        let (alloc, status) = (self.rt.alloc(), status_of(asked));
        match asked {
            HttpRequest::Page(page) => self.page(page),
            HttpRequest::NotFound => response(alloc, status, MediaType::Plain, NO_PAGE),
            HttpRequest::NotAllowed => response(alloc, status, MediaType::Plain, NOT_GET),
            _ => response(alloc, status, MediaType::Plain, NO_REQUEST),
        }
    }

    /// Makes a page, one at a time, and at most 100 a second. Fails only when out of memory.
    fn page(&self, page: Page) -> Result<String, AllocError> {
        let making = self.making.lock(&self.rt);
        thread::sleep(&self.rt, Duration::from_millis(PAGE_MILLISECONDS));
        let chains = chain_figures(&self.rt, self.store)?;
        let made = match page {
            Page::Metrics => self.metrics(chains.as_slice()),
            Page::Health => self.health(chains.as_slice()),
            Page::Status => self.status(chains.as_slice()),
        };
        drop(making);
        made
    }

    /// Returns the seconds since the server started; 0 where the clock gives no time.
    fn uptime(&self) -> u64 {
        let Some(began) = &self.began else {
            return 0;
        };
        match began.elapsed(&self.rt) {
            Ok(elapsed) => elapsed.as_secs(),
            Err(_) => 0,
        }
    }

    /// Makes the page `/metrics`. Fails only when out of memory.
    fn metrics(&self, chains: &[ChainFigures]) -> Result<String, AllocError> {
        let alloc = self.rt.alloc();
        let server = server_figures(&self.connections.counts(), self.uptime());
        let text = metrics_text(alloc, &server, chains)?;
        response(alloc, HttpStatus::Ok, MediaType::Metrics, text.as_str())
    }

    /// Makes the page `/status.json`. Fails only when out of memory.
    fn status(&self, chains: &[ChainFigures]) -> Result<String, AllocError> {
        let alloc = self.rt.alloc();
        let server = server_figures(&self.connections.counts(), self.uptime());
        let text = status_text(alloc, &server, chains)?;
        response(alloc, HttpStatus::Ok, MediaType::Json, text.as_str())
    }

    /// Makes the page `/healthz`. Fails only when out of memory.
    fn health(&self, chains: &[ChainFigures]) -> Result<String, AllocError> {
        let alloc = self.rt.alloc();
        let unserved = first_unserved(chains);
        let status = if unserved.is_some() {
            HttpStatus::Unavailable
        } else {
            HttpStatus::Ok
        };
        let text = health_text(alloc, unserved)?;
        response(alloc, status, MediaType::Plain, text.as_str())
    }
}
