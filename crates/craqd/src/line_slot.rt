//! `LineSlot`: hands lines of standard input, one at a time, from the thread that reads them to the
//! one that runs them; for `control_input` and `controlling`.
use std::mem;
use std::sync::{Condvar, Mutex, Wait};

/// A line of standard input.
#[derive(Drop)]
pub enum InputLine {
    /// Its bytes, without the end of the line.
    Text(Vec<u8>),
    /// A line that has too many bytes.
    TooLong,
    /// A line for which there was no memory.
    Lost,
}

/// The state of a slot.
#[derive(Drop)]
enum Held {
    /// No line waits or runs.
    Nothing,
    /// A line waits.
    Line(InputLine),
    /// A line runs.
    Running,
    /// The server is over: no line runs any more.
    Over,
}

/// A slot for one line. A reader waits until the line before was run, so lines take no memory
/// beyond one.
#[derive(Drop)]
pub struct LineSlot {
    held: Mutex<Held>,
    changed: Condvar,
}

impl LineSlot {
    /// Makes a slot without a line. Takes no memory.
    pub fn new() -> Self {
        LineSlot {
            held: Mutex::new(Held::Nothing),
            changed: Condvar::new(),
        }
    }

    /// Waits until the line before was run, and hands this one over. Once the server is over the
    /// line is dropped.
    pub fn put<R: Wait>(&self, rt: &R, line: InputLine) {
        let held = self.held.lock(rt);
        let mut held = self.changed.wait_while(
            rt,
            held,
            |now| matches!(now, Held::Line(_) | Held::Running),
        );
        if matches!(&*held, Held::Nothing) {
            *held = Held::Line(line);
            drop(held);
            self.changed.notify_all();
        }
    }

    /// Waits for a line and takes it; the caller runs it, and then calls `finish_line`. `None` once
    /// the server is over.
    pub fn take<R: Wait>(&self, rt: &R) -> Option<InputLine> {
        let held = self.held.lock(rt);
        let mut held = self.changed.wait_while(
            rt,
            held,
            |now| matches!(now, Held::Nothing | Held::Running),
        );
        if matches!(&*held, Held::Over) {
            return None;
        }
        match mem::replace(&mut *held, Held::Running) {
            Held::Line(line) => Some(line),
            _ => None,
        }
    }

    /// Notes that the line that was taken was run.
    pub fn finish_line<R: Wait>(&self, rt: &R) {
        let mut held = self.held.lock(rt);
        if matches!(&*held, Held::Running) {
            *held = Held::Nothing;
            drop(held);
            self.changed.notify_all();
        }
    }

    /// Waits until no line waits or runs, or the server is over.
    pub fn wait_until_free<R: Wait>(&self, rt: &R) {
        let held = self.held.lock(rt);
        let held = self.changed.wait_while(
            rt,
            held,
            |now| matches!(now, Held::Line(_) | Held::Running),
        );
        drop(held);
    }

    /// Notes that the server is over: a line that waits is dropped, and no more lines run.
    pub fn close<R: Wait>(&self, rt: &R) {
        *self.held.lock(rt) = Held::Over;
        self.changed.notify_all();
    }
}
