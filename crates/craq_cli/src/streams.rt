//! Opens a file in place of each standard stream that is closed: a socket would take its number, and
//! would get what is printed; for the mains of the programs.
use std::fs::{File, OpenOptions};
use std::io;
use std::os::fd::AsRawFd;
use std::rt::Files;

/// The file that takes each text and has none.
const NOWHERE: &str = "/dev/null";

/// The files in place of standard streams. Dropping them closes the streams again.
#[derive(Drop)]
pub struct Placeholders {
    first: Option<File>,
    second: Option<File>,
    third: Option<File>,
}

/// Opens the file for writing, under the lowest number that is free.
fn open_for_writing<R: Files<File = File>>(rt: &R) -> io::Result<File> {
    let mut options = OpenOptions::new();
    options.write(true);
    options.open(rt, NOWHERE)
}

/// Opens a file in place of the closed stream with the lowest number: a read of standard input and a
/// write to standard output fail, and standard error takes each text. `None` if no stream is closed,
/// or the file cannot be opened.
fn placeholder<R: Files<File = File>>(rt: &R) -> Option<File> {
    let Ok(file) = open_for_writing(rt) else {
        return None;
    };
    match file.as_raw_fd() {
        0 | 2 => Some(file),
        1 => {
            drop(file);
            File::open(rt, NOWHERE).ok()
        }
        _ => None,
    }
}

/// Opens files in place of closed standard streams.
pub fn open_placeholders<R: Files<File = File>>(rt: &R) -> Placeholders {
    let first = placeholder(rt);
    let second = placeholder(rt);
    let third = placeholder(rt);
    Placeholders {
        first,
        second,
        third,
    }
}
