// The handles of the three standard streams.
use std::fs::File;
use std::io;
use std::rt::Files;

/// Three handles of the root folder, which keep the places of the standard streams taken.
///
/// A program may be started with some of these streams closed. The system gives the next file the
/// lowest free handle: without these, the report would stand where the message is written to, and
/// the message in the report. A folder is opened, and no device: what is written to it or read from
/// it fails as on a closed stream, where the null device would swallow the one and end the other.
#[derive(Drop)]
pub(crate) struct Streams<F: Drop> {
    first: F,
    second: F,
    third: F,
}

/// Takes the lowest three handles that are free. Then none of those of the streams is.
pub(crate) fn take_streams<R: Files>(rt: &R) -> io::Result<Streams<R::File>> {
    Ok(Streams {
        first: File::open(rt, "/")?,
        second: File::open(rt, "/")?,
        third: File::open(rt, "/")?,
    })
}
