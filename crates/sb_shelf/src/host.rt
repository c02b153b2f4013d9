ghost use Rattle.std.specs.Prelude.{◌≡◌, ◌<◌, ◌≤◌, Some, false, true, length, is_some, is_ok};
ghost use Rattle.std.specs.Prelude.{IfOk, OnOk, OnErr};
ghost use Rattle.std.specs.Result.{result_ok};
ghost use Rattle.sb_shelf.specs.Counting.{IsCounted, count_after};

use crate::counting::raise;
use crate::places::Place;
use crate::shelf::{Failed, Out, Shelf};
use crate::streams::{Streams, take_streams};
use std::fs::{File, OpenFile, OpenOptions, metadata};
use std::io;
use std::io::{Read, Write};
use std::rt::Files;

/// Real files, and standard output for the message. It tells no bytes, and not what it was asked
/// for.
///
/// Every error of the system is a failed call. So is a write that takes none of the bytes it was
/// given, and a `create` under a path that leads to a regular file in use: the input, an output, or
/// what standard output or standard error goes to. That file stands as it was. Before the first
/// `open` nothing is left to read.
#[derive(Drop)]
pub struct HostShelf<R: Files + Print + Drop> {
    rt: R,
    /// None where they cannot be had: nothing is created then.
    streams: Option<Streams<R::File>>,
    input: Option<R::File>,
    ifc: Option<R::File>,
    idf: Option<R::File>,
    report: Option<R::File>,
    read_faults: u64,
    file_faults: u64,
    said_faults: u64,
}

impl<R: Files + Print + Drop> HostShelf<R> {
    ghost use Rattle.sb_shelf.specs.World.{IsUntouched};
    ghost use Rattle.sb_shelf.specs.Host.{host_state};

    /// A shelf over the files and the standard output of this runtime: nothing is open, and only
    /// the message is created.
    pub fn new(rt: R) -> Self
        ensures state { ⟦<Self as Shelf>⟧.state result ≡ host_state false false false 0 0 0 }
        ensures files { IsUntouched (⟦<Self as Shelf>⟧.state result) }
    {
        let streams = take_streams(&rt).ok();
        HostShelf {
            rt,
            streams,
            input: None,
            ifc: None,
            idf: None,
            report: None,
            read_faults: 0,
            file_faults: 0,
            said_faults: 0,
        }
    }

    /// Opens the path for writing, and empties it where it is a regular file. Where this one is in
    /// use it fails, and stands as it was.
    fn emptied(&self, path: &str) -> Result<R::File, Failed> {
        // A file that is made here is no other's.
        if let Ok(file) = File::create_new(&self.rt, path) {
            return Ok(file);
        }
        let opened = OpenOptions::new()
            .write(true)
            .create(true)
            .open(&self.rt, path);
        let Ok(file) = opened else {
            return Err(Failed);
        };
        match Place::of(file.metadata()) {
            Place::Other => Ok(file),
            place => {
                if !place.is_among(&self.in_use()) && file.set_len(0).is_ok() {
                    Ok(file)
                } else {
                    Err(Failed)
                }
            }
        }
    }

    /// What must not be emptied: the input, the outputs, and what the message and the reports of
    /// the system go to. The system names each open handle under this folder.
    fn in_use(&self) -> [Place; 6] {
        [
            place_of(&self.input),
            place_of(&self.ifc),
            place_of(&self.idf),
            place_of(&self.report),
            Place::of(metadata(&self.rt, "/proc/self/fd/1")),
            Place::of(metadata(&self.rt, "/proc/self/fd/2")),
        ]
    }
}

impl<R: Files + Print + Drop> Shelf for HostShelf<R> {
    ghost use Rattle.sb_shelf.specs.Host.{host_state};
    ghost use Rattle.sb_shelf.specs.Calls.{Opens, ReadsInto, Creates, Writes};
    ghost use Rattle.sb_shelf.specs.Counting.{CountsReads, CountsCreates, CountsWrites};
    ghost use Rattle.std.specs.Prelude.{refl};

    ghost state = { λ h. host_state (is_some h.ifc) (is_some h.idf) (is_some h.report)
        h.read_faults h.file_faults h.said_faults };

    ghost said_is_created = { λ h. refl };

    ghost tells_left = { λ h path told. told };

    fn open(&mut self, path: &str) -> Result<(), Failed>
        ensures meets { let state = ⟦<Self as Shelf>⟧.state in
            Opens path.now result (state self.old) (state self.new) }
        ensures faults { let state = ⟦<Self as Shelf>⟧.state in
            CountsReads result (state self.old) (state self.new) }
        ensures opened { OnOk result (is_some self.new.input ≡ true) }
        ensures as_before { OnErr result (self.new.input ≡ self.old.input) }
    {
        keep(
            File::open(&self.rt, path),
            &mut self.input,
            &mut self.read_faults,
        )
    }

    fn read(&mut self, into: &mut [u8]) -> Result<usize, Failed>
        ensures meets { let state = ⟦<Self as Shelf>⟧.state in
            ReadsInto into.old into.new result (state self.old) (state self.new) }
        ensures faults { let state = ⟦<Self as Shelf>⟧.state in
            CountsReads result (state self.old) (state self.new) }
    {
        let Some(file) = &mut self.input else {
            return Ok(0);
        };
        told(file.read(into), &mut self.read_faults)
    }

    fn create(&mut self, out: Out, path: &str) -> Result<(), Failed>
        requires { (⟦<Self as Shelf>⟧.state self.old).is_created out ≡ false }
        ensures meets { let state = ⟦<Self as Shelf>⟧.state in
            Creates out path.now result (state self.old) (state self.new) }
        ensures faults { let state = ⟦<Self as Shelf>⟧.state in
            CountsCreates result (state self.old) (state self.new) }
    {
        let file = if self.streams.is_some() {
            self.emptied(path)
        } else {
            Err(Failed)
        };
        match out {
            Out::Ifc => keep(file, &mut self.ifc, &mut self.file_faults),
            Out::Idf => keep(file, &mut self.idf, &mut self.file_faults),
            Out::Report => keep(file, &mut self.report, &mut self.file_faults),
            // The message is created from the start, and nobody creates it again.
            Out::Said => unreachable!(),
        }
    }

    fn write(&mut self, out: Out, piece: &[u8]) -> Result<usize, Failed>
        requires { (⟦<Self as Shelf>⟧.state self.old).is_created out ≡ true }
        ensures meets { let state = ⟦<Self as Shelf>⟧.state in
            Writes out piece.now result (state self.old) (state self.new) }
        ensures faults { let state = ⟦<Self as Shelf>⟧.state in
            CountsWrites out result (state self.old) (state self.new) }
    {
        match out {
            Out::Ifc => write_to(&mut self.ifc, piece, &mut self.file_faults),
            Out::Idf => write_to(&mut self.idf, piece, &mut self.file_faults),
            Out::Report => write_to(&mut self.report, piece, &mut self.file_faults),
            Out::Said => counted(self.rt.write_some(piece), piece, &mut self.said_faults),
        }
    }
}

// What a file leads to, where there is one.
fn place_of<F: OpenFile>(file: &Option<F>) -> Place {
    match file {
        Some(file) => Place::of(file.metadata()),
        None => Place::Other,
    }
}

// Keeps the file that was opened, or counts the fault.
fn keep<F: Drop, E: Drop>(
    opened: Result<F, E>,
    file: &mut Option<F>,
    faults: &mut u64,
) -> Result<(), Failed>
    ensures same { is_ok result ≡ is_ok opened }
    ensures kept { IfOk opened (λ opened. file.new ≡ Some opened) }
    ensures as_before { OnErr opened (file.new ≡ file.old) }
    ensures faults { faults.new ≡ count_after result faults.old }
    ensures no_fall { faults.old ≤ faults.new }
{
    match opened {
        Ok(opened) => {
            *file = Some(opened);
            Ok(())
        }
        Err(_) => {
            raise(faults);
            Err(Failed)
        }
    }
}

// The answer of a read as a shelf gives it: the same, and an error is counted.
fn told(answer: io::Result<usize>, faults: &mut u64) -> Result<usize, Failed>
    ensures same { result_ok result ≡ result_ok answer }
    ensures faults { faults.new ≡ count_after result faults.old }
    ensures no_fall { faults.old ≤ faults.new }
{
    match answer {
        Ok(count) => Ok(count),
        Err(_) => {
            raise(faults);
            Err(Failed)
        }
    }
}

// Writes to a file that was created.
fn write_to<F: Write>(file: &mut Option<F>, piece: &[u8], faults: &mut u64) -> Result<usize, Failed>
    requires { is_some file.old ≡ true }
    ensures created { is_some file.new ≡ is_some file.old }
    ensures within { IfOk result (λ n. n ≤ length piece.now) }
    ensures some { IfOk result (λ n. 0 < length piece.now → 0 < n) }
    ensures faults { faults.new ≡ count_after result faults.old }
    ensures no_fall { faults.old ≤ faults.new }
{
    let answer = file.as_mut().unwrap().write(piece);
    counted(answer, piece, faults)
}

// The answer of a write as a shelf gives it: an error is counted, and so is 0 for bytes that were
// to be written.
fn counted(answer: io::Result<usize>, piece: &[u8], faults: &mut u64) -> Result<usize, Failed>
    requires { IfOk answer (λ n. n ≤ length piece.now) }
    ensures { IsCounted piece.now answer result faults.old faults.new }
{
    match answer {
        Ok(count) if count > 0 || piece.is_empty() => Ok(count),
        _ => {
            raise(faults);
            Err(Failed)
        }
    }
}
