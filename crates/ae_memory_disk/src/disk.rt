// A disk in memory.
ghost use Rattle.std.specs.Prelude.{◌≡◌, ◌≤◌, ◌<◌, ◌+◌, ◌^◌, [], length, take, drop, Contains, IsTrue, IsErr, IsErrOf, IsOkAnd, IfOk, OnOk, OnErr, ◌↔◌, if◌then◌else◌, vec_len, vec_capacity};
ghost use Rattle.ae_memory.specs.Calls.{IsCall, IsFed};
ghost use Rattle.ae_outside.specs.Causes.{Counted, HasCause, next};
ghost use Rattle.ae_outside.specs.DiskNames.{IsDiskName};
ghost use Rattle.ae_outside.specs.Image.{Image, IsSame, WriteBegun, CutBegun, Overwritten};
ghost use Rattle.ae_outside.specs.State.{reads, MayLeave, GoesOn, IsStable};
ghost use Rattle.ae_memory_disk.specs.DiskFiles.{bytes_of};
ghost use Rattle.ae_memory_disk.specs.DiskLog.{applied};
ghost use Rattle.ae_memory_disk.specs.MemDisk.{state_of, moment_behind, picked_behind, new_disk, with_change, with_starved, Logs, OnlyCounts};
ghost use Rattle.ae_memory_disk.specs.declared.disk_log.Change.TheVariants.{Write, Cut, Sync};
ghost use Rattle.ae_memory_disk.specs.declared.disk_stop.Pick.TheVariants.{New};

use crate::disk_files::Files;
use crate::disk_log::{Change, Logged};
use crate::disk_stop::{Pick, changes_by, left_files};
use ae_memory::Calls;
use ae_outside::{Disk, Failed, ReadError};
use std::alloc::{AllocError, Global};
use std::marker::Model;

/// A disk in memory that keeps a log of the calls that changed or synced it. Contracts see the files that it began
/// with, the log, and the counts of its calls.
#[derive(Drop)]
pub struct MemDisk {
    alloc: Global,
    initial: Files,
    files: Files,
    log: Vec<Logged>,
    calls: Calls,
}

impl Model for MemDisk {
    ghost use Rattle.ae_memory_disk.specs.MemDisk.{DiskRecord, Keeps};

    ghost Value = { DiskRecord };

    ghost view = { λ a. record { initial = a.initial; log = a.log.items; counts = a.calls } };

    ghost invariant = { λ a. Keeps a.initial a.files a.log.items a.calls };
}

// So many bytes from a place on, fewer at the end.
fn part(bytes: &[u8], at: usize, len: usize) -> &[u8]
    ensures { result.now ≡ take len (drop at bytes.now) }
{
    if at >= bytes.len() {
        return &[];
    }
    let rest = &bytes[at..];
    if len < rest.len() { &rest[..len] } else { rest }
}

// The change into the files, and room for one more into the log.
fn apply_with_room(
    alloc: Global,
    files: &mut Files,
    log: &mut Vec<Logged>,
    change: &Change,
) -> Result<(), AllocError>
    ensures ok { OnOk result (bytes_of files.new ≡ applied change.now (bytes_of files.old)) }
    ensures err { OnErr result (files.new ≡ files.old) }
    ensures log { log.new.items ≡ log.old.items }
    ensures room { OnOk result (vec_len log.new < vec_capacity log.new) }
{
    log.reserve(1)?;
    files.apply(alloc, change)
}

impl MemDisk {
    /// An empty disk. Its calls of these numbers will fail and change nothing, counted from 1.
    pub fn new(alloc: Global, fails: &[u64]) -> Result<MemDisk, AllocError>
        ensures { IfOk result (λ disk. disk ≡ new_disk [] fails.now) }
    {
        MemDisk::starting(alloc, Files::new(alloc), fails)
    }

    /// How many calls it has had.
    pub fn calls(&self) -> u64
        ensures calls { result ≡ self.now.counts.calls }
        // The moment after all of them is now.
        ensures now { moment_behind result self.now ≡ (state_of self.now).moment }
    {
        self.calls.calls()
    }

    /// How many of its calls found no memory to grow.
    pub fn starved(&self) -> u64
        ensures { result ≡ self.now.counts.starved }
    {
        self.calls.starved()
    }

    /// The disk after a stop after the first so many calls, by what is made of the bytes that weren't stable then.
    pub fn after_stop(&self, alloc: Global, calls: u64, pick: Pick) -> Result<MemDisk, AllocError>
        requires { calls ≤ self.now.counts.calls }
        // It reads as picked, which is one of the images of that moment, and for `New` what was read then.
        ensures picked { IfOk result (λ disk. reads (state_of disk) ≡ picked_behind pick calls self.now) }
        ensures image { IfOk result (λ disk. (state_of self.now).image_at (moment_behind calls self.now) (reads (state_of disk))) }
        ensures new { IfOk result (λ disk. pick ≡ New → reads (state_of disk) ≡ (state_of self.now).reads_at (moment_behind calls self.now)) }

        // It is stable, and has had no call yet; none is to fail.
        ensures stable { IfOk result (λ disk. (image : Image) → MayLeave (state_of disk) image → image ≡ reads (state_of disk)) }
        ensures fresh { IfOk result (λ disk. disk ≡ new_disk disk.initial []) }
    {
        let start = self.left_behind(alloc, calls, pick)?;
        MemDisk::starting(alloc, start, &[])
    }

    // An empty log over these files, and no call yet.
    fn starting(alloc: Global, initial: Files, fails: &[u64]) -> Result<MemDisk, AllocError>
        ensures { IfOk result (λ disk. disk ≡ new_disk initial fails.now) }
    {
        Ok(MemDisk {
            alloc,
            files: initial.copy(alloc)?,
            initial,
            log: Vec::new(alloc),
            calls: Calls::new(alloc, fails)?,
        })
    }

    fn left_behind(&self, alloc: Global, calls: u64, pick: Pick) -> Result<Files, AllocError>
        ensures { IfOk result (λ files. bytes_of files ≡ picked_behind pick calls self.now) }
    {
        left_files(alloc, &self.initial, changes_by(&self.log, calls), pick)
    }

    fn bytes_of(&self, name: &str) -> &[u8]
        ensures { result.now ≡ reads (state_of self.now) name.now }
    {
        self.files.bytes_of(name.as_bytes())
    }

    // Counts a call, and says whether it is one that fails.
    fn begins(&mut self) -> bool
        ensures listed { IsTrue result ↔ Contains self.old.counts.fails (next self.old.counts.calls) }
        ensures counted { self.new ≡ record self.old { counts = record self.old.counts { calls = next self.old.counts.calls; failed = (if result then next self.old.counts.failed else self.old.counts.failed) } } }
        ensures later { self.old.counts.failed ≤ self.new.counts.failed }
    {
        self.calls.begins()
    }

    // The change into the log and the files, or neither.
    fn log_change(&mut self, change: Change) -> Result<(), AllocError>
        ensures ok { OnOk result (self.new ≡ with_change change self.old) }
        ensures err { OnErr result (self.new ≡ self.old) }
    {
        let number = self.calls.calls();
        match apply_with_room(self.alloc, &mut self.files, &mut self.log, &change) {
            Ok(()) => {
                self.log.push_reserved(Logged { number, change });
                Ok(())
            }
            Err(error) => {
                drop(change);
                Err(error)
            }
        }
    }

    // The change, where there is memory for it.
    fn note(&mut self, change: Result<Change, AllocError>) -> Result<(), Failed>
        ensures ok { OnOk result (IsOkAnd change (λ change. self.new ≡ with_change change self.old)) }
        ensures err { OnErr result (self.new ≡ with_starved self.old) }
        ensures later { self.old.counts.failed ≤ self.new.counts.failed }
    {
        let logged = match change {
            Ok(change) => self.log_change(change),
            Err(error) => Err(error),
        };
        match logged {
            Ok(()) => Ok(()),
            Err(_) => {
                self.calls.starves();
                Err(Failed)
            }
        }
    }
}

impl Disk for MemDisk {
    ghost tells = { Unit {0} };

    ghost state = { state_of };

    ghost faults = { λ m. m.counts.failed };

    fn size(&mut self, name: &str) -> Result<u64, Failed>
        requires { IsDiskName name.now }
        ensures size { IfOk result (λ n. n ≡ length (reads (state_of self.old) name.now)) }
        ensures change { GoesOn IsSame (state_of self.old) (state_of self.new) }
        ensures cause { HasCause self.old.counts.failed self.new.counts.failed result }

        // It fails exactly where its number is listed, and only counts.
        ensures exact { IsCall self.old.counts self.new.counts (IsErr result) }
        ensures fed { IsFed self.old.counts self.new.counts }
        ensures same { OnlyCounts self.old self.new }
    {
        if self.begins() {
            return Err(Failed);
        }
        Ok(self.bytes_of(name).len() as u64)
    }

    fn read_at(
        &mut self,
        alloc: Global,
        name: &str,
        at: u64,
        len: usize,
    ) -> Result<Vec<u8>, ReadError>
        requires { IsDiskName name.now }
        ensures bytes { IfOk result (λ bytes. bytes.items ≡ take len (drop at (reads (state_of self.old) name.now))) }
        ensures at_most { IfOk result (λ bytes. length bytes.items ≤ len) }
        ensures change { GoesOn IsSame (state_of self.old) (state_of self.new) }
        ensures cause { Counted self.old.counts.failed self.new.counts.failed (IsErrOf result ReadError.Failed) }

        // It fails exactly where its number is listed, and only counts. Where it finds no memory for the answer it hasn't failed.
        ensures exact { IsCall self.old.counts self.new.counts (IsErrOf result ReadError.Failed) }
        ensures fed { IsFed self.old.counts self.new.counts }
        ensures same { OnlyCounts self.old self.new }
    {
        if self.begins() {
            return Err(ReadError::Failed);
        }
        let bytes = self.bytes_of(name);
        match part(bytes, at as usize, len).to_vec(alloc) {
            Ok(bytes) => Ok(bytes),
            Err(_) => Err(ReadError::Memory),
        }
    }

    fn write_at(&mut self, name: &str, at: u64, bytes: &[u8]) -> Result<(), Failed>
        requires name { IsDiskName name.now }
        requires at { at ≤ length (reads (state_of self.old) name.now) }
        requires end { at + length bytes.now < 2 ^ 64 }
        ensures written { OnOk result (Overwritten at bytes.now (reads (state_of self.old) name.now) (reads (state_of self.new) name.now)) }
        ensures change { GoesOn (WriteBegun name.now at (length bytes.now)) (state_of self.old) (state_of self.new) }
        ensures cause { HasCause self.old.counts.failed self.new.counts.failed result }

        // It fails exactly where its number is listed or it found no memory, and is logged where it doesn't.
        ensures exact { IsCall self.old.counts self.new.counts (IsErr result) }
        ensures logged { OnOk result (Logs (Write name.now at bytes.now) self.old self.new) }
        ensures kept { OnErr result (OnlyCounts self.old self.new) }
    {
        if self.begins() {
            return Err(Failed);
        }
        let change = Change::write(self.alloc, name, at, bytes);
        self.note(change)?;
        Ok(())
    }

    fn cut(&mut self, name: &str, len: u64) -> Result<(), Failed>
        requires { IsDiskName name.now }
        ensures cut { OnOk result (reads (state_of self.new) name.now ≡ take len (reads (state_of self.old) name.now)) }
        ensures front { take (length (reads (state_of self.new) name.now)) (reads (state_of self.old) name.now) ≡ reads (state_of self.new) name.now }
        ensures change { GoesOn (CutBegun name.now len) (state_of self.old) (state_of self.new) }
        ensures cause { HasCause self.old.counts.failed self.new.counts.failed result }

        // It fails exactly where its number is listed or it found no memory, and is logged where it doesn't.
        ensures exact { IsCall self.old.counts self.new.counts (IsErr result) }
        ensures logged { OnOk result (Logs (Cut name.now len) self.old self.new) }
        ensures kept { OnErr result (OnlyCounts self.old self.new) }
    {
        if self.begins() {
            return Err(Failed);
        }
        let change = Change::cut(self.alloc, name, len);
        self.note(change)?;
        Ok(())
    }

    fn sync(&mut self, name: &str) -> Result<(), Failed>
        requires { IsDiskName name.now }
        ensures stable { OnOk result (IsStable name.now (state_of self.new)) }
        ensures change { GoesOn IsSame (state_of self.old) (state_of self.new) }
        ensures cause { HasCause self.old.counts.failed self.new.counts.failed result }

        // It fails exactly where its number is listed or it found no memory, and is logged where it doesn't.
        ensures exact { IsCall self.old.counts self.new.counts (IsErr result) }
        ensures logged { OnOk result (Logs (Sync name.now) self.old self.new) }
        ensures kept { OnErr result (OnlyCounts self.old self.new) }
    {
        if self.begins() {
            return Err(Failed);
        }
        let change = Change::sync(self.alloc, name);
        self.note(change)?;
        Ok(())
    }
}
