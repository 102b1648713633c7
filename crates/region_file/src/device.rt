// The trusted edge: each call here makes calls of the system, and notes those that it made. No clause can say what the
// system does, so that each call makes what it notes is only read, and tried on real files.
ghost use Rattle.std.specs.Prelude.{◌≡◌, ℕ, ◌+◌, [], ◌∷◌, length, IfOk, OnOk, OnErr};
ghost use Rattle.region_file.specs.Calls.{refused};

use crate::calls::Calls;
use crate::system::{self, FileId, FilePlace};
use pm_region::RegionFault;
use std::fs::File;
use std::os::unix::fs::FileExt;
use std::rt::Files;

const SETTLED: u64 = 0;

const MEASURED: u64 = 1;

const GAVE: u64 = 2;

const WROTE: u64 = 3;

const EMPTIED: u64 = 4;

const SYNCED: u64 = 5;

const NAMED: u64 = 6;

const OPENED: u64 = 7;

const STOOD: u64 = 8;

const PLACED: u64 = 9;

const REMOVED: u64 = 10;

const REFUSED: u64 = 11;

const FAILED: u64 = 12;

/// An open file of the system, with the calls made on it. Each failure is a fault.
#[derive(Drop)]
pub struct Device {
    file: File,
    // Which file it is: an open file stays that one.
    id: FileId,
    writable: bool,
    /// Since it was opened. Only clauses read it.
    pub calls: Calls,
}

/// Finds and locks the file of this name that is to be replaced, if there is one. It is a fault where that isn't a
/// regular file, where another program has its lock, and where its folder can't be opened.
pub fn find_place<R: Files<File = File>>(
    rt: &R,
    path: &str,
    tried: &mut Calls,
) -> Result<FilePlace, RegionFault>
    ensures kept { OnOk result (tried.new ≡ tried.old) }
    ensures err { OnErr result (tried.new.made ≡ refused ∷ tried.old.made) }
{
    match FilePlace::find(rt, path) {
        Ok(place) => Ok(place),
        Err(_) => {
            tried.note(&[REFUSED, 0], &[]);
            Err(RegionFault)
        }
    }
}

impl Device {
    ghost use Rattle.region_file.specs.Calls.{settled, measured, gave, wrote, emptied, synced, named, opened, stood, placed, removed, failed};

    /// Opens the file for reading and writing, or where it can't be written for reading alone. It takes the lock of the
    /// file, a shared one for reading alone. Another program's lock, a name that is no regular file's, and one that the
    /// file lost before it was locked are faults.
    pub fn open<R: Files<File = File>>(
        rt: &R,
        path: &str,
        tried: &mut Calls,
    ) -> Result<Device, RegionFault>
        ensures ok { IfOk result (λ d. d.calls.made ≡ opened path.now ∷ []) }
        ensures err { OnErr result (tried.new.made ≡ refused ∷ tried.old.made) }
    {
        match system::locked_at_best(rt, path) {
            Ok((file, id, writable)) => {
                let mut calls = Calls::none();
                calls.note(&[OPENED, 0], path.as_bytes());
                Ok(Device {
                    file,
                    id,
                    writable,
                    calls,
                })
            }
            Err(_) => {
                tried.note(&[REFUSED, 0], &[]);
                Err(RegionFault)
            }
        }
    }

    /// Makes an empty file of this name, in the place of which another has been found, and takes its lock.
    pub fn begin<R: Files<File = File>>(
        rt: &R,
        path: &str,
        place: &FilePlace,
        tried: &mut Calls,
    ) -> Result<Device, RegionFault>
        ensures ok { IfOk result (λ d. d.calls.made ≡ emptied path.now ∷ []) }
        ensures err { OnErr result (tried.new.made ≡ refused ∷ tried.old.made) }
    {
        match place.begin(rt, path) {
            Ok((file, id)) => {
                let mut calls = Calls::none();
                calls.note(&[EMPTIED, 0], path.as_bytes());
                Ok(Device {
                    file,
                    id,
                    writable: true,
                    calls,
                })
            }
            Err(_) => {
                tried.note(&[REFUSED, 0], &[]);
                Err(RegionFault)
            }
        }
    }

    /// Opens the same file once more, with no lock of its own. Another file of that name is a fault.
    pub fn again<R: Files<File = File>>(
        &self,
        rt: &R,
        path: &str,
        tried: &mut Calls,
    ) -> Result<Device, RegionFault>
        ensures ok { IfOk result (λ d. d.calls.made ≡ opened path.now ∷ []) }
        ensures kept { OnOk result (tried.new ≡ tried.old) }
        ensures err { OnErr result (tried.new.made ≡ refused ∷ tried.old.made) }
    {
        match self.reopened(rt, path) {
            Ok(file) => {
                let mut calls = Calls::none();
                calls.note(&[OPENED, 0], path.as_bytes());
                Ok(Device {
                    file,
                    id: self.id,
                    writable: self.writable,
                    calls,
                })
            }
            Err(_) => {
                tried.note(&[REFUSED, 0], &[]);
                Err(RegionFault)
            }
        }
    }

    fn reopened<R: Files<File = File>>(&self, rt: &R, path: &str) -> Result<File, RegionFault> {
        let file = system::open_regular(rt, path, self.writable)?;
        if system::id_of(&file)? == self.id && system::is_named(rt, path, self.id)? {
            Ok(file)
        } else {
            Err(RegionFault)
        }
    }

    /// Makes certain what the file has and its name. Where it can't be written, a sync that its file system doesn't
    /// make is no fault.
    pub fn settle<R: Files<File = File>>(&mut self, rt: &R, path: &str) -> Result<(), RegionFault>
        ensures ok { OnOk result (self.new.calls.made ≡ settled ∷ self.old.calls.made) }
        ensures err { OnErr result (self.new.calls.made ≡ refused ∷ self.old.calls.made) }
    {
        if system::settle(rt, path, &self.file, self.writable).is_ok() {
            self.calls.note(&[SETTLED, 0], &[]);
            Ok(())
        } else {
            self.calls.note(&[REFUSED, 0], &[]);
            Err(RegionFault)
        }
    }

    /// How many bytes the file has. One that has no name any more is a fault.
    pub fn size(&mut self) -> Result<u64, RegionFault>
        ensures ok { IfOk result (λ n. self.new.calls.made ≡ measured n ∷ self.old.calls.made) }
        ensures err { OnErr result (self.new.calls.made ≡ refused ∷ self.old.calls.made) }
    {
        match system::length(&self.file) {
            Ok(size) => {
                self.calls.note(&[MEASURED, size], &[]);
                Ok(size)
            }
            Err(_) => {
                self.calls.note(&[REFUSED, 0], &[]);
                Err(RegionFault)
            }
        }
    }

    /// Asks whether the name still leads to the file, and how many bytes it has: the system tells both of a name at once.
    pub fn find<R: Files<File = File>>(&mut self, rt: &R, path: &str) -> Result<u64, RegionFault>
        ensures ok { IfOk result (λ n. self.new.calls.made
            ≡ measured n ∷ stood path.now ∷ self.old.calls.made) }
        ensures err { OnErr result (self.new.calls.made ≡ refused ∷ self.old.calls.made) }
    {
        match system::length_at(rt, path, self.id) {
            Ok(size) => {
                self.calls.note(&[STOOD, 0], path.as_bytes());
                self.calls.note(&[MEASURED, size], &[]);
                Ok(size)
            }
            Err(_) => {
                self.calls.note(&[REFUSED, 0], &[]);
                Err(RegionFault)
            }
        }
    }

    /// Reads the bytes at a place of the file, as many as there is room for.
    pub fn read(&mut self, at: u64, room: &mut [u8]) -> Result<(), RegionFault>
        ensures ok { OnOk result (self.new.calls.made ≡ gave at room.new ∷ self.old.calls.made) }
        ensures count { length room.new ≡ length room.old }
        ensures err { OnErr result (self.new.calls.made ≡ refused ∷ self.old.calls.made) }
    {
        if self.file.read_exact_at(room, at).is_ok() {
            self.calls.note(&[GAVE, at], room);
            Ok(())
        } else {
            self.calls.note(&[REFUSED, 0], &[]);
            Err(RegionFault)
        }
    }

    /// Writes the bytes at a place of the file.
    pub fn write(&mut self, at: u64, bytes: &[u8]) -> Result<(), RegionFault>
        ensures ok { OnOk result (self.new.calls.made ≡ wrote at bytes.now ∷ self.old.calls.made) }
        ensures err { OnErr result (self.new.calls.made ≡ failed ∷ self.old.calls.made) }
    {
        if self.writable && self.file.write_all_at(bytes, at).is_ok() {
            self.calls.note(&[WROTE, at], bytes);
            Ok(())
        } else {
            self.calls.note(&[FAILED, at], &[]);
            Err(RegionFault)
        }
    }

    /// Makes what was written before certain.
    pub fn sync(&mut self) -> Result<(), RegionFault>
        ensures ok { OnOk result (self.new.calls.made ≡ synced ∷ self.old.calls.made) }
        ensures err { OnErr result (self.new.calls.made ≡ failed ∷ self.old.calls.made) }
    {
        if self.writable && self.file.sync_data().is_ok() {
            self.calls.note(&[SYNCED, 0], &[]);
            Ok(())
        } else {
            self.calls.note(&[FAILED, 0], &[]);
            Err(RegionFault)
        }
    }

    /// Gives the file the name of the old one of this place, by a rename. It is a fault where the old one has lost that
    /// name since, or another file has it.
    pub fn take_place<R: Files<File = File>>(
        &mut self,
        rt: &R,
        own: &str,
        path: &str,
        place: &FilePlace,
    ) -> Result<(), RegionFault>
        ensures ok { OnOk result (self.new.calls.made ≡ placed path.now ∷ self.old.calls.made) }
        ensures err { OnErr result (self.new.calls.made ≡ failed ∷ self.old.calls.made) }
    {
        if place.give(rt, own, path, self.id).is_ok() {
            self.calls.note(&[PLACED, 0], path.as_bytes());
            Ok(())
        } else {
            self.calls.note(&[FAILED, 0], &[]);
            Err(RegionFault)
        }
    }

    /// Makes the names in the folder of this place certain.
    pub fn keep_name(&mut self, place: &FilePlace) -> Result<(), RegionFault>
        ensures ok { OnOk result (self.new.calls.made ≡ named ∷ self.old.calls.made) }
        ensures err { OnErr result (self.new.calls.made ≡ failed ∷ self.old.calls.made) }
    {
        if place.settle().is_ok() {
            self.calls.note(&[NAMED, 0], &[]);
            Ok(())
        } else {
            self.calls.note(&[FAILED, 0], &[]);
            Err(RegionFault)
        }
    }

    /// Takes the file's own name away. One that can't be taken away stays, and no program reads it.
    pub fn remove<R: Files<File = File>>(&mut self, rt: &R, own: &str)
        ensures { self.new.calls.made ≡ removed own.now ∷ self.old.calls.made }
    {
        let _ = rt.remove_file(own);
        self.calls.note(&[REMOVED, 0], own.as_bytes());
    }
}
