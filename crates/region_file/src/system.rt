// The calls of the system by which a file is opened, locked, named and made certain. With `device` it is the trusted
// edge: what these calls do is only read, and tried on real files.
use std::fs::{File, Metadata, OpenOptions};
use std::io::{self, ErrorKind};
use std::os::fd::AsRawFd;
use std::os::unix::fs::{MetadataExt, fchown};
use std::rt::Files;

/// The last descriptor of the standard streams: input, output and errors.
const LAST_STREAM: i32 = 2;

/// Which file of the system it is: its file system's number, and its own there. While a file is open no other has both.
#[derive(Clone, Copy, PartialEq, Eq)]
pub struct FileId {
    system: u64,
    number: u64,
}

/// The old file of a name, locked, if there is one, and the open folder in which it lies.
#[derive(Drop)]
pub struct FilePlace {
    folder: File,
    old: Option<(File, FileId)>,
}

impl FilePlace {
    /// Finds and locks the place of this name, before anything is changed there.
    pub fn find<R: Files<File = File>>(rt: &R, path: &str) -> io::Result<FilePlace> {
        let folder = File::open(rt, folder_of(path))?;
        let old = match rt.symlink_metadata(path) {
            Ok(found) if found.is_file() => Some(locked(rt, path, true)?),
            Ok(_) => return Err(refusal()),
            Err(e) if e.kind() == ErrorKind::NotFound => None,
            Err(e) => return Err(e),
        };
        Ok(FilePlace { folder, old })
    }

    /// A file of this name, empty and locked, with the owner and the rights of the old one. What lies there is what a
    /// format left that was cut off.
    pub fn begin<R: Files<File = File>>(&self, rt: &R, path: &str) -> io::Result<(File, FileId)> {
        if rt
            .symlink_metadata(path)
            .is_ok_and(|found| !found.is_file())
        {
            return Err(refusal());
        }
        let mut options = OpenOptions::new();
        let file = above_streams(options.read(true).write(true).create(true).open(rt, path)?)?;
        let id = lock(rt, path, &file, true)?;
        match self.clear(&file) {
            Ok(()) => Ok((file, id)),
            Err(e) => {
                let _ = rt.remove_file(path);
                Err(e)
            }
        }
    }

    fn clear(&self, file: &File) -> io::Result<()> {
        file.set_len(0)?;
        let Some((old, _)) = &self.old else {
            return Ok(());
        };
        let (own, wanted) = (file.metadata()?, old.metadata()?);
        if own.uid() != wanted.uid() || own.gid() != wanted.gid() {
            fchown(file, Some(wanted.uid()), Some(wanted.gid()))?;
        }
        if own.mode() == wanted.mode() {
            Ok(())
        } else {
            file.set_permissions(wanted.permissions())
        }
    }

    /// Gives the file the name of the old one, which must have it still.
    pub fn give<R: Files<File = File>>(
        &self,
        rt: &R,
        from: &str,
        to: &str,
        id: FileId,
    ) -> io::Result<()> {
        let is_free = match &self.old {
            Some((_, old)) => is_named(rt, to, *old)?,
            None => rt
                .symlink_metadata(to)
                .is_err_and(|e| e.kind() == ErrorKind::NotFound),
        };
        if is_free && is_named(rt, from, id)? {
            rt.rename(from, to)
        } else {
            Err(refusal())
        }
    }

    /// Makes the names in the folder certain.
    pub fn settle(&self) -> io::Result<()> {
        self.folder.sync_all()
    }
}

/// The file of this name with its lock, which one it is, and whether it can be written. It is opened for reading alone,
/// and its lock shared, where the right to write is missing or its file system can only be read.
pub fn locked_at_best<R: Files<File = File>>(
    rt: &R,
    path: &str,
) -> io::Result<(File, FileId, bool)> {
    match locked(rt, path, true) {
        Err(e) if e.kind() == ErrorKind::PermissionDenied => read_locked(rt, path),
        Err(e) if e.kind() == ErrorKind::ReadOnlyFilesystem => read_locked(rt, path),
        Err(e) => Err(e),
        Ok((file, id)) => Ok((file, id, true)),
    }
}

fn read_locked<R: Files<File = File>>(rt: &R, path: &str) -> io::Result<(File, FileId, bool)> {
    let (file, id) = locked(rt, path, false)?;
    Ok((file, id, false))
}

fn locked<R: Files<File = File>>(rt: &R, path: &str, writable: bool) -> io::Result<(File, FileId)> {
    let file = open_regular(rt, path, writable)?;
    let id = lock(rt, path, &file, writable)?;
    Ok((file, id))
}

// Takes the lock at once or not at all. The file may have lost its name before it was locked.
fn lock<R: Files<File = File>>(rt: &R, path: &str, file: &File, alone: bool) -> io::Result<FileId> {
    let locks = if alone {
        file.try_lock()
    } else {
        file.try_lock_shared()
    };
    let id = id_of(file)?;
    if locks.is_ok() && is_named(rt, path, id)? {
        Ok(id)
    } else {
        Err(refusal())
    }
}

/// Opens a regular file. Any other, as a fifo, is refused before it is opened.
pub fn open_regular<R: Files<File = File>>(rt: &R, path: &str, write: bool) -> io::Result<File> {
    if !rt.metadata(path)?.is_file() {
        return Err(refusal());
    }
    let mut options = OpenOptions::new();
    above_streams(options.read(true).write(write).open(rt, path)?)
}

/// Which file an open one is.
pub fn id_of(file: &File) -> io::Result<FileId> {
    let own = file.metadata()?;
    Ok(FileId {
        system: own.dev(),
        number: own.ino(),
    })
}

fn is_of(found: &Metadata, id: FileId) -> bool {
    found.is_file() && found.dev() == id.system && found.ino() == id.number
}

/// Whether the name leads to this file.
pub fn is_named<R: Files<File = File>>(rt: &R, path: &str, id: FileId) -> io::Result<bool> {
    Ok(is_of(&rt.metadata(path)?, id))
}

/// How many bytes the file has to which the name leads. Another one than this is refused.
pub fn length_at<R: Files<File = File>>(rt: &R, path: &str, id: FileId) -> io::Result<u64> {
    let found = rt.metadata(path)?;
    if is_of(&found, id) {
        Ok(found.len())
    } else {
        Err(refusal())
    }
}

/// Makes certain what the file has, and its name. A folder that can't be opened is left as it is.
pub fn settle<R: Files<File = File>>(
    rt: &R,
    path: &str,
    file: &File,
    writable: bool,
) -> io::Result<()> {
    settled(file.sync_all(), writable)?;
    match File::open(rt, folder_of(path)) {
        Ok(folder) => settled(folder.sync_all(), writable),
        Err(_) => Ok(()),
    }
}

// Where nothing can be written, a file system may refuse a sync, and none is wanted.
fn settled(synced: io::Result<()>, writable: bool) -> io::Result<()> {
    match synced {
        Err(e) if !writable && e.kind() == ErrorKind::InvalidInput => Ok(()),
        Err(e) if !writable && e.kind() == ErrorKind::ReadOnlyFilesystem => Ok(()),
        synced => synced,
    }
}

/// How many bytes the file has. One that no name leads to any more is refused.
pub fn length(file: &File) -> io::Result<u64> {
    let found = file.metadata()?;
    if found.nlink() == 0 {
        Err(refusal())
    } else {
        Ok(found.len())
    }
}

// What is meant for a standard stream that was closed must not land in the file: a copy of a descriptor is above them.
fn above_streams(file: File) -> io::Result<File> {
    if file.as_raw_fd() > LAST_STREAM {
        Ok(file)
    } else {
        file.try_clone()
    }
}

// The folder of a name, as the name gives it.
fn folder_of(path: &str) -> &str {
    match path.rsplit_once('/') {
        None => ".",
        Some(("", _)) => "/",
        Some((folder, _)) => folder,
    }
}

fn refusal() -> io::Error {
    io::Error::from(ErrorKind::Unsupported)
}
