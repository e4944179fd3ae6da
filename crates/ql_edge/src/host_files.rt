//! The two files of a database on the host's disk.
ghost use Rattle.std.specs.Prelude.{◌≡◌, IfOk};

use crate::{Bytes, Which};
use std::fs::{self, File, OpenOptions};
use std::io::{self, ErrorKind};
use std::os::fd::AsRawFd;
use std::os::unix::fs::{FileExt, MetadataExt};

/// The two files of a name, open for reading and writing. The data file is locked as long as they are.
#[derive(Drop)]
pub struct HostFiles {
    name: Bytes,
    on_data: File,
    on_log: File,
}

/// The file with a descriptor past those of the standard streams: what is meant for a stream that was closed when the
/// program began must not land in a database.
fn apart(file: File) -> io::Result<File> {
    if file.as_raw_fd() <= 2 {
        file.try_clone()
    } else {
        Ok(file)
    }
}

/// Opens a file that is there, and refuses what is no file. Answers `None` where nothing is.
fn open_present(rt: &HostRuntime, path: &str) -> io::Result<Option<File>> {
    match OpenOptions::new().read(true).write(true).open(rt, path) {
        Ok(file) => {
            if !file.metadata()?.is_file() {
                return Err(ErrorKind::Unsupported.into());
            }
            Ok(Some(apart(file)?))
        }
        Err(error) if error.kind() == ErrorKind::NotFound => Ok(None),
        Err(error) => Err(error),
    }
}

/// The file that was opened, or one that is made where none was.
fn or_made(rt: &HostRuntime, path: &str, present: Option<File>) -> io::Result<File> {
    match present {
        Some(file) => Ok(file),
        None => make(rt, path),
    }
}

/// Makes a file where none was.
fn make(rt: &HostRuntime, path: &str) -> io::Result<File> {
    let file = File::create_new(rt, path)?;
    match apart(file) {
        Ok(file) => Ok(file),
        Err(error) => {
            fs::remove_file(rt, path)?;
            Err(error)
        }
    }
}

/// Takes the lock of the data file. It is refused where another program has it, and where the name leads to another file
/// by now.
fn lock(rt: &HostRuntime, path: &str, file: &File) -> io::Result<()> {
    let (found, named) = (file.metadata()?, fs::metadata(rt, path)?);
    if found.dev() != named.dev() || found.ino() != named.ino() {
        return Err(ErrorKind::Unsupported.into());
    }
    Ok(file.try_lock()?)
}

/// Makes it stable that the folder names a file.
fn sync_folder(rt: &HostRuntime, path: &str) -> io::Result<()> {
    let folder = match path.rsplit_once('/') {
        None => ".",
        Some(("", _)) => "/",
        Some((folder, _)) => folder,
    };
    File::open(rt, folder)?.sync_all()
}

impl HostFiles {
    /// Opens the two files, and makes those that are missing. What they read is on the disk then, and so are their names.
    ///
    /// The files that are there are opened first, and a data file that was made goes again where the log cannot be made,
    /// so a refusal makes nothing. It writes nothing either.
    pub(crate) fn open(
        rt: &HostRuntime,
        name: Bytes,
        path: &str,
        log_path: &str,
    ) -> io::Result<HostFiles>
        ensures { IfOk result (λ files. files.name ≡ name) }
    {
        let (data, log) = (open_present(rt, path)?, open_present(rt, log_path)?);
        let (makes_data, makes_log) = (data.is_none(), log.is_none());
        let on_data = or_made(rt, path, data)?;
        lock(rt, path, &on_data)?;
        let on_log = match or_made(rt, log_path, log) {
            Ok(file) => file,
            Err(error) => {
                if makes_data {
                    fs::remove_file(rt, path)?;
                }
                return Err(error);
            }
        };
        on_data.sync_all()?;
        on_log.sync_all()?;
        if makes_data || makes_log {
            sync_folder(rt, path)?;
        }
        Ok(HostFiles {
            name,
            on_data,
            on_log,
        })
    }

    fn file(&self, which: Which) -> &File {
        match which {
            Which::Data => &self.on_data,
            Which::Log => &self.on_log,
        }
    }

    pub(crate) fn length(&self, which: Which) -> io::Result<u64> {
        Ok(self.file(which).metadata()?.len())
    }

    pub(crate) fn read_at(&self, which: Which, at: u64, out: &mut [u8]) -> io::Result<()> {
        self.file(which).read_exact_at(out, at)
    }

    pub(crate) fn write_at(&self, which: Which, at: u64, piece: &[u8]) -> io::Result<()> {
        self.file(which).write_all_at(piece, at)
    }

    pub(crate) fn cut(&self, which: Which, to: u64) -> io::Result<()> {
        self.file(which).set_len(to)
    }

    /// Brings the bytes and the length to the disk.
    pub(crate) fn sync(&self, which: Which) -> io::Result<()> {
        self.file(which).sync_data()
    }
}
