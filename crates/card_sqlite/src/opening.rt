// The file at a path before it is opened: whether it is made where it is missing, whether one without a byte is new, and for how
// long one that is in use is waited for. What the system answers stands in no clause.
use sqlite::{Connection, Error, ErrorCode, File, FileStore};
use std::fs::{self, OpenOptions};
use std::io::{self, ErrorKind};
use std::os::unix::fs::OpenOptionsExt;
use std::rt::HostRuntime;
use std::thread::sleep;
use std::time::Duration;

// A file that another process has is tried again so many times, this long after the time before: for five seconds.
const RETRIES: u32 = 50;

const RETRY_MILLIS: u64 = 100;

// A new file is read and written by its owner alone. Its log gets the mode of the file.
const OWNER_ALONE: u32 = 0o600;

// The most that the log holds before the first page of a new file is written, and where in it stands how often the log was joined to
// the file, the greatest number before the first time.
const NEW_LOG: u64 = 41;

const JOINED: [usize; 2] = [12, 16];

const NEVER: [u8; 4] = [255; 4];

const CANNOT_OPEN: Error = Error::SqliteFailure(ErrorCode::CannotOpen);

const NO_MEMORY: Error = Error::SqliteFailure(ErrorCode::OutOfMemory);

// What a keeper does where its file is missing, or new.
#[derive(Clone, Copy, Drop)]
pub(crate) enum Missing {
    IsMade,
    IsRefused,
}

fn error_of(error: io::Error) -> Error {
    match error.kind() {
        ErrorKind::OutOfMemory => NO_MEMORY,
        _ => CANNOT_OPEN,
    }
}

// Whether SQLite reads this as something else than the name of a file.
fn is_no_file_name(path: &str) -> bool {
    path == ":memory:" || path.starts_with("file:")
}

// Makes the file where nothing has its name.
fn make(rt: &HostRuntime, path: &str) -> Result<(), Error> {
    let made = OpenOptions::new()
        .read(true)
        .write(true)
        .create_new(true)
        .mode(OWNER_ALONE)
        .open(rt, path);
    match made {
        Ok(_) => Ok(()),
        Err(error) if error.kind() == ErrorKind::AlreadyExists => Ok(()),
        Err(error) => Err(error_of(error)),
    }
}

fn was_never_joined(log: &[u8]) -> bool {
    let [from, to] = JOINED;
    match log.get(from..to) {
        Some(joined) => joined == NEVER.as_slice(),
        None => true,
    }
}

// Whether the log at this path is missing, or one that was begun beside a new file.
fn is_new_log(rt: &HostRuntime, log: &str) -> Result<bool, Error> {
    let found = match fs::symlink_metadata(rt, log) {
        Ok(found) => found,
        Err(error) if error.kind() == ErrorKind::NotFound => return Ok(true),
        Err(error) => return Err(error_of(error)),
    };
    if !found.is_file() || found.len() > NEW_LOG {
        return Ok(false);
    }
    match fs::read(rt, log) {
        Ok(bytes) => Ok(was_never_joined(&bytes)),
        Err(error) => Err(error_of(error)),
    }
}

// Whether a file without a byte is new. One whose log was written for a file with bytes was cut.
fn is_new(rt: &HostRuntime, path: &str) -> Result<bool, Error> {
    let real = match fs::canonicalize(rt, path) {
        Ok(real) => real,
        Err(error) => return Err(error_of(error)),
    };
    match format!(in rt.alloc(); "{}-wal", real.as_str()) {
        Ok(log) => is_new_log(rt, log.as_str()),
        Err(_) => Err(NO_MEMORY),
    }
}

// Whether the file holds a byte.
fn holds_bytes(rt: &HostRuntime, path: &str) -> Result<bool, Error> {
    match fs::metadata(rt, path) {
        Ok(found) => Ok(found.len() > 0),
        Err(error) => Err(error_of(error)),
    }
}

// Makes the file, where it is to be made, and refuses one that isn't there or has lost its bytes.
fn prepare(rt: &HostRuntime, path: &str, missing: Missing) -> Result<(), Error> {
    if is_no_file_name(path) {
        return Err(CANNOT_OPEN);
    }
    if matches!(missing, Missing::IsMade) {
        make(rt, path)?;
    }
    if holds_bytes(rt, path)? {
        return Ok(());
    }
    let may_be_made = match missing {
        Missing::IsMade => is_new(rt, path)?,
        Missing::IsRefused => false,
    };
    if may_be_made {
        Ok(())
    } else {
        Err(CANNOT_OPEN)
    }
}

// Opens the file. While another process has it, it is tried again.
pub(crate) fn open(
    rt: &HostRuntime,
    path: &str,
    missing: Missing,
) -> Result<Connection<FileStore<File>>, Error> {
    prepare(rt, path, missing)?;
    for _ in 0..RETRIES {
        match Connection::open(rt, path) {
            Err(Error::SqliteFailure(ErrorCode::DatabaseBusy)) => {
                sleep(rt, Duration::from_millis(RETRY_MILLIS));
            }
            opened => return opened,
        }
    }
    Connection::open(rt, path)
}
