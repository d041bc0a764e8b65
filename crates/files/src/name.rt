ghost use Rattle.std.specs.Prelude.{◌≡◌, ◌++◌, IfOk};

use paths::path::path_with;
use std::io;
use std::io::{Error, ErrorKind};

// Room for a name beside a file's. A path that the system takes has fewer than 4,096 bytes.
pub const NAME_SPACE: usize = 4160;

// A name beside a file's, with this suffix. Where it doesn't fit it is too long for the system, and no file has it. The space is the
// caller's array, and no `String`: an allocation could fail where nothing did.
pub fn name_beside<'a>(
    path: &str,
    suffix: &str,
    space: &'a mut [u8; NAME_SPACE],
) -> io::Result<&'a str>
    ensures { IfOk result (λ name. name.now ≡ path.now ++ suffix.now) }
{
    let beside = path_with(path.as_bytes(), suffix.as_bytes(), space).ok_or(
        ErrorKind::InvalidFilename,
    )?;
    std::str::from_utf8(beside).map_err(|_| Error::from(ErrorKind::InvalidFilename))
}

// Whether the error says that there is no such file. Where its name is too long there is none.
pub fn is_absent(error: &Error) -> bool {
    matches!(
        error.kind(),
        ErrorKind::NotFound | ErrorKind::InvalidFilename
    )
}

// Whether it says that the file goes on past the memory lent. The system's own error of that kind is another.
pub fn is_too_long(error: &Error) -> bool {
    error.kind() == ErrorKind::FileTooLarge && error.raw_os_error().is_none()
}
