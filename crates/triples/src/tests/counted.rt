//! What `Counted` passes to its reader or writer, and what it passes back.

use super::faulty::Faulty;
use crate::counted::Counted;
use std::io::ErrorKind;

/// All kinds of errors.
#[rattlefmt::skip]
pub(super) const KINDS: [ErrorKind; 42] = [
    ErrorKind::NotFound, ErrorKind::PermissionDenied, ErrorKind::ConnectionRefused, ErrorKind::ConnectionReset,
    ErrorKind::HostUnreachable, ErrorKind::NetworkUnreachable, ErrorKind::ConnectionAborted, ErrorKind::NotConnected,
    ErrorKind::AddrInUse, ErrorKind::AddrNotAvailable, ErrorKind::NetworkDown, ErrorKind::BrokenPipe,
    ErrorKind::AlreadyExists, ErrorKind::WouldBlock, ErrorKind::NotADirectory, ErrorKind::IsADirectory,
    ErrorKind::DirectoryNotEmpty, ErrorKind::ReadOnlyFilesystem, ErrorKind::FilesystemLoop,
    ErrorKind::StaleNetworkFileHandle, ErrorKind::InvalidInput, ErrorKind::InvalidData, ErrorKind::TimedOut,
    ErrorKind::WriteZero, ErrorKind::StorageFull, ErrorKind::NotSeekable, ErrorKind::QuotaExceeded,
    ErrorKind::FileTooLarge, ErrorKind::ResourceBusy, ErrorKind::ExecutableFileBusy, ErrorKind::Deadlock,
    ErrorKind::CrossesDevices, ErrorKind::TooManyLinks, ErrorKind::InvalidFilename, ErrorKind::ArgumentListTooLong,
    ErrorKind::Interrupted, ErrorKind::Unsupported, ErrorKind::UnexpectedEof, ErrorKind::OutOfMemory,
    ErrorKind::InProgress, ErrorKind::Other, ErrorKind::Uncategorized,
];

#[test]
fn each_kind_of_error_is_passed_back(rt: HostRuntime) {
    for kind in KINDS {
        let mut device = Faulty::new(rt.alloc(), b"", 0, Some(kind));
        device.flush = Err(kind);
        let mut device = Counted::new(device);
        let mut reader = Counted::new(Faulty::new(rt.alloc(), b"a", 0, Some(kind)));
        let is_passed_back = matches!(device.flush(), Err(error) if error.kind() == kind)
            && matches!(device.write(b"a"), Err(error) if error.kind() == kind)
            && matches!(reader.read(&mut [0u8; 4]), Err(error) if error.kind() == kind);
        let calls = (device.into_inner().calls, reader.into_inner().calls);
        assert!(rt; is_passed_back && calls == (1, 1), "{kind:?}");
    }
}

/// A prime number of bytes, of which neighbours differ.
const LETTERS: &str = "abcdefghijklmnopqrstuvwxyzABCDEFGHIJKLMNOPQRSTUVWXYZ.";

/// A piece is passed on whole, by one write, and a read has all the room. There are no bytes, and lengths around those
/// of usual buffers.
#[test]
fn a_piece_of_any_length_is_passed_on_whole(rt: HostRuntime) {
    let Ok(letters) = LETTERS.repeat(rt.alloc(), 6000) else {
        panic!(rt; "out of memory");
    };
    for length in [0, 53, 4097, 65537, 300_000] {
        let Some(piece) = letters.as_bytes().get(..length) else {
            panic!(rt; "{length}");
        };
        let mut writer = Counted::new(Faulty::sound(rt.alloc(), b""));
        let taken = writer.write(piece).unwrap_or(usize::MAX);
        let writer = writer.into_inner();
        let is_passed_on = (taken, writer.calls) == (length, 1) && writer.kept.as_slice() == piece;
        let Ok(mut room) = vec![in rt.alloc(); 0u8; length] else {
            panic!(rt; "out of memory");
        };
        let mut reader = Counted::new(Faulty::sound(rt.alloc(), letters.as_bytes()));
        let given = reader.read(&mut room).unwrap_or(usize::MAX);
        let has_all = (given, reader.into_inner().calls) == (length, 1) && room.as_slice() == piece;
        assert!(rt; is_passed_on && has_all, "{length}");
    }
}
