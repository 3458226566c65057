ghost use Rattle.file_store.specs.Laws.{OtherFilesStay, FilesAreThere, WrittenFileIsHeld, WrittenBytesAreRead, ReadsAreShort};

/// A law: other bytes in one file leave every other file's bytes as they are, and so do a new file and a
/// file that goes.
pub fn other_files_stay()
    ensures { OtherFilesStay }
{}

/// A law: a file is there once it is made, also with other bytes, and until it goes.
pub fn files_are_there()
    ensures { FilesAreThere }
{}

/// A law: a file that is there and is given other bytes has these.
pub fn written_file_is_held()
    ensures { WrittenFileIsHeld }
{}

/// A law: a read of the range of a write gives the bytes that were written.
pub fn written_bytes_are_read()
    ensures { WrittenBytesAreRead }
{}

/// A law: a read gives at most as many bytes as were asked.
pub fn reads_are_short()
    ensures { ReadsAreShort }
{}
