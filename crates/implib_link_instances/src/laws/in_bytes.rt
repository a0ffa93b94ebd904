//! Searches in the bytes of archives, and the whole way from them to a call.

ghost use Rattle.implib_link_instances.specs.Archives.Files.{WorkedFileLines, WorkedFiles};
ghost use Rattle.implib_link_instances.specs.Archives.WorkedWays.{WorkedBothWay, WorkedLldWay};

/// The members in the bytes of archives that GNU `ar` wrote, and of libraries of llvm-dlltool 19;
/// command lines of these files, by lld to its program and by GNU `ld`.
///
/// The way for lld by hand, of a program that lld wrote: from the bytes of the archive of foo.dll's
/// short imports to two calls that arrive at what foo.dll gives for `bar`.
///
/// The whole way by hand for libraries of both flavours: from the bytes of an archive to a call of
/// each flavour's import, which arrive at what their DLLs give.
pub fn worked_in_bytes()
    ensures worked_files { WorkedFiles }
    ensures worked_file_lines { WorkedFileLines }
    ensures worked_lld_way { WorkedLldWay }
    ensures way { WorkedBothWay }
{}
