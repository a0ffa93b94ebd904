//! Libraries.

ghost use Rattle.std.specs.Prelude.{◌≡◌, map, IfOk};
ghost use Rattle.std.specs.Option.{option_map};
ghost use Rattle.implib_read.specs.Archives.{archive_in};
ghost use Rattle.implib_read.specs.ArchiveViews.{archive_view, member_view};
ghost use Rattle.implib_read.specs.Classes.{files_of, library_in, member_read, members_read};
ghost use Rattle.implib_read.specs.ClassViews.{member_read_view};
ghost use Rattle.implib_read.specs.FileViews.{file_view};
ghost use Rattle.implib_read.specs.FollowingViews.{places_of};

use crate::archive::{Archive, StoredMember};
use crate::class::{MemberRead, class_of_file};
use crate::definers::definers_of;
use crate::file::FileFound;
use crate::follow::Definers;
use std::alloc::{AllocError, Global};

/// A library: its archive, and what each member is for, in order.
#[derive(Drop)]
pub struct Library<'a> {
    pub archive: Archive<'a>,
    pub members: Vec<MemberRead<'a>>,
}

/// The files of members.
pub(crate) fn files_of<'a>(
    alloc: Global,
    members: &[StoredMember<'a>],
) -> Result<Vec<FileFound<'a>>, AllocError>
    ensures { IfOk result (λ v. map file_view v.items ≡ files_of (map member_view members.now)) }
{
    let mut files = Vec::new(alloc);
    for member in members {
        files.push(FileFound::read(alloc, member.bytes)?)?;
    }
    Ok(files)
}

/// What each member is for, given its file, and where the externals of the files are defined.
fn classes_of<'o, 'a>(
    alloc: Global,
    definers: &Definers<'o, 'a>,
    members: &[StoredMember<'a>],
    files: &'o [FileFound<'a>],
) -> Result<Vec<MemberRead<'a>>, AllocError>
    requires { map file_view files.now ≡ files_of (map member_view members.now) }
    ensures { IfOk result (λ v. map member_read_view v.items
        ≡ map (member_read (places_of definers.now)) (map member_view members.now)) }
{
    let mut read = Vec::new(alloc);
    for i in 0..members.len() {
        let member = members[i];
        let class = class_of_file(alloc, definers, &files[i])?;
        read.push(MemberRead {
            name: member.name,
            offset: member.offset,
            class,
        })?;
    }
    Ok(read)
}

/// What each member is for, among all of them.
#[tactic(auto, unfolding(crate::specs::Classes::members_read))]
fn members_read<'a>(
    alloc: Global,
    members: &[StoredMember<'a>],
) -> Result<Vec<MemberRead<'a>>, AllocError>
    ensures { IfOk result (λ v. map member_read_view v.items
        ≡ members_read (map member_view members.now)) }
{
    let files = files_of(alloc, members)?;
    let definers = definers_of(alloc, &files)?;
    classes_of(alloc, &definers, members, &files)
}

impl<'a> Library<'a> {
    /// The library that the bytes are, or `None` where they are no archive.
    #[tactic(auto, unfolding(crate::specs::Archives::archive_in, crate::specs::Classes::library_in))]
    pub fn read(alloc: Global, bytes: &'a [u8]) -> Result<Option<Library<'a>>, AllocError>
        ensures archive { IfOk result (λ found. option_map (λ l. archive_view l.archive) found
            ≡ archive_in bytes.now) }
        ensures members { IfOk result
            (λ found. option_map (λ l. map member_read_view l.members.items) found
            ≡ library_in bytes.now) }
    {
        let archive = Archive::read(alloc, bytes)?;
        let Some(archive) = archive else {
            return Ok(None);
        };
        let members = members_read(alloc, &archive.members)?;
        Ok(Some(Library { archive, members }))
    }
}
