//! The long names, and the names in headers.

ghost use Rattle.implib_archive.specs.Archive.{is_long, long_names, member_label, member_part};
ghost use Rattle.implib_archive.specs.Archive.{name_end, names_bytes, offset_of, with_name};
ghost use Rattle.implib_archive.specs.Parts.{header_bytes};
ghost use Rattle.implib_archive.specs.Pushed.{AreMeasured, Pushes, label_view, shown};
ghost use Rattle.implib_archive.specs.Sources.{member_at};
ghost use Rattle.implib_archive.specs.declared.kind.Kind.{Kind};
ghost use Rattle.std.specs.Prelude.{◌≡◌, ◌++◌, ◌<◌, ◌≤◌, ℕ, List, IfOk, OnOk, codes, length};
ghost use Rattle.std.specs.Prelude.{unwrap_or};

use crate::bytes::{Label, Texts, push_header, push_padding};
use crate::front::push_ended;
use crate::kind::Kind;
use crate::source::{Members, Source};
use indexmap::IndexMap;
use itoa::Buffer;
use std::alloc::{AllocError, Global};

/// The long names of an archive, each once, with their offsets, and the size of their data; exact
/// below 2^32.
#[derive(Drop)]
pub struct LongNames<'a> {
    pub offsets: IndexMap<&'a str, u64>,
    pub size: u64,
}

impl<'a> LongNames<'a> {
    /// The long names of the members.
    pub fn of<S: Source<'a>>(
        alloc: Global,
        source: &S,
        kind: Kind,
    ) -> Result<LongNames<'a>, AllocError>
        ensures { IfOk result (λ names. AreMeasured kind (long_names kind (S.members source.now))
            (shown names.offsets.entries) names.size) }
    {
        let mut names = LongNames {
            offsets: IndexMap::new(alloc),
            size: 0,
        };
        for index in 0..source.count() {
            names.add(source.name(index), kind)?;
        }
        Ok(names)
    }

    // Adds a name, if it is long and not among them, unless they are too long already.
    fn add(&mut self, name: &'a str, kind: Kind) -> Result<(), AllocError>
        ensures { OnOk result ((names : List (List ℕ × ℕ))
            → AreMeasured kind names (shown self.old.offsets.entries) self.old.size
            → AreMeasured kind (with_name kind names name.now)
            (shown self.new.offsets.entries) self.new.size) }
    {
        if self.size > u32::MAX as u64 {
            return Ok(());
        }
        if !is_long(name.as_bytes()) {
            return Ok(());
        }
        if self.offsets.contains_key(name) {
            return Ok(());
        }
        self.offsets.insert(name, self.size)?;
        self.size += (name.len() + name_end(kind).len()) as u64;
        Ok(())
    }

    // Appends the long names, each with its end.
    pub(crate) fn push_names(&self, out: &mut Vec<u8>, kind: Kind) -> Result<(), AllocError>
        ensures { OnOk result (Pushes out.old.items out.new.items
            (names_bytes kind (shown self.now.offsets.entries))) }
    {
        for (name, _) in self.offsets.iter() {
            push_ended(out, name, name_end(kind))?;
        }
        Ok(())
    }

    // The offset of a long name.
    fn offset_of(&self, name: &str) -> u64
        ensures { result ≡ unwrap_or (offset_of (shown self.now.offsets.entries) name.now) 0 }
    {
        match self.offsets.get(name) {
            Some(offset) => *offset,
            None => 0,
        }
    }

    // Appends the header of a member with this name and size.
    pub(crate) fn push_member_header(
        &self,
        out: &mut Vec<u8>,
        name: &str,
        size: usize,
    ) -> Result<(), AllocError>
        ensures { OnOk result (Pushes out.old.items out.new.items
            (header_bytes (member_label (shown self.now.offsets.entries) name.now) size)) }
    {
        let mut digits = Buffer::new();
        if is_long(name.as_bytes()) {
            let offset = digits.format(self.offset_of(name)).as_bytes();
            push_header(out, &label_of(b"/", offset), size)
        } else {
            push_header(out, &label_of(name.as_bytes(), b"/"), size)
        }
    }
}

// Whether a header cannot have the name in its field.
#[tactic(auto, unfolding(crate::specs::Archive::is_long))]
fn is_long(name: &[u8]) -> bool
    ensures { result ≡ is_long name.now }
{
    if name.len() > 15 {
        return true;
    }
    name.contains(&b'/')
}

// What ends a long name.
#[tactic(auto, unfolding(crate::specs::Archive::name_end))]
pub(crate) fn name_end(kind: Kind) -> &'static [u8]
    ensures value { result.now ≡ name_end kind }
    ensures short { length result.now ≤ 2 }
{
    match kind {
        Kind::Coff => b"\0",
        Kind::Gnu => b"/\n",
    }
}

// The texts in the header of a member, whose name is in two pieces.
fn label_of<'b>(name: &'b [u8], name_end: &'b [u8]) -> Label<'b>
    ensures { label_view result ≡ record {
      name = name.now ++ name_end.now;
      date = codes "0";
      owner = codes "0";
      mode = codes "644";
    } }
{
    Label {
        name,
        name_end,
        texts: Texts::Member,
    }
}
