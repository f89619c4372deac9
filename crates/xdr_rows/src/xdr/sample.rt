//! The example of RFC 4506 section 7, and a few types more: how types are read and written by the forms
//! that `specs/Samples.antt` gives them.

ghost use Rattle.xdr_rows.specs.Samples.{file_kind, file, folder, outcome, request, request_number, request_own};

use outcome::Mem;
use std::alloc::Global;
use wire_xdr::{Items, Octets, ReadError, Reader, Writer, Xdr, XdrBy};

/// What a file is, a union with a tag: any other tag is refused.
#[derive(Drop)]
pub enum FileKind {
    Text,
    Data(Octets),
    Exec(Octets),
}

impl Xdr for FileKind {
    ghost form = { file_kind };

    #[tactic(auto, unfolding(crate::specs::Samples::file_kind))]
    fn parse(alloc: Global, reader: &mut Reader) -> Result<FileKind, ReadError> {
        let start = reader.at();
        match u32::parse(alloc, reader)? {
            0 => Ok(FileKind::Text),
            1 => Ok(FileKind::Data(Octets::parse(alloc, reader, 255)?)),
            2 => Ok(FileKind::Exec(Octets::parse(alloc, reader, 255)?)),
            _ => Err(ReadError::at(start)),
        }
    }

    #[tactic(auto, unfolding(crate::specs::Samples::file_kind))]
    fn put(&self, writer: &mut Writer) -> Mem<()> {
        match self {
            FileKind::Text => {
                0u32.put(writer)?;
                writer.void()
            }
            FileKind::Data(creator) => {
                1u32.put(writer)?;
                creator.put(writer)
            }
            FileKind::Exec(interpreter) => {
                2u32.put(writer)?;
                interpreter.put(writer)
            }
        }
    }
}

/// A file, a struct.
#[derive(Drop)]
pub struct File {
    pub name: Octets,
    pub kind: FileKind,
    pub owner: Octets,
    pub content: Octets,
}

impl Xdr for File {
    ghost form = { file };

    #[tactic(auto, unfolding(crate::specs::Samples::file))]
    fn parse(alloc: Global, reader: &mut Reader) -> Result<File, ReadError> {
        Ok(File {
            name: Octets::parse(alloc, reader, 255)?,
            kind: FileKind::parse(alloc, reader)?,
            owner: Octets::parse(alloc, reader, 32)?,
            content: Octets::parse(alloc, reader, 65535)?,
        })
    }

    #[tactic(auto, unfolding(crate::specs::Samples::file))]
    fn put(&self, writer: &mut Writer) -> Mem<()> {
        self.name.put(writer)?;
        self.kind.put(writer)?;
        self.owner.put(writer)?;
        self.content.put(writer)
    }
}

/// A folder: bytes of a fixed number, a list with a limit and a value that may be missing.
#[derive(Drop)]
pub struct Folder {
    pub id: [u8; 8],
    pub files: Items<File>,
    pub parent: Option<u64>,
}

impl Xdr for Folder {
    ghost form = { folder };

    #[tactic(auto, unfolding(crate::specs::Samples::folder))]
    fn parse(alloc: Global, reader: &mut Reader) -> Result<Folder, ReadError> {
        Ok(Folder {
            id: <[u8; 8]>::parse(alloc, reader)?,
            files: Items::parse(alloc, reader, 2)?,
            parent: Option::parse(alloc, reader)?,
        })
    }

    #[tactic(auto, unfolding(crate::specs::Samples::folder))]
    fn put(&self, writer: &mut Writer) -> Mem<()> {
        self.id.put(writer)?;
        self.files.put(writer)?;
        self.parent.put(writer)
    }
}

/// A result, a union with a default arm: what was done on 0, and else nothing but the number.
#[derive(Drop)]
pub enum Outcome {
    Done(Folder),
    Refused(u32),
}

impl Xdr for Outcome {
    ghost form = { outcome };

    #[tactic(auto, unfolding(crate::specs::Samples::outcome))]
    fn parse(alloc: Global, reader: &mut Reader) -> Result<Outcome, ReadError> {
        match u32::parse(alloc, reader)? {
            0 => Ok(Outcome::Done(Folder::parse(alloc, reader)?)),
            number => Ok(Outcome::Refused(number)),
        }
    }

    #[tactic(auto, unfolding(crate::specs::Samples::outcome))]
    fn put(&self, writer: &mut Writer) -> Mem<()> {
        match self {
            Outcome::Done(folder) => {
                0u32.put(writer)?;
                folder.put(writer)
            }
            Outcome::Refused(number) => {
                number.put(writer)?;
                writer.void()
            }
        }
    }
}

/// A request, by the number of its operation, which stands elsewhere.
#[derive(Drop)]
pub enum Request {
    Store(File),
    List { id: u64, at_most: u32 },
}

impl XdrBy for Request {
    ghost form = { request };

    ghost number_of = { request_number };

    #[tactic(auto, unfolding(crate::specs::Samples::request))]
    fn parse_by(alloc: Global, number: u32, reader: &mut Reader) -> Result<Request, ReadError> {
        match number {
            7 => Ok(Request::Store(File::parse(alloc, reader)?)),
            9 => {
                let (id, at_most) = <(u64, u32)>::parse(alloc, reader)?;
                Ok(Request::List { id, at_most })
            }
            _ => Err(ReadError::at(reader.at())),
        }
    }

    #[tactic(auto, unfolding(crate::specs::Samples::request))]
    fn put_by(&self, writer: &mut Writer) -> Mem<()> {
        match self {
            Request::Store(file) => file.put(writer),
            Request::List { id, at_most } => (*id, *at_most).put(writer),
        }
    }

    ghost own = { request_own };
}
