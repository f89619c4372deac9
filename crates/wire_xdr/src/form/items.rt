ghost use Rattle.std.specs.Prelude.{◌≡◌, ◌==◌, ◌^◌, ◌-◌, ◌∷◌, [], ◌++◌, List, length, IfOk, OnOk, OnErr};
ghost use Rattle.std.specs.List.{flat_map, AllByRecursion};
ghost use Rattle.wire_xdr.specs.Cursor.{Appends};
ghost use Rattle.wire_xdr.specs.Parts.{many, list_read, list_spell, list_Fits};
ghost use Rattle.wire_xdr.specs.Reads.{Reads};

use crate::form::bad::ReadError;
use crate::form::words::parse_count;
use crate::form::xdr::Xdr;
use crate::reader::Reader;
use crate::writer::Writer;
use outcome::Mem;
use std::alloc::Global;
use std::marker::Model;

/// A list of values, as it stands behind its count (RFC 4506 section 4.13). Contracts see the list.
#[derive(Drop)]
pub struct Items<T> {
    items: Vec<T>,
}

impl<T> Model for Items<T> {
    ghost Value = { List T };

    ghost view = { λ l. l.items.items };
}

impl<T> Items<T> {
    /// An empty list.
    pub fn new(alloc: Global) -> Items<T>
        ensures { result ≡ [] }
    {
        Items {
            items: Vec::new(alloc),
        }
    }

    /// The values of a `Vec`, which it takes over without copying.
    pub fn from_vec(items: Vec<T>) -> Items<T>
        ensures { result ≡ items.items }
    {
        Items { items }
    }

    /// The values by themselves, which this gives up without copying: so what they hold may be moved on.
    pub fn into_vec(self) -> Vec<T>
        ensures { result.items ≡ self }
    {
        let Items { items } = self;
        items
    }

    /// The values, lent.
    pub fn as_slice(&self) -> &[T]
        ensures { result.now ≡ self.now }
    {
        self.items.as_slice()
    }

    /// How many values there are.
    pub fn len(&self) -> usize
        ensures { result ≡ length self.now }
    {
        self.items.len()
    }

    /// Whether there are none.
    pub fn is_empty(&self) -> bool
        ensures { result ≡ (length self.now == 0) }
    {
        self.items.is_empty()
    }
}

impl<T: Drop> Items<T> {
    /// Adds a value at the end. Without memory the list is as it was, and the value is dropped.
    pub fn push(&mut self, value: T) -> Mem<()>
        ensures ok { OnOk result (self.new ≡ self.old ++ value ∷ []) }
        ensures err { OnErr result (self.new ≡ self.old) }
    {
        self.items.push(value)?;
        Ok(())
    }
}

impl<T: Xdr> Items<T> {
    /// Reads a list of at most `max` values: the form `list max`.
    #[tactic(auto, unfolding(crate::specs::Parts::list_read))]
    pub fn parse(alloc: Global, reader: &mut Reader, max: u32) -> Result<Items<T>, ReadError>
        ensures { Reads result reader.new (list_read max T.form reader.old) }
    {
        let count = parse_count(reader, max)?;
        parse_many(alloc, reader, count)
    }

    /// Writes the values behind their count. Without memory a part may be written.
    #[tactic(auto, unfolding(crate::specs::Parts::list_spell))]
    pub fn put(&self, writer: &mut Writer) -> Mem<()>
        requires { list_Fits (2 ^ 32 - 1) T.form self.now }
        ensures { OnOk result (Appends writer.old (list_spell T.form self.now) writer.new) }
    {
        writer.u32(self.items.len() as u32)?;
        put_many(&self.items, writer)
    }
}

/// That many values.
fn parse_many<T: Xdr>(alloc: Global, reader: &mut Reader, count: u32) -> Result<Items<T>, ReadError>
    ensures { Reads result reader.new (many T.form count reader.old) }
{
    let mut items = Vec::new(alloc);
    for _ in 0..count {
        items.push(T::parse(alloc, reader)?)?;
    }
    Ok(Items { items })
}

/// One value after the other.
fn put_many<T: Xdr>(items: &[T], writer: &mut Writer) -> Mem<()>
    requires { AllByRecursion T.form.Fits items.now }
    ensures { OnOk result (Appends writer.old (flat_map T.form.spell items.now) writer.new) }
{
    for item in items {
        item.put(writer)?;
    }
    Ok(())
}
