//! GETATTR (RFC 8881 section 18.7).

ghost use Rattle.std.specs.Prelude.{◌≡◌, ◌+◌, ◌≤◌, ◌<◌, ◌++◌, length, if◌then◌else◌, Ok};
ghost use Rattle.wire_xdr.specs.Forms.{word};
ghost use Rattle.wire_xdr.specs.Page.{Added};
ghost use Rattle.wire_xdr.specs.Parts.{list_spell};
ghost use Rattle.wire_xdr.specs.Words.{word_bytes, hyper_bytes, opaque_bytes};
ghost use Rattle.file_server.specs.declared.attributes.FileAttributes.{FileAttributes};
ghost use Rattle.file_server.specs.Machine.{Does};
ghost use Rattle.file_server.specs.Answering.{Ready, Keeps, Says, AsksOnce, going_of};
ghost use Rattle.file_server.specs.Attributes.{get_attributes, attributes_file, attributes_at, first_word, wants, served, mask_words, bytes_if, values_of};

use crate::extension::{Ask, Caller, Extension, Gate};
use crate::files::Files;
use crate::progress::Progress;
use disk_model::Disk;
use file_ops::{ATTR_CHANGE, ATTR_LEASE_TIME, ATTR_SIZE, ATTR_TYPE, OP_GETATTR};
use nfs_base::{LEASE_SECONDS, Status};
use wire_xdr::Page;

/// The bits of all attributes that are served.
pub const ATTRS_SERVED: u32 = ATTR_TYPE | ATTR_CHANGE | ATTR_SIZE | ATTR_LEASE_TIME;

/// The type of a file that holds bytes, NF4REG.
pub const TYPE_FILE: u32 = 1;

/// The type of a directory, NF4DIR.
pub const TYPE_DIRECTORY: u32 = 2;

/// What GETATTR can tell of a file.
#[derive(Clone, Copy)]
pub struct FileAttributes {
    /// Its type (nfs_ftype4).
    pub kind: u32,

    /// Its change attribute.
    pub change: u64,

    /// Its size in bytes.
    pub size: u64,
}

impl<D: Disk, X> Files<D, X> {
    /// GETATTR: tells the type, the change attribute, the size and the lease time of the current file, each where its
    /// bit is asked for, once the server's extension lets it on.
    #[tactic(auto, unfolding(crate::specs::Attributes::get_attributes, file_ops::specs::Results::file_res, nfs_base::specs::Forms::answer, wire_xdr::specs::Words::word_bytes))]
    pub fn get_attributes<P>(
        &mut self,
        caller: &Caller,
        carry: &P,
        asked: &[u32],
        p: &mut Progress,
    ) -> Status
    where
        X: Extension<P>,
        requires { Ready p.old 1 }
        ensures does { Does (λ choice. get_attributes (record { gate = X.gated }) caller.now carry.now asked.now (going_of D.size self.old p.old)) p.old.page.bytes (going_of D.size self.new p.new) p.new.page.bytes result.number }
        ensures keeps { Keeps p.old p.new }
        ensures used { p.new.used ≡ p.old.used }
        ensures volume { self.new.volume ≡ self.old.volume }
        ensures opens { self.new.opens ≡ self.old.opens }
        ensures asked { AsksOnce X.gated self.old.extra caller.now carry.now self.new.extra }
    {
        match self.current_file(&p.held.current) {
            Err(status) => p.refuse(OP_GETATTR, status),
            Ok(file) => self.attributes_file(caller, carry, first_word(asked), file, p),
        }
    }

    #[tactic(auto, unfolding(file_ops::specs::Results::file_res, file_ops::specs::Files::attributes, nfs_base::specs::Forms::answer, wire_xdr::specs::Words::word_bytes))]
    fn attributes_file<P>(
        &mut self,
        caller: &Caller,
        carry: &P,
        mask: u32,
        file: u32,
        p: &mut Progress,
    ) -> Status
    where
        X: Extension<P>,
        requires ready { Ready p.old 1 }
        requires there { file < length self.old.volume.volume.files }
        ensures does { Does (λ choice. attributes_file (record { gate = X.gated }) caller.now carry.now mask (Ok file) (going_of D.size self.old p.old)) p.old.page.bytes (going_of D.size self.new p.new) p.new.page.bytes result.number }
        ensures keeps { Keeps p.old p.new }
        ensures used { p.new.used ≡ p.old.used }
        ensures volume { self.new.volume ≡ self.old.volume }
        ensures opens { self.new.opens ≡ self.old.opens }
        ensures asked { AsksOnce X.gated self.old.extra caller.now carry.now self.new.extra }
    {
        match self.extra.gate(caller, carry, &Ask::Attributes { file }) {
            Gate::Refuse(status) => p.refuse(OP_GETATTR, status),
            Gate::Serve => p.say_attributes(mask, &self.attributes_at(file)),
            Gate::Usual => p.say_attributes(mask, &self.attributes_at(file)),
        }
    }

    fn attributes_at(&self, file: u32) -> FileAttributes
        requires { file < length self.now.volume.volume.files }
        ensures { result ≡ attributes_at self.now.volume.volume file }
    {
        if file == 0 {
            return FileAttributes {
                kind: TYPE_DIRECTORY,
                change: 0,
                size: 0,
            };
        }
        let info = self.volume.file(file);
        FileAttributes {
            kind: TYPE_FILE,
            change: info.change,
            size: info.size,
        }
    }
}

impl Progress {
    /// GETATTR is done: these attributes of a file, of which those in the mask are told.
    fn say_attributes(&mut self, mask: u32, told: &FileAttributes) -> Status
        requires { length self.old.page.bytes + 44 ≤ self.old.page.room }
        ensures says { Says self.old (word_bytes OP_GETATTR ++ (word_bytes 0 ++ (list_spell word (mask_words (served mask)) ++ opaque_bytes (values_of mask told.now)))) self.new }
        ensures len { length self.new.page.bytes ≤ length self.old.page.bytes + 44 }
        ensures status { result ≡ Status.OK }
    {
        self.page.u32(OP_GETATTR);
        self.page.u32(0);
        put_mask(&mut self.page, mask & ATTRS_SERVED);
        put_opaque_values(&mut self.page, mask, told);
        Status::OK
    }
}

/// A bitmap of one word, or of none where no bit is set.
#[tactic(auto, unfolding(wire_xdr::specs::Parts::list_spell, wire_xdr::specs::Words::word_bytes))]
fn put_mask(page: &mut Page, mask: u32)
    requires { length page.old.bytes + 8 ≤ page.old.room }
    ensures added { Added page.old (list_spell word (mask_words mask)) page.new }
    ensures len { length page.new.bytes ≤ length page.old.bytes + 8 }
{
    if mask == 0 {
        page.u32(0);
    } else {
        page.u32(1);
        page.u32(mask);
    }
}

/// The values that are asked for, behind their length. They have no padding.
fn put_opaque_values(page: &mut Page, mask: u32, told: &FileAttributes)
    requires { length page.old.bytes + 28 ≤ page.old.room }
    ensures added { Added page.old (opaque_bytes (values_of mask told.now)) page.new }
    ensures len { length page.new.bytes ≤ length page.old.bytes + 28 }
{
    put_values(page, mask, told);
}

fn put_values(page: &mut Page, mask: u32, told: &FileAttributes)
    requires { length page.old.bytes + 28 ≤ page.old.room }
    ensures added { Added page.old (word_bytes (length (values_of mask told.now)) ++ values_of mask told.now) page.new }
    ensures len { length page.new.bytes ≤ length page.old.bytes + 28 }
{
    page.u32(values_length(mask));
    put_word_if(page, wants(mask, ATTR_TYPE), told.kind);
    put_hyper_if(page, wants(mask, ATTR_CHANGE), told.change);
    put_hyper_if(page, wants(mask, ATTR_SIZE), told.size);
    put_word_if(page, wants(mask, ATTR_LEASE_TIME), LEASE_SECONDS as u32);
}

fn put_word_if(page: &mut Page, wanted: bool, v: u32)
    requires { length page.old.bytes + 4 ≤ page.old.room }
    ensures added { Added page.old (bytes_if wanted (word_bytes v)) page.new }
    ensures len { length page.new.bytes ≤ length page.old.bytes + 4 }
{
    if wanted {
        page.u32(v);
    }
}

fn put_hyper_if(page: &mut Page, wanted: bool, v: u64)
    requires { length page.old.bytes + 8 ≤ page.old.room }
    ensures added { Added page.old (bytes_if wanted (hyper_bytes v)) page.new }
    ensures len { length page.new.bytes ≤ length page.old.bytes + 8 }
{
    if wanted {
        page.u64(v);
    }
}

/// How many bytes the values have that are asked for.
fn values_length(mask: u32) -> u32
    ensures { (told : FileAttributes) → result ≡ length (values_of mask told) }
{
    length_if(mask, ATTR_TYPE, 4)
        + length_if(mask, ATTR_CHANGE, 8)
        + length_if(mask, ATTR_SIZE, 8)
        + length_if(mask, ATTR_LEASE_TIME, 4)
}

fn length_if(mask: u32, bit: u32, length: u32) -> u32
    ensures is { result ≡ (if wants mask bit then length else 0) }
    ensures most { result ≤ length }
{
    if wants(mask, bit) { length } else { 0 }
}

fn wants(mask: u32, bit: u32) -> bool
    ensures { result ≡ wants mask bit }
{
    mask & bit != 0
}

/// The first word of a bitmap, 0 where there is none.
fn first_word(words: &[u32]) -> u32
    ensures { result ≡ first_word words.now }
{
    match words {
        [] => 0,
        [word, ..] => *word,
    }
}
