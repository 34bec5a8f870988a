//! Texts from bytes and from UTF-16, and back to bytes: code over the trait makes a `String`, a
//! [`crate::InlinableStringN`] or a text of one's own.
ghost use Rattle.std.specs.Prelude.{◌≡◌, ◌≤◌, ◌↔◌, if◌then◌else◌, codes, [], Some, IsTrue, IfOk, IfErr, IsOk, Err, MatchResult, IsUtf8};
ghost use Rattle.std.specs.Str.{chars};
ghost use Rattle.std.specs.String.{from_utf8_error_vec};
ghost use Rattle.std.specs.Cow.{cow_str_bytes, IsBorrowedStr};
ghost use Rattle.inlinable_string.specs.Text.{bytes_of};
ghost use Rattle.inlinable_string.specs.Utf16.{units_of, HasUnpaired, lossy_utf16};
ghost use Rattle.inlinable_string.specs.Lossy.{lossy_utf8};
ghost use Rattle.inlinable_string.specs.State.{Policy, storage_when_made};
ghost use Rattle.inlinable_string.specs.declared.string_ext.make.Utf16Error.TheVariants.{NoMemory};

use super::{Storage, StringExt, utf8, utf16};
use crate::well_formed::text_in;
use std::alloc::{AllocError, Global};
use std::borrow::CowStr;
use std::error::Error;
use std::fmt;
use std::string::FromUtf8Error;

/// Why `from_utf16` failed.
#[derive(Clone, Copy, Debug, PartialEq, Eq)]
pub enum Utf16Error {
    /// A surrogate is unpaired.
    Unpaired,
    /// None is unpaired, and the allocation failed.
    NoMemory,
}

impl Error for Utf16Error {}

impl From<AllocError> for Utf16Error {
    ghost from_gives = { λ _ error. error ≡ NoMemory };

    fn from(_: AllocError) -> Self {
        Utf16Error::NoMemory
    }
}

impl fmt::Display for Utf16Error {
    ghost output = { λ error. Some (if ⟦<Utf16Error as PartialEq>⟧.eq error NoMemory
        then codes "there is no memory" else codes "a surrogate is unpaired") };

    fn fmt<W: fmt::Write>(&self, f: &mut fmt::Formatter<W>) -> fmt::Result {
        match self {
            Utf16Error::Unpaired => f.write_str("a surrogate is unpaired"),
            Utf16Error::NoMemory => f.write_str("there is no memory"),
        }
    }
}

/// A type that makes texts that can be edited.
pub trait StringMake: StringExt {
    /// The policy of each text that is made.
    ghost policy: { Policy };

    /// Returns the empty text. Does not allocate.
    fn new(alloc: Global) -> Self
        ensures text { (Self.state result).text ≡ [] }
        ensures storage { (Self.state result).storage ≡ storage_when_made policy 0 }
        ensures policy { (Self.state result).policy ≡ policy };

    /// Returns the empty text, with capacity for `capacity` bytes. Does not allocate, and cannot
    /// fail, if they fit inline.
    fn with_capacity(alloc: Global, capacity: usize) -> Result<Self, AllocError>
        ensures text { IfOk result (λ made. (Self.state made).text ≡ []) }
        ensures room { IfOk result (λ made. capacity ≤ (Self.state made).capacity) }
        ensures storage { IfOk result
            (λ made. (Self.state made).storage ≡ storage_when_made policy capacity) }
        ensures granted { IsTrue policy.demotes → capacity ≤ policy.limit → IsOk result }
        ensures policy { IfOk result (λ made. (Self.state made).policy ≡ policy) };

    /// Converts bytes into a text. Fails exactly if they are not UTF-8, and then returns them in
    /// the error (`FromUtf8Error::into_bytes`).
    ///
    /// Takes over the vector without copying; the text is on the heap even if it is short.
    fn from_utf8(alloc: Global, vec: Vec<u8>) -> Result<Self, FromUtf8Error>
        ensures text { IfOk result (λ made. bytes_of (Self.state made).text ≡ vec.items) }
        ensures chars { IfOk result (λ made. (Self.state made).text ≡ chars vec.items) }
        ensures err { IfErr result (λ error. from_utf8_error_vec error ≡ vec) }
        ensures well_formed { MatchResult result
            (λ _. IsUtf8 vec.items) (λ _. ¬ (IsUtf8 vec.items)) }
        ensures storage { IfOk result (λ made. (Self.state made).storage ≡ Storage.Heap) }
        ensures policy { IfOk result (λ made. (Self.state made).policy ≡ policy) };

    /// Converts bytes, which must be UTF-8 (`str::from_utf8`), into a text.
    ///
    /// Takes over the vector without copying; the text is on the heap even if it is short.
    unsafe fn from_utf8_unchecked(alloc: Global, bytes: Vec<u8>) -> Self
        requires { IsUtf8 bytes.items }
        ensures text { bytes_of (Self.state result).text ≡ bytes.items }
        ensures chars { (Self.state result).text ≡ chars bytes.items }
        ensures storage { (Self.state result).storage ≡ Storage.Heap }
        ensures policy { (Self.state result).policy ≡ policy };

    /// Converts bytes into a text, with U+FFFD for each maximal subpart that is no character.
    ///
    /// Bytes that are UTF-8 are borrowed, which does not allocate and cannot fail. Others are
    /// copied into one allocation, of a byte for each that is ASCII and three for each that is
    /// not; what the text does not need of it is spare capacity.
    final fn from_utf8_lossy(alloc: Global, v: &[u8]) -> Result<CowStr, AllocError>
        ensures text { IfOk result (λ read. cow_str_bytes read ≡ bytes_of (lossy_utf8 v.now)) }
        ensures borrowed { IfOk result (λ read. IsBorrowedStr read ↔ IsUtf8 v.now) }
        ensures granted { IsUtf8 v.now → IsOk result }
    {
        if let Some(text) = text_in(v) {
            return Ok(CowStr::Borrowed(text));
        }
        Ok(CowStr::Owned(utf8::lossy(alloc, v)?))
    }

    /// Decodes UTF-16. Fails with [`Utf16Error::Unpaired`] exactly if a surrogate is unpaired,
    /// which is found before anything is allocated.
    ///
    /// Allocates once and exactly. The text is on the heap even if it is short.
    fn from_utf16(alloc: Global, v: &[u16]) -> Result<Self, Utf16Error>
        ensures text { IfOk result (λ made. units_of (Self.state made).text ≡ v.now) }
        ensures read { IfOk result (λ made. (Self.state made).text ≡ lossy_utf16 v.now) }
        ensures unpaired { (result ≡ Err Utf16Error.Unpaired) ↔ HasUnpaired v.now }
        ensures storage { IfOk result (λ made. (Self.state made).storage ≡ Storage.Heap) }
        ensures policy { IfOk result (λ made. (Self.state made).policy ≡ policy) }
    {
        let read = utf16::paired(alloc, v)?;
        Ok(unsafe { Self::from_utf8_unchecked(alloc, read.into_bytes()) })
    }

    /// Decodes UTF-16, with U+FFFD for each surrogate that is unpaired.
    ///
    /// Allocates once and exactly. The text is on the heap even if it is short.
    fn from_utf16_lossy(alloc: Global, v: &[u16]) -> Result<Self, AllocError>
        ensures text { IfOk result (λ made. (Self.state made).text ≡ lossy_utf16 v.now) }
        ensures storage { IfOk result (λ made. (Self.state made).storage ≡ Storage.Heap) }
        ensures policy { IfOk result (λ made. (Self.state made).policy ≡ policy) }
    {
        let read = utf16::lossy(alloc, v)?;
        Ok(unsafe { Self::from_utf8_unchecked(alloc, read.into_bytes()) })
    }

    /// Converts the text into its UTF-8 bytes. A heap text hands over its allocation, which cannot
    /// fail; an inline one allocates, and if that fails the text is returned unchanged.
    fn into_bytes(self) -> Result<Vec<u8>, Self>
        ensures bytes { IfOk result (λ bytes. bytes.items ≡ bytes_of (Self.state self).text) }
        ensures err { IfErr result (λ kept. Self.state kept ≡ Self.state self) }
        ensures granted { (Self.state self).storage ≡ Storage.Heap → IsOk result };
}
