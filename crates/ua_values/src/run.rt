ghost use Rattle.std.specs.Prelude.{◌≡◌, ◌↔◌, Some, None, option_map, IfOk, IsTrue};
ghost use Rattle.std.specs.Option.{is_none, option_copied};

use std::alloc::Global;
use std::fmt;
use std::marker::Model;
use ua_base::OutOfMemory;

/// Bytes that stand behind a length.
#[derive(Drop)]
struct Run {
    bytes: Vec<u8>,
}

impl Model for Run {
    ghost use Rattle.std.specs.Prelude.{List, ℕ};

    ghost Value = { List ℕ };

    ghost view = { λ r. r.bytes.items };
}

/// Null, or bytes: what a text and a ByteString both are.
#[derive(Drop)]
struct Nullable {
    run: Option<Run>,
}

impl Model for Nullable {
    ghost use Rattle.std.specs.Prelude.{List, ℕ, Option};

    ghost Value = { Option (List ℕ) };

    ghost view = { λ n. n.run };
}

impl Nullable {
    fn null() -> Nullable
        ensures { result ≡ None }
    {
        Nullable { run: None }
    }

    fn new(bytes: Vec<u8>) -> Nullable
        ensures { result ≡ Some bytes.items }
    {
        Nullable {
            run: Some(Run { bytes }),
        }
    }

    fn is_null(&self) -> bool
        ensures { result ≡ is_none self.now }
    {
        self.run.is_none()
    }

    fn bytes(&self) -> Option<&[u8]>
        ensures { option_copied result ≡ self.now }
    {
        self.run.as_ref().map(|run| run.bytes.as_slice())
    }

    fn into_bytes(self) -> Option<Vec<u8>>
        ensures { option_map (λ bytes. bytes.items) result ≡ self }
    {
        self.run.map(|run| run.bytes)
    }

    fn copy(&self, alloc: Global) -> Result<Nullable, OutOfMemory>
        ensures { IfOk result (λ copied. copied ≡ self.now) }
    {
        match self.bytes() {
            None => Ok(Nullable::null()),
            Some(bytes) => Ok(Nullable::new(Vec::from_slice(alloc, bytes)?)),
        }
    }

    fn equals(&self, other: &Nullable) -> bool
        ensures { IsTrue result ↔ (self.now ≡ other.now) }
    {
        match (self.bytes(), other.bytes()) {
            (None, None) => true,
            (Some(bytes), Some(others)) => bytes == others,
            _ => false,
        }
    }
}

impl fmt::Debug for Nullable {
    /// `null`, or `x` and the bytes in hexadecimal.
    fn fmt<W: fmt::Write>(&self, f: &mut fmt::Formatter<W>) -> fmt::Result {
        match self.bytes() {
            None => f.write_str("null"),
            Some(bytes) => write_digits(bytes, f),
        }
    }
}

/// Writes `x` and bytes in hexadecimal.
fn write_digits<W: fmt::Write>(bytes: &[u8], f: &mut fmt::Formatter<W>) -> fmt::Result {
    f.write_str("x")?;
    for byte in bytes {
        write!(f, "{byte:02x}")?;
    }
    Ok(())
}

/// A String or an XmlElement (OPC 10000-6, 5.2.2.4): null, or bytes. They are UTF-8 where a peer keeps the rules;
/// nothing here looks.
#[derive(Drop)]
pub struct UaText {
    inner: Nullable,
}

impl Model for UaText {
    ghost use Rattle.std.specs.Prelude.{List, ℕ, Option};

    ghost Value = { Option (List ℕ) };

    ghost view = { λ t. t.inner };
}

/// A ByteString (OPC 10000-6, 5.2.2.7): null, or bytes.
#[derive(Drop)]
pub struct UaBytes {
    inner: Nullable,
}

impl Model for UaBytes {
    ghost use Rattle.std.specs.Prelude.{List, ℕ, Option};

    ghost Value = { Option (List ℕ) };

    ghost view = { λ t. t.inner };
}

impl fmt::Debug for UaText {
    /// `null`, or `x` and the bytes in hexadecimal.
    fn fmt<W: fmt::Write>(&self, f: &mut fmt::Formatter<W>) -> fmt::Result {
        self.inner.fmt(f)
    }
}

impl fmt::Debug for UaBytes {
    /// `null`, or `x` and the bytes in hexadecimal.
    fn fmt<W: fmt::Write>(&self, f: &mut fmt::Formatter<W>) -> fmt::Result {
        self.inner.fmt(f)
    }
}

impl UaText {
    /// No text, which is another value than a text of no bytes.
    pub fn null() -> UaText
        ensures { result ≡ None }
    {
        UaText {
            inner: Nullable::null(),
        }
    }

    /// The text of these bytes.
    pub fn new(bytes: Vec<u8>) -> UaText
        ensures { result ≡ Some bytes.items }
    {
        UaText {
            inner: Nullable::new(bytes),
        }
    }

    /// Whether it is null.
    pub fn is_null(&self) -> bool
        ensures { result ≡ is_none self.now }
    {
        self.inner.is_null()
    }

    /// The bytes, where it is not null.
    pub fn bytes(&self) -> Option<&[u8]>
        ensures { option_copied result ≡ self.now }
    {
        self.inner.bytes()
    }

    /// The bytes, where it is not null.
    pub fn into_bytes(self) -> Option<Vec<u8>>
        ensures { option_map (λ bytes. bytes.items) result ≡ self }
    {
        self.inner.into_bytes()
    }

    /// The same text once more.
    pub fn copy(&self, alloc: Global) -> Result<UaText, OutOfMemory>
        ensures { IfOk result (λ copied. copied ≡ self.now) }
    {
        let inner = self.inner.copy(alloc)?;
        Ok(UaText { inner })
    }

    /// Whether both are null, or both are texts of the same bytes. It takes no memory.
    pub fn equals(&self, other: &UaText) -> bool
        ensures { IsTrue result ↔ (self.now ≡ other.now) }
    {
        self.inner.equals(&other.inner)
    }
}

impl UaBytes {
    /// No bytes, which is another value than a list of none.
    pub fn null() -> UaBytes
        ensures { result ≡ None }
    {
        UaBytes {
            inner: Nullable::null(),
        }
    }

    /// These bytes.
    pub fn new(bytes: Vec<u8>) -> UaBytes
        ensures { result ≡ Some bytes.items }
    {
        UaBytes {
            inner: Nullable::new(bytes),
        }
    }

    /// Whether it is null.
    pub fn is_null(&self) -> bool
        ensures { result ≡ is_none self.now }
    {
        self.inner.is_null()
    }

    /// The bytes, where it is not null.
    pub fn bytes(&self) -> Option<&[u8]>
        ensures { option_copied result ≡ self.now }
    {
        self.inner.bytes()
    }

    /// The bytes, where it is not null.
    pub fn into_bytes(self) -> Option<Vec<u8>>
        ensures { option_map (λ bytes. bytes.items) result ≡ self }
    {
        self.inner.into_bytes()
    }

    /// The same ByteString once more.
    pub fn copy(&self, alloc: Global) -> Result<UaBytes, OutOfMemory>
        ensures { IfOk result (λ copied. copied ≡ self.now) }
    {
        let inner = self.inner.copy(alloc)?;
        Ok(UaBytes { inner })
    }

    /// Whether both are null, or both are the same bytes. It takes no memory.
    pub fn equals(&self, other: &UaBytes) -> bool
        ensures { IsTrue result ↔ (self.now ≡ other.now) }
    {
        self.inner.equals(&other.inner)
    }
}
