//! The text of single values, and lines of it.

ghost use Rattle.std.specs.Prelude.{◌≡◌, ◌++◌, List, ℕ, codes, OnOk, IfOk};
ghost use Rattle.std.specs.String.{string_bytes};
ghost use Rattle.std.specs.Fmt.{decimal, signed_decimal};
ghost use Rattle.show.specs.Text.{boolean_text, bytes_text, element_line, element_lines, guid_text, status_text};
ghost use Rattle.show.specs.Text.{written_lines};

use std::alloc::{AllocError, Global};
use ua_base::OutOfMemory;
use ua_values::Element;
use uuid::Uuid;

/// A value with a text of its own.
pub(crate) trait Plain {
    ghost text: { Self → List ℕ };

    /// Its text.
    fn plain(&self, alloc: Global) -> Result<String, AllocError>
        ensures { IfOk result (λ t. string_bytes t ≡ text self.now) };
}

impl Plain for bool {
    ghost text = { boolean_text };

    fn plain(&self, alloc: Global) -> Result<String, AllocError> {
        String::from_str(alloc, if *self { "1" } else { "0" })
    }
}

impl Plain for i8 {
    ghost text = { signed_decimal };

    fn plain(&self, alloc: Global) -> Result<String, AllocError> {
        self.to_string(alloc)
    }
}

impl Plain for u8 {
    ghost text = { decimal };

    fn plain(&self, alloc: Global) -> Result<String, AllocError> {
        self.to_string(alloc)
    }
}

impl Plain for i16 {
    ghost text = { signed_decimal };

    fn plain(&self, alloc: Global) -> Result<String, AllocError> {
        self.to_string(alloc)
    }
}

impl Plain for u16 {
    ghost text = { decimal };

    fn plain(&self, alloc: Global) -> Result<String, AllocError> {
        self.to_string(alloc)
    }
}

impl Plain for i32 {
    ghost text = { signed_decimal };

    fn plain(&self, alloc: Global) -> Result<String, AllocError> {
        self.to_string(alloc)
    }
}

impl Plain for u32 {
    ghost text = { decimal };

    fn plain(&self, alloc: Global) -> Result<String, AllocError> {
        self.to_string(alloc)
    }
}

impl Plain for i64 {
    ghost text = { signed_decimal };

    fn plain(&self, alloc: Global) -> Result<String, AllocError> {
        self.to_string(alloc)
    }
}

impl Plain for u64 {
    ghost text = { decimal };

    fn plain(&self, alloc: Global) -> Result<String, AllocError> {
        self.to_string(alloc)
    }
}

impl Plain for Uuid {
    ghost text = { guid_text };

    fn plain(&self, alloc: Global) -> Result<String, AllocError> {
        self.hyphenated().to_string(alloc)
    }
}

/// Appends the value's text.
pub(crate) fn put_plain<T: Plain>(value: &T, to: &mut Vec<u8>) -> Result<(), OutOfMemory>
    ensures { OnOk result (to.new.items ≡ to.old.items ++ T.text value.now) }
{
    let text = value.plain(*to.allocator())?;
    to.extend_from_slice(text.as_bytes())?;
    Ok(())
}

/// Appends a status code in eight hexadecimal digits.
pub(crate) fn put_status(code: u32, to: &mut Vec<u8>) -> Result<(), OutOfMemory>
    ensures { OnOk result (to.new.items ≡ to.old.items ++ status_text code) }
{
    let text = hex::encode_upper(*to.allocator(), code.to_be_bytes())?;
    to.extend_from_slice(text.as_bytes())?;
    Ok(())
}

/// Appends an `x` and the bytes in hexadecimal.
pub(crate) fn put_bytes(bytes: &[u8], to: &mut Vec<u8>) -> Result<(), OutOfMemory>
    ensures { OnOk result (to.new.items ≡ to.old.items ++ bytes_text bytes.now) }
{
    let text = hex::encode(*to.allocator(), bytes)?;
    to.push(b'x')?;
    to.extend_from_slice(text.as_bytes())?;
    Ok(())
}

/// Appends an `x` and in hexadecimal the bytes that are written of the value.
pub(crate) fn put_written<T: Element>(value: &T, to: &mut Vec<u8>) -> Result<(), OutOfMemory>
    ensures { OnOk result (to.new.items ≡ to.old.items ++ bytes_text (T.written value.now)) }
{
    let mut bytes = Vec::new(*to.allocator());
    value.put(&mut bytes)?;
    put_bytes(&bytes, to)
}

/// Begins the line of an element.
fn begin_element(to: &mut Vec<u8>) -> Result<(), OutOfMemory>
    ensures { OnOk result (to.new.items ≡ to.old.items ++ codes "  ") }
{
    to.extend_from_slice(b"  ")?;
    Ok(())
}

/// Ends a line.
pub(crate) fn end_line(to: &mut Vec<u8>) -> Result<(), OutOfMemory>
    ensures { OnOk result (to.new.items ≡ to.old.items ++ codes "\n") }
{
    to.push(b'\n')?;
    Ok(())
}

fn put_plain_line<T: Plain>(item: &T, to: &mut Vec<u8>) -> Result<(), OutOfMemory>
    ensures { OnOk result (to.new.items ≡ to.old.items ++ element_line (T.text item.now)) }
{
    begin_element(to)?;
    put_plain(item, to)?;
    end_line(to)
}

/// A line for each of the elements.
pub(crate) fn put_plain_lines<T: Plain>(items: &[T], to: &mut Vec<u8>) -> Result<(), OutOfMemory>
    ensures { OnOk result (to.new.items ≡ to.old.items ++ element_lines T.text items.now) }
{
    for item in items {
        put_plain_line(item, to)?;
    }
    Ok(())
}

fn put_status_line(code: u32, to: &mut Vec<u8>) -> Result<(), OutOfMemory>
    ensures { OnOk result (to.new.items ≡ to.old.items ++ element_line (status_text code)) }
{
    begin_element(to)?;
    put_status(code, to)?;
    end_line(to)
}

/// A line for each of the status codes.
pub(crate) fn put_status_lines(items: &[u32], to: &mut Vec<u8>) -> Result<(), OutOfMemory>
    ensures { OnOk result (to.new.items ≡ to.old.items ++ element_lines status_text items.now) }
{
    for item in items {
        put_status_line(*item, to)?;
    }
    Ok(())
}

pub(crate) fn put_written_line<T: Element>(item: &T, to: &mut Vec<u8>) -> Result<(), OutOfMemory>
    ensures { OnOk result (to.new.items ≡ to.old.items ++ element_line (bytes_text (T.written item.now))) }
{
    begin_element(to)?;
    put_written(item, to)?;
    end_line(to)
}

/// A line for each of the elements, with the bytes that are written of it.
pub(crate) fn put_written_lines<T: Element>(
    items: &[T],
    to: &mut Vec<u8>,
) -> Result<(), OutOfMemory>
    ensures { OnOk result (to.new.items ≡ to.old.items ++ written_lines T.written items.now) }
{
    for item in items {
        put_written_line(item, to)?;
    }
    Ok(())
}
