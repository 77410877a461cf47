ghost use Rattle.std.specs.Prelude.{◌≡◌, None, option_map};
ghost use Rattle.std.specs.Int.{w8, w16, w32, w64};
ghost use Rattle.ua_base.specs.Status.{bad_decoding_error};
ghost use Rattle.ua_values.specs.Reading.{input, with_place, Moves, TakesNoMemory, run_at, field_at, number_at};
ghost use Rattle.ua_values.specs.Readers.{boolean_at, signed_at, guid_at, length_of, count_of, text_at, form_of, form_body_at, node_at, head_of, optional_at, expanded_at, qualified_at, localized_at, kind_of, body_at, extension_at};
ghost use Rattle.ua_values.specs.declared.fault.ValueFault.TheVariants as faults;

use crate::extension::{BodyKind, ExtensionBody, ExtensionObject};
use crate::fault::{MOST_BYTES, ValueFault};
use crate::names::{LocalizedText, QualifiedName};
use crate::node::{ExpandedNodeId, Form, Head, NodeId, has_bit};
use crate::run::{UaBytes, UaText};
use byteorder::{ByteOrder, LittleEndian};
use std::alloc::Global;
use std::marker::Model;
use ua_base::status::{BAD_DECODING_ERROR, BAD_ENCODING_LIMITS_EXCEEDED};
use uuid::Uuid;

/// Reads values one after the other. After a fault it stands anywhere, and is not read from again.
#[derive(Drop)]
pub struct Cursor<'a> {
    place: usize,
    rest: &'a [u8],
}

impl<'a> Model for Cursor<'a> {
    ghost use Rattle.std.specs.Prelude.{◌+◌, ◌<◌, ◌^◌, length};
    ghost use Rattle.ua_values.specs.Reading.{Input};

    ghost Value = { Input };

    ghost view = { λ c. record { place = c.place; rest = c.rest.now } };

    ghost invariant = { λ c. c.place + length c.rest.now < 2 ^ 64 };
}

impl<'a> Cursor<'a> {
    /// Begins at the first byte.
    pub fn new(bytes: &'a [u8]) -> Cursor<'a>
        ensures { result ≡ input 0 bytes.now }
    {
        Cursor {
            place: 0,
            rest: bytes,
        }
    }

    /// How many bytes have been read.
    pub fn place(&self) -> usize
        ensures { result ≡ self.now.place }
    {
        self.place
    }

    /// A value that was read last, and how many bytes have been read.
    pub fn sized<T: Drop>(&self, read: Result<T, ValueFault>) -> Result<(T, usize), ValueFault>
        ensures { result ≡ with_place read self.now.place }
    {
        match read {
            Ok(value) => Ok((value, self.place)),
            Err(fault) => Err(fault),
        }
    }

    /// The next bytes, so many.
    fn run(&mut self, count: usize) -> Result<&'a [u8], ValueFault>
        ensures exact { Moves (λ run. run.now) result self.new (run_at count self.old) }
        ensures memory { TakesNoMemory result }
    {
        if self.rest.len() < count {
            return Err(ValueFault::Short);
        }
        let (front, rest) = self.rest.split_at(count);
        self.place += count;
        self.rest = rest;
        Ok(front)
    }

    /// A Byte.
    pub fn byte(&mut self) -> Result<u8, ValueFault>
        ensures exact { Moves (λ n. n) result self.new (number_at 1 self.old) }
        ensures memory { TakesNoMemory result }
    {
        Ok(self.run(1)?[0])
    }

    /// A UInt16.
    pub fn uint16(&mut self) -> Result<u16, ValueFault>
        ensures exact { Moves (λ n. n) result self.new (number_at 2 self.old) }
        ensures memory { TakesNoMemory result }
    {
        Ok(LittleEndian::read_u16(self.run(2)?))
    }

    /// A UInt32, or the bits of a Float.
    pub fn uint32(&mut self) -> Result<u32, ValueFault>
        ensures exact { Moves (λ n. n) result self.new (number_at 4 self.old) }
        ensures memory { TakesNoMemory result }
    {
        Ok(LittleEndian::read_u32(self.run(4)?))
    }

    /// A UInt64, or the bits of a Double.
    pub fn uint64(&mut self) -> Result<u64, ValueFault>
        ensures exact { Moves (λ n. n) result self.new (number_at 8 self.old) }
        ensures memory { TakesNoMemory result }
    {
        Ok(LittleEndian::read_u64(self.run(8)?))
    }

    /// An SByte.
    pub fn sbyte(&mut self) -> Result<i8, ValueFault>
        ensures exact { Moves (λ z. z) result self.new (signed_at 1 w8 self.old) }
        ensures memory { TakesNoMemory result }
    {
        Ok(self.byte()?.cast_signed())
    }

    /// An Int16.
    pub fn int16(&mut self) -> Result<i16, ValueFault>
        ensures exact { Moves (λ z. z) result self.new (signed_at 2 w16 self.old) }
        ensures memory { TakesNoMemory result }
    {
        Ok(self.uint16()?.cast_signed())
    }

    /// An Int32, or an enumeration.
    pub fn int32(&mut self) -> Result<i32, ValueFault>
        ensures exact { Moves (λ z. z) result self.new (signed_at 4 w32 self.old) }
        ensures memory { TakesNoMemory result }
    {
        Ok(self.uint32()?.cast_signed())
    }

    /// An Int64, or a DateTime in 100 nanoseconds since 1601-01-01 UTC.
    pub fn int64(&mut self) -> Result<i64, ValueFault>
        ensures exact { Moves (λ z. z) result self.new (signed_at 8 w64 self.old) }
        ensures memory { TakesNoMemory result }
    {
        Ok(self.uint64()?.cast_signed())
    }

    /// A Boolean: every byte but 0 is true.
    pub fn boolean(&mut self) -> Result<bool, ValueFault>
        ensures exact { Moves (λ b. b) result self.new (boolean_at self.old) }
        ensures memory { TakesNoMemory result }
    {
        Ok(self.byte()? != 0)
    }

    /// A Guid.
    pub fn guid(&mut self) -> Result<Uuid, ValueFault>
        ensures exact { Moves (λ g. g) result self.new (guid_at self.old) }
        ensures memory { TakesNoMemory result }
    {
        let run = self.run(16)?;
        Ok(Uuid::from_bytes_le([
            run[0], run[1], run[2], run[3], run[4], run[5], run[6], run[7], run[8], run[9],
            run[10], run[11], run[12], run[13], run[14], run[15],
        ]))
    }

    /// The length of a text or a ByteString, or None where it is negative.
    fn length(&mut self) -> Result<Option<usize>, ValueFault>
        ensures exact { Moves (λ n. n) result self.new (field_at 4 length_of self.old) }
        ensures memory { TakesNoMemory result }
    {
        let place = self.place;
        let length = self.uint32()?;
        if length >= 1 << 31 {
            Ok(None)
        } else if length > MOST_BYTES {
            Err(ValueFault::Bad {
                place,
                code: BAD_ENCODING_LIMITS_EXCEEDED,
            })
        } else {
            Ok(Some(length as usize))
        }
    }

    /// How many elements an array has, which may have `most` of them: 0 where its length is negative.
    pub fn count(&mut self, most: u32) -> Result<u32, ValueFault>
        ensures exact { Moves (λ n. n) result self.new (field_at 4 (count_of most) self.old) }
        ensures memory { TakesNoMemory result }
    {
        let place = self.place;
        let count = self.uint32()?;
        if count >= 1 << 31 {
            Ok(0)
        } else if count > most {
            Err(ValueFault::Bad {
                place,
                code: BAD_ENCODING_LIMITS_EXCEEDED,
            })
        } else {
            Ok(count)
        }
    }

    /// The bytes of a text or a ByteString.
    fn counted(&mut self, alloc: Global) -> Result<Option<Vec<u8>>, ValueFault>
        ensures { Moves (λ run. option_map (λ v. v.items) run) result self.new (text_at self.old) }
    {
        match self.length()? {
            None => Ok(None),
            Some(length) => {
                let run = self.run(length)?;
                let bytes = Vec::from_slice(alloc, run)?;
                Ok(Some(bytes))
            }
        }
    }

    /// A String or an XmlElement.
    pub fn text(&mut self, alloc: Global) -> Result<UaText, ValueFault>
        ensures { Moves (λ run. run) result self.new (text_at self.old) }
    {
        Ok(match self.counted(alloc)? {
            None => UaText::null(),
            Some(bytes) => UaText::new(bytes),
        })
    }

    /// A ByteString.
    pub fn byte_string(&mut self, alloc: Global) -> Result<UaBytes, ValueFault>
        ensures { Moves (λ run. run) result self.new (text_at self.old) }
    {
        Ok(match self.counted(alloc)? {
            None => UaBytes::null(),
            Some(bytes) => UaBytes::new(bytes),
        })
    }

    /// The byte that says how a NodeId stands.
    fn form(&mut self) -> Result<Form, ValueFault>
        ensures exact { Moves (λ f. f) result self.new (field_at 1 form_of self.old) }
        ensures memory { TakesNoMemory result }
    {
        let place = self.place;
        Form::of(self.byte()?).ok_or(bad_choice(place))
    }

    /// What follows the byte.
    fn form_body(&mut self, alloc: Global, form: Form) -> Result<NodeId, ValueFault>
        ensures { Moves (λ n. n) result self.new (form_body_at form self.old) }
    {
        match form {
            Form::TwoByte => {
                let id = u32::from(self.byte()?);
                Ok(NodeId::Numeric { namespace: 0, id })
            }
            Form::FourByte => {
                let namespace = u16::from(self.byte()?);
                let id = u32::from(self.uint16()?);
                Ok(NodeId::Numeric { namespace, id })
            }
            Form::Long => {
                let namespace = self.uint16()?;
                let id = self.uint32()?;
                Ok(NodeId::Numeric { namespace, id })
            }
            Form::Text => {
                let namespace = self.uint16()?;
                let id = self.text(alloc)?;
                Ok(NodeId::Text { namespace, id })
            }
            Form::Guid => {
                let namespace = self.uint16()?;
                let id = self.guid()?;
                Ok(NodeId::Guid { namespace, id })
            }
            Form::Opaque => {
                let namespace = self.uint16()?;
                let id = self.byte_string(alloc)?;
                Ok(NodeId::Opaque { namespace, id })
            }
        }
    }

    /// A NodeId.
    pub fn node_id(&mut self, alloc: Global) -> Result<NodeId, ValueFault>
        ensures { Moves (λ n. n) result self.new (node_at self.old) }
    {
        let form = self.form()?;
        self.form_body(alloc, form)
    }

    /// The first byte of an ExpandedNodeId.
    fn head(&mut self) -> Result<Head, ValueFault>
        ensures exact { Moves (λ h. h) result self.new (field_at 1 head_of self.old) }
        ensures memory { TakesNoMemory result }
    {
        let place = self.place;
        Head::of(self.byte()?).ok_or(bad_choice(place))
    }

    /// A text where a mask says that there is one, and null else.
    pub fn optional_text(&mut self, alloc: Global, is_there: bool) -> Result<UaText, ValueFault>
        ensures { Moves (λ run. run) result self.new (optional_at is_there None text_at self.old) }
    {
        if is_there {
            self.text(alloc)
        } else {
            Ok(UaText::null())
        }
    }

    /// A UInt32 where a mask says that there is one, and 0 else.
    pub fn optional_uint32(&mut self, is_there: bool) -> Result<u32, ValueFault>
        ensures exact { Moves (λ n. n) result self.new (optional_at is_there 0 (number_at 4) self.old) }
        ensures memory { TakesNoMemory result }
    {
        if is_there { self.uint32() } else { Ok(0) }
    }

    /// An ExpandedNodeId.
    pub fn expanded_node_id(&mut self, alloc: Global) -> Result<ExpandedNodeId, ValueFault>
        ensures { Moves (λ e. e) result self.new (expanded_at self.old) }
    {
        let head = self.head()?;
        let node = self.form_body(alloc, head.form)?;
        let uri = self.optional_text(alloc, head.has_uri)?;
        let server = self.optional_uint32(head.has_server)?;
        Ok(ExpandedNodeId { node, uri, server })
    }

    /// A QualifiedName.
    pub fn qualified_name(&mut self, alloc: Global) -> Result<QualifiedName, ValueFault>
        ensures { Moves (λ n. n) result self.new (qualified_at self.old) }
    {
        let namespace = self.uint16()?;
        let name = self.text(alloc)?;
        Ok(QualifiedName { namespace, name })
    }

    /// A LocalizedText. Bits of its mask that say nothing are passed over.
    pub fn localized_text(&mut self, alloc: Global) -> Result<LocalizedText, ValueFault>
        ensures { Moves (λ t. t) result self.new (localized_at self.old) }
    {
        let mask = self.byte()?;
        let locale = self.optional_text(alloc, has_bit(1, mask))?;
        let text = self.optional_text(alloc, has_bit(2, mask))?;
        Ok(LocalizedText { locale, text })
    }

    /// The byte that says which encoding a body has.
    fn body_kind(&mut self) -> Result<BodyKind, ValueFault>
        ensures exact { Moves (λ k. k) result self.new (field_at 1 kind_of self.old) }
        ensures memory { TakesNoMemory result }
    {
        let place = self.place;
        BodyKind::of(self.byte()?).ok_or(bad_choice(place))
    }

    fn extension_body(&mut self, alloc: Global) -> Result<ExtensionBody, ValueFault>
        ensures { Moves (λ b. b) result self.new (body_at self.old) }
    {
        Ok(match self.body_kind()? {
            BodyKind::Absent => ExtensionBody::Absent,
            BodyKind::Binary => ExtensionBody::Binary(self.byte_string(alloc)?),
            BodyKind::Xml => ExtensionBody::Xml(self.text(alloc)?),
        })
    }

    /// An ExtensionObject.
    pub fn extension_object(&mut self, alloc: Global) -> Result<ExtensionObject, ValueFault>
        ensures { Moves (λ x. x) result self.new (extension_at self.old) }
    {
        let type_id = self.node_id(alloc)?;
        let body = self.extension_body(alloc)?;
        Ok(ExtensionObject { type_id, body })
    }
}

/// A byte that chooses nothing.
fn bad_choice(place: usize) -> ValueFault
    ensures { result ≡ faults.Bad place bad_decoding_error }
{
    ValueFault::Bad {
        place,
        code: BAD_DECODING_ERROR,
    }
}
