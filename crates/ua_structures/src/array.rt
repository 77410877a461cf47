ghost use Rattle.std.specs.Prelude.{◌≡◌, ◌↔◌, ◌++◌, [], length, IsTrue, IfOk};
ghost use Rattle.ua_values.specs.Readers.{array_at};
ghost use Rattle.ua_values.specs.Written.{written_array};

use std::alloc::Global;
use std::marker::Model;
use ua_base::OutOfMemory;
use ua_values::{Cursor, Element, ExtensionObject, ValueFault, put_array, read_array};

/// The elements of an array that is a field (OPC 10000-6, 5.2.5). A null array is an empty one. What has more than 65,536 is refused
/// where it is read, and has no spelling.
#[derive(Debug, Drop)]
pub struct UaArray<T> {
    items: Vec<T>,
}

impl<T> Model for UaArray<T> {
    ghost use Rattle.std.specs.Prelude.{List};

    ghost Value = { List T };

    ghost view = { λ a. a.items.items };
}

impl<T> UaArray<T> {
    /// An array of these elements; it takes no memory.
    pub fn new(items: Vec<T>) -> UaArray<T>
        ensures { result ≡ items.items }
    {
        UaArray { items }
    }

    /// An array of no elements; it takes no memory.
    pub fn empty(alloc: Global) -> UaArray<T>
        ensures { result ≡ [] }
    {
        UaArray::new(Vec::new(alloc))
    }

    /// The elements in their order.
    pub fn as_slice(&self) -> &[T]
        ensures { result.now ≡ self.now }
    {
        self.items.as_slice()
    }

    /// How many elements there are.
    pub fn len(&self) -> usize
        ensures { result ≡ length self.now }
    {
        self.items.len()
    }

    /// Whether there is no element.
    pub fn is_empty(&self) -> bool
        ensures { IsTrue result ↔ (self.now ≡ []) }
    {
        self.items.is_empty()
    }

    /// The elements, taken out; it takes no memory.
    pub fn into_vec(self) -> Vec<T>
        ensures { result.items ≡ self }
    {
        self.items
    }
}

impl UaArray<ExtensionObject> {
    /// The same objects once more.
    pub fn copy(&self, alloc: Global) -> Result<UaArray<ExtensionObject>, OutOfMemory>
        ensures { IfOk result (λ copied. copied ≡ self.now) }
    {
        let mut copied = Vec::new(alloc);
        for object in self.items.iter() {
            copied.push(object.copy(alloc)?)?;
        }
        Ok(UaArray::new(copied))
    }
}

impl<T: Element> Element for UaArray<T> {
    ghost at = { array_at T.at };

    ghost written = { written_array T.written };

    fn read(alloc: Global, from: &mut Cursor<'_>) -> Result<UaArray<T>, ValueFault> {
        Ok(UaArray::new(read_array(alloc, from)?))
    }

    fn put(&self, to: &mut Vec<u8>) -> Result<(), OutOfMemory> {
        put_array(self.as_slice(), to)
    }
}
