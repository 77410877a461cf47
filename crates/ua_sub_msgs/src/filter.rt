//! Which new values of an item are told.

ghost use Rattle.std.specs.Prelude.{◌≡◌, IfOk};
ghost use Rattle.ua_structures.specs.Body.{service, object_at, object_by, Answers, IsContentRead};
ghost use Rattle.ua_sub_msgs.specs.Numbers.{filter_id};
ghost use Rattle.ua_sub_msgs.specs.Families.{filter_put, filters};

use std::alloc::Global;
use ua_base::OutOfMemory;
use ua_structures::{Body, BodyFault, put_fields, read_content, read_fields, write_content};
use ua_values::{Cursor, Element, ExtensionObject, ValueFault};

/// When a value counts as changed; it stands in an ExtensionObject (OPC 10000-4, 7.17.2).
#[derive(Clone, Copy, Debug, PartialEq, Eq)]
pub struct DataChangeFilter {
    /// A DataChangeTrigger: 0 status, 1 status and value, 2 status, value and time.
    pub trigger: i32,
    /// 0 none, 1 absolute, 2 percent.
    pub deadband_type: u32,
    /// The bits of a Double.
    pub deadband_value: u64,
}

#[tactic(auto, unfolding(crate::specs::Structures::a_data_change_filter))]
impl Element for DataChangeFilter {
    ghost use Rattle.ua_sub_msgs.specs.Structures.{a_data_change_filter};

    ghost at = { a_data_change_filter.at };

    ghost written = { a_data_change_filter.written };

    fn read(alloc: Global, from: &mut Cursor<'_>) -> Result<DataChangeFilter, ValueFault> {
        read_fields!(alloc, from => trigger, deadband_type, deadband_value)
    }

    fn put(&self, to: &mut Vec<u8>) -> Result<(), OutOfMemory> {
        put_fields!(self, to => trigger, deadband_type, deadband_value)
    }
}

/// Which of these filters an object holds.
#[derive(Clone, Copy, Debug, PartialEq, Eq)]
pub enum FilterType {
    DataChange,
}

impl FilterType {
    /// All of them.
    pub const ALL: [FilterType; 1] = [FilterType::DataChange];

    /// The number of its NodeId in the namespace 0, which says that it is encoded in binary (OPC 10000-6, annex A.3).
    pub fn id(self) -> u32
        ensures { result ≡ filter_id self }
    {
        match self {
            FilterType::DataChange => 724,
        }
    }

    /// The one that has this number.
    pub fn of(id: u32) -> Option<FilterType>
        ensures { result ≡ service filters id }
    {
        FilterType::ALL.iter().copied().find(|one| one.id() == id)
    }
}

/// A filter of an item, which stands in an ExtensionObject (OPC 10000-4, 7.17).
#[derive(Debug, Drop)]
pub enum Filter {
    DataChange(DataChangeFilter),
}

impl Filter {
    /// Which one it is.
    pub fn kind(&self) -> FilterType
        ensures { result ≡ (filter_put self.now).kind }
    {
        match self {
            Filter::DataChange(_) => FilterType::DataChange,
        }
    }
}

impl Body for Filter {
    ghost use Rattle.ua_structures.specs.Body.{number_by};
    ghost use Rattle.ua_sub_msgs.specs.Families.{filters, filter_put};

    type Service = FilterType;

    ghost family = { filters };

    ghost number = { number_by filters filter_put };

    ghost text = { λ value. (filter_put value).text };

    fn service(id: u32) -> Option<FilterType> {
        FilterType::of(id)
    }

    fn read_structure(
        alloc: Global,
        which: FilterType,
        from: &mut Cursor<'_>,
    ) -> Result<Filter, ValueFault> {
        Ok(match which {
            FilterType::DataChange => Filter::DataChange(Element::read(alloc, from)?),
        })
    }

    fn number(&self) -> u32 {
        self.kind().id()
    }

    fn put_structure(&self, to: &mut Vec<u8>) -> Result<(), OutOfMemory> {
        match self {
            Filter::DataChange(filter) => filter.put(to),
        }
    }
}

/// Reads the filter that an ExtensionObject holds.
///
/// # Errors
///
/// `Unknown` where its type is none of these; `Bad` where it holds no bytes, or where these aren't just such a structure. Places are
/// counted in the object's bytes.
pub fn read_filter(alloc: Global, object: &ExtensionObject) -> Result<Filter, BodyFault>
    ensures exact { Answers result (object_at filters object.now) }
    ensures held { IsContentRead filters object.now result }
{
    read_content(alloc, object)
}

/// The ExtensionObject that holds this filter.
pub fn write_filter(alloc: Global, filter: &Filter) -> Result<ExtensionObject, OutOfMemory>
    ensures { IfOk result (λ x. x ≡ object_by filters filter_put filter.now) }
{
    write_content(alloc, filter)
}
