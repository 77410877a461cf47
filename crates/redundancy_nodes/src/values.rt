//! The forms of the values that nodes have.

ghost use Rattle.std.specs.Prelude.{◌≡◌};
ghost use Rattle.redundancy_nodes.specs.Values.{item_value, sampled, texts_value, timeless, told_pico};

use set_model::Change;
use sqlite_items::Items;
use ua_values::UaText;
use ua_variants::{Array, DataValue, Scalar, Variant};

/// A value, if there is one, with its source time and the picoseconds of that, if it has any.
fn sampled(value: Option<Variant>, time: Option<i64>, pico: Option<u16>) -> DataValue
    ensures { result ≡ sampled value time pico }
{
    DataValue {
        value,
        status: None,
        source_timestamp: time,
        source_picoseconds: pico,
        server_timestamp: None,
        server_picoseconds: None,
    }
}

/// A value that has no time.
pub(crate) fn timeless(value: Variant) -> DataValue
    ensures { result ≡ timeless value }
{
    sampled(Some(value), None, None)
}

/// An array of texts.
pub(crate) fn texts_value(texts: Vec<UaText>) -> DataValue
    ensures { result ≡ texts_value texts.items }
{
    timeless(Variant::Array(Array::String(Items::from_vec(texts)), None))
}

/// Picoseconds as they are told: none where they are 0.
fn told_pico(pico: u16) -> Option<u16>
    ensures { result ≡ told_pico pico }
{
    if pico == 0 { None } else { Some(pico) }
}

/// The value of an item with this current change.
pub(crate) fn item_value(change: Option<Change>) -> DataValue
    ensures { result ≡ item_value change }
{
    match change {
        None => sampled(None, None, None),
        Some(change) => sampled(
            Some(Variant::Scalar(Scalar::Int64(change.value))),
            Some(change.time),
            told_pico(change.pico),
        ),
    }
}
