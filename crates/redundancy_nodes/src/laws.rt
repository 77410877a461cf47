//! What the definitions come to. Nothing here runs.
ghost use Rattle.std.specs.Prelude.{◌≡◌, ◌≢◌, ◌≤◌, ◌<◌, ◌^◌, ◌↔◌, [], ◌∷◌, ◌++◌, ◌%◌, ◌/◌, ℕ, Some, None, Err, IsOk, IsSome, codes, is_some, length, List, map, true};
ghost use Rattle.std.specs.Int.{w64};
ghost use Rattle.ua_base.specs.Status.{bad_attribute_id_invalid, bad_node_id_unknown};
ghost use Rattle.set_model.specs.declared.source.Change.{Change};
ghost use Rattle.set_model.specs.Source.{last_of};
ghost use Rattle.ua_values.specs.declared.node.NodeId.TheVariants as id;
ghost use Rattle.ua_values.specs.Written.{written_array, written_signed, written_text};
ghost use Rattle.redundancy_nodes.specs.declared.nodes.Nodes.{Nodes};
ghost use Rattle.redundancy_nodes.specs.Read.{Sends, read_of};
ghost use Rattle.redundancy_nodes.specs.Class.{class_of};
ghost use Rattle.redundancy_nodes.specs.Current.{with_newest};
ghost use Rattle.ua_values.specs.declared.node.NodeId.{NodeId};
ghost use Rattle.redundancy_nodes.specs.Node.{HasValue, node_of};
ghost use Rattle.redundancy_nodes.specs.declared.class.Class.TheVariants.{Degraded, Healthy, Maintenance, NoData};

/// Each ServiceLevel has one class, and the classes stand in the levels' order (OPC 10000-4, 6.6.2.4.2).
pub fn classes_part_the_levels()
    ensures maintenance { (level : ℕ) → (class_of level ≡ Maintenance) ↔ (level ≡ 0) }
    ensures no_data { (level : ℕ) → (class_of level ≡ NoData) ↔ (level ≡ 1) }
    ensures degraded { (level : ℕ) → (class_of level ≡ Degraded) ↔ ((2 ≤ level) × (level ≤ 199)) }
    ensures healthy { (level : ℕ) → (class_of level ≡ Healthy) ↔ (200 ≤ level) }
{}

/// The ids that have a value: eight of the standard's namespace, and those of the items, counted from 1. Ids that are no
/// numbers, and ids of other namespaces, have none.
pub fn nodes_are_known()
    ensures { (items : ℕ) (id : NodeId) → IsSome (node_of items id) ↔ HasValue items id }
{}

/// An id without a value is answered by Bad_NodeIdUnknown, whatever the attribute; one with a value by
/// Bad_AttributeIdInvalid where the attribute is another than Value, 13 (OPC 10000-4, 5.10.2).
pub fn refusals_are_in_order()
    ensures unknown { (nodes : Nodes) (id : NodeId) (attribute : ℕ) → (HasValue nodes.items id → ⊥)
        → read_of nodes id attribute ≡ Err bad_node_id_unknown }
    ensures attribute { (nodes : Nodes) (id : NodeId) (attribute : ℕ) → HasValue nodes.items id → attribute ≢ 13
        → read_of nodes id attribute ≡ Err bad_attribute_id_invalid }
    ensures value { (nodes : Nodes) (id : NodeId) → HasValue nodes.items id → IsOk (read_of nodes id 13) }
{}

/// What a read of each node sends, byte by byte: an array of String is 0x8C, a DateTime 0x0D, an Int32 0x06, a Byte 0x03
/// and an Int64 0x08 behind the mask of the DataValue, 0x01 for a value alone, 0x05 for one with its source time, and
/// 0x15 for one with the picoseconds of that too (OPC 10000-6, 5.2.2.16 and 5.2.2.17). An item before its first change sends the mask 0.
pub fn values_are_sent()
    ensures server_array { (nodes : Nodes) → Sends nodes (id.Numeric 0 2254)
        (0x01 ∷ 0x8C ∷ written_array written_text (nodes.uri ∷ [])) }
    ensures namespace_array { (nodes : Nodes) → Sends nodes (id.Numeric 0 2255)
        (0x01 ∷ 0x8C ∷ written_array written_text (Some (codes "http://opcfoundation.org/UA/") ∷ nodes.uri ∷ Some
        (codes "urn:uaset:plant") ∷ [])) }
    ensures start_time { (nodes : Nodes) → Sends nodes (id.Numeric 0 2257)
        (0x01 ∷ 0x0D ∷ written_signed 8 w64 nodes.start) }
    ensures current_time { (nodes : Nodes) → Sends nodes (id.Numeric 0 2258)
        (0x01 ∷ 0x0D ∷ written_signed 8 w64 nodes.now) }
    ensures state { (nodes : Nodes) → Sends nodes (id.Numeric 0 2259) (0x01 ∷ 0x06 ∷ 0 ∷ 0 ∷ 0 ∷ 0 ∷ []) }
    ensures service_level { (nodes : Nodes) → nodes.level < 2 ^ 8
        → Sends nodes (id.Numeric 0 2267) (0x01 ∷ 0x03 ∷ nodes.level ∷ []) }
    ensures support { (nodes : Nodes) → nodes.support < 2 ^ 8
        → Sends nodes (id.Numeric 0 3709) (0x01 ∷ 0x06 ∷ nodes.support ∷ 0 ∷ 0 ∷ 0 ∷ []) }
    ensures server_uri_array { (nodes : Nodes) → Sends nodes (id.Numeric 0 11314)
        (0x01 ∷ 0x8C ∷ written_array written_text (map (λ member. member.uri) nodes.members)) }
    ensures item { (nodes : Nodes) (number : ℕ) (change : Change) → 1 ≤ number → number ≤ nodes.items
        → last_of number nodes.current ≡ Some change → change.pico ≡ 0
        → Sends nodes (id.Numeric 2 number)
        (0x05 ∷ 0x08 ∷ written_signed 8 w64 change.value ++ written_signed 8 w64 change.time) }
    ensures item_with_pico { (nodes : Nodes) (number : ℕ) (change : Change) → 1 ≤ number → number ≤ nodes.items
        → last_of number nodes.current ≡ Some change → change.pico ≢ 0
        → Sends nodes (id.Numeric 2 number)
        (0x15 ∷ 0x08 ∷ written_signed 8 w64 change.value ++ written_signed 8 w64 change.time
        ++ change.pico % 256 ∷ change.pico / 256 % 256 ∷ []) }
    ensures no_change { (nodes : Nodes) (number : ℕ) → 1 ≤ number → number ≤ nodes.items
        → last_of number nodes.current ≡ None
        → Sends nodes (id.Numeric 2 number) (0x00 ∷ []) }
{}

/// An item's newest change is its current one, the other items' changes are as they were, and where the item had one
/// there are as many as before.
pub fn newest_changes_are_current()
    ensures newest { (change : Change) (changes : List Change)
        → last_of change.item (with_newest change changes) ≡ Some change }
    ensures others { (item : ℕ) (change : Change) (changes : List Change) → item ≢ change.item
        → last_of item (with_newest change changes) ≡ last_of item changes }
    ensures as_many { (change : Change) (changes : List Change) → is_some (last_of change.item changes) ≡ true
        → length (with_newest change changes) ≡ length changes }
{}
