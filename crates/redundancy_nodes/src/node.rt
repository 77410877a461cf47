ghost use Rattle.std.specs.Prelude.{◌≡◌};
ghost use Rattle.redundancy_nodes.specs.Node.{item_node, node_of, server_node};

use ua_values::NodeId;

/// A node that has a value.
#[derive(Clone, Copy, Debug, PartialEq, Eq)]
pub(crate) enum Node {
    /// The uris of the servers that this one stands for: its own.
    ServerArray,
    /// The uris of its namespaces.
    NamespaceArray,
    /// When it started.
    StartTime,
    /// What time it is.
    CurrentTime,
    /// Its state.
    State,
    /// How good its data is.
    ServiceLevel,
    /// What kind of redundancy its set has.
    RedundancySupport,
    /// The uris of the set's members.
    ServerUriArray,
    /// A monitored value.
    Item(u8),
}

impl Node {
    /// The node of the standard's namespace with this number.
    fn of_server(id: u32) -> Option<Node>
        ensures { result ≡ server_node id }
    {
        match id {
            2254 => Some(Node::ServerArray),
            2255 => Some(Node::NamespaceArray),
            2257 => Some(Node::StartTime),
            2258 => Some(Node::CurrentTime),
            2259 => Some(Node::State),
            2267 => Some(Node::ServiceLevel),
            3709 => Some(Node::RedundancySupport),
            11314 => Some(Node::ServerUriArray),
            _ => None,
        }
    }

    /// The node of the items' namespace with this number.
    fn of_item(items: u8, id: u32) -> Option<Node>
        ensures { result ≡ item_node items id }
    {
        if 0 < id && id <= u32::from(items) {
            Some(Node::Item(id as u8))
        } else {
            None
        }
    }

    /// The node of this id, among so many items.
    pub(crate) fn of(items: u8, id: &NodeId) -> Option<Node>
        ensures { result ≡ node_of items id.now }
    {
        match id {
            NodeId::Numeric { namespace: 0, id } => Node::of_server(*id),
            NodeId::Numeric { namespace: 2, id } => Node::of_item(items, *id),
            _ => None,
        }
    }
}
