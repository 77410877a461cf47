//! The nodes of a server.

use crate::words::{change, put_digits, put_text, text};
use redundancy_nodes::{CurrentChanges, Member, Members, NodeFault, Nodes, class_of};
use rows::{Stop, number, put, put_debug};
use set_model::Change;
use std::alloc::Global;
use std::mem;
use ua_base::OutOfMemory;
use ua_values::{NodeId, UaBytes, UaText};
use ua_variants::{Array, DataValue, Variant, write_data_value};
use uuid::Uuid;

#[derive(Drop)]
pub struct NodeTable {
    nodes: Nodes,
}

/// How a value is told.
#[derive(Clone, Copy)]
enum Form {
    /// Field by field.
    Fields,
    /// As it is written.
    Bytes,
}

fn put_value(alloc: Global, form: Form, value: &DataValue, to: &mut String) -> Result<(), Stop> {
    match form {
        Form::Fields => put_fields(alloc, value, to),
        Form::Bytes => put_written(alloc, value, to),
    }
}

/// Tells a value that is an array of texts by these.
fn put_texts(to: &mut String, texts: &[UaText]) -> Result<(), Stop> {
    put(to, "texts")?;
    for text in texts {
        put(to, " ")?;
        put_text(to, text)?;
    }
    Ok(())
}

fn put_variant(alloc: Global, value: &Option<Variant>, to: &mut String) -> Result<(), Stop> {
    match value {
        Some(Variant::Array(Array::String(texts), None)) => put_texts(to, texts.as_slice()),
        value => put(to, format!(in alloc; "value {value:?}")?.as_str()),
    }
}

/// Tells the fields of a value by their names.
fn put_fields(alloc: Global, value: &DataValue, to: &mut String) -> Result<(), Stop> {
    put_variant(alloc, &value.value, to)?;
    let status = value.status;
    put(to, format!(in alloc; " status {status:?}")?.as_str())?;
    let (time, pico) = (value.source_timestamp, value.source_picoseconds);
    put(to, format!(in alloc; " source {time:?} {pico:?}")?.as_str())?;
    let (time, pico) = (value.server_timestamp, value.server_picoseconds);
    put(to, format!(in alloc; " server {time:?} {pico:?}")?.as_str())
}

fn put_written(alloc: Global, value: &DataValue, to: &mut String) -> Result<(), Stop> {
    let mut bytes = Vec::new(alloc);
    write_data_value(value, &mut bytes)?;
    put_digits(alloc, to, &bytes)
}

fn put_read(
    alloc: Global,
    form: Form,
    read: &Result<DataValue, NodeFault>,
    to: &mut String,
) -> Result<(), Stop> {
    match read {
        Ok(value) => put_value(alloc, form, value, to),
        Err(NodeFault::OutOfMemory) => Err(Stop::OutOfMemory),
        Err(fault) => put(to, format!(in alloc; "{fault}")?.as_str()),
    }
}

fn form_of(word: &str) -> Result<Form, Stop> {
    match word {
        "read" => Ok(Form::Fields),
        "bytes" => Ok(Form::Bytes),
        _ => Err(Stop::BadLine),
    }
}

fn name_of(alloc: Global, namespace: u16, name: &str) -> Result<NodeId, Stop> {
    let id = text(alloc, name)?;
    Ok(NodeId::Text { namespace, id })
}

/// The id of a kind, in a namespace: a number, a name, the Guid of zeros, or the ByteString that isn't there.
fn id_of(alloc: Global, kind: &str, namespace: u16, name: &str) -> Result<NodeId, Stop> {
    match kind {
        "number" => Ok(NodeId::Numeric {
            namespace,
            id: number(name)?,
        }),
        "name" => name_of(alloc, namespace, name),
        "guid" => Ok(NodeId::Guid {
            namespace,
            id: Uuid::nil(),
        }),
        "opaque" => Ok(NodeId::Opaque {
            namespace,
            id: UaBytes::null(),
        }),
        _ => Err(Stop::BadLine),
    }
}

/// The numbers that tell of a server: support, level, start, now and items.
#[derive(Clone, Copy)]
struct Numbers {
    support: u8,
    level: u8,
    start: i64,
    now: i64,
    items: u8,
}

fn numbers_of(words: [&str; 5]) -> Result<Numbers, Stop> {
    let [support, level, start, now, items] = words;
    let support = number(support)?;
    let level = number(level)?;
    let start = number(start)?;
    let now = number(now)?;
    let items = number(items)?;
    Ok(Numbers {
        support,
        level,
        start,
        now,
        items,
    })
}

/// The nodes of a server without members and changes.
fn nodes_of(alloc: Global, uri: UaText, numbers: Numbers) -> Nodes {
    let Numbers {
        support,
        level,
        start,
        now,
        items,
    } = numbers;
    Nodes {
        uri,
        members: Members::new(Vec::new(alloc)),
        support,
        level,
        start,
        now,
        items,
        current: CurrentChanges::new(Vec::new(alloc)),
    }
}

impl NodeTable {
    pub(crate) fn new(alloc: Global) -> NodeTable {
        let numbers = Numbers {
            support: 0,
            level: 0,
            start: 0,
            now: 0,
            items: 0,
        };
        NodeTable {
            nodes: nodes_of(alloc, UaText::null(), numbers),
        }
    }

    /// Makes the nodes anew, with the numbers of support, level, start, now and items.
    fn begin(&mut self, alloc: Global, uri: &str, words: [&str; 5]) -> Result<(), Stop> {
        let numbers = numbers_of(words)?;
        self.nodes = nodes_of(alloc, text(alloc, uri)?, numbers);
        Ok(())
    }

    fn add_member(&mut self, alloc: Global, uri: &str, url: &str) -> Result<(), Stop> {
        let none = Members::new(Vec::new(alloc));
        let members = mem::replace(&mut self.nodes.members, none).into_vec();
        self.nodes.members = Members::new(with_member(alloc, members, uri, url)?);
        Ok(())
    }

    /// Adds a change behind all others.
    fn add_change(&mut self, alloc: Global, change: Change) -> Result<(), Stop> {
        let none = CurrentChanges::new(Vec::new(alloc));
        let mut changes = mem::replace(&mut self.nodes.current, none).into_vec();
        changes.push(change)?;
        self.nodes.current = CurrentChanges::new(changes);
        Ok(())
    }

    fn put_change(&mut self, change: Change) -> Result<(), Stop> {
        self.nodes.current.put(change)?;
        Ok(())
    }

    fn put_changes(&self, alloc: Global, to: &mut String) -> Result<(), Stop> {
        put_debug(alloc, "", &self.nodes.current.as_slice(), to)
    }

    /// Puts copies of the members.
    fn put_members(&self, alloc: Global, to: &mut String) -> Result<(), Stop> {
        for member in self.nodes.members.as_slice() {
            put_member(alloc, to, &member.copy(alloc))?;
        }
        Ok(())
    }

    /// Reads an attribute of a node.
    fn put_node(
        &self,
        alloc: Global,
        form: Form,
        id: &NodeId,
        attribute: u32,
        to: &mut String,
    ) -> Result<(), Stop> {
        put_read(alloc, form, &self.nodes.read_node(alloc, id, attribute), to)
    }

    /// Reads what the words say: how the value is told, the id's kind, namespace and name, and the attribute.
    fn read(&self, alloc: Global, words: [&str; 5], to: &mut String) -> Result<(), Stop> {
        let [verb, kind, namespace, name, attribute] = words;
        let form = form_of(verb)?;
        let namespace = number(namespace)?;
        let attribute = number(attribute)?;
        let id = id_of(alloc, kind, namespace, name)?;
        self.put_node(alloc, form, &id, attribute, to)
    }

    /// Makes a call that answers nothing.
    fn make(&mut self, alloc: Global, words: &[&str]) -> Result<(), Stop> {
        match words {
            ["new", uri, support, level, start, now, items] => {
                self.begin(alloc, uri, [support, level, start, now, items])
            }
            ["member", uri, url] => self.add_member(alloc, uri, url),
            ["change", item, at, value] => self.add_change(alloc, change(item, at, value)?),
            ["put", item, at, value] => self.put_change(change(item, at, value)?),
            _ => Err(Stop::BadLine),
        }
    }

    /// Answers a call of these words.
    pub(crate) fn answer(
        &mut self,
        alloc: Global,
        words: &[&str],
        to: &mut String,
    ) -> Result<(), Stop> {
        match words {
            ["changes"] => self.put_changes(alloc, to),
            ["members"] => self.put_members(alloc, to),
            [verb, kind, namespace, name, attribute] => {
                self.read(alloc, [verb, kind, namespace, name, attribute], to)
            }
            _ => {
                self.make(alloc, words)?;
                put(to, "done")
            }
        }
    }
}

/// A member of these words.
fn member_of(alloc: Global, uri: &str, url: &str) -> Result<Member, Stop> {
    let uri = text(alloc, uri)?;
    let url = text(alloc, url)?;
    Ok(Member { uri, url })
}

/// The members, and one more of these words.
fn with_member(
    alloc: Global,
    mut members: Vec<Member>,
    uri: &str,
    url: &str,
) -> Result<Vec<Member>, Stop> {
    members.push(member_of(alloc, uri, url)?)?;
    Ok(members)
}

fn put_member(
    alloc: Global,
    to: &mut String,
    member: &Result<Member, OutOfMemory>,
) -> Result<(), Stop> {
    match member {
        Ok(member) => put_uris(to, member),
        Err(_) => Err(Stop::OutOfMemory),
    }
}

fn put_uris(to: &mut String, member: &Member) -> Result<(), Stop> {
    put(to, "uri ")?;
    put_text(to, &member.uri)?;
    put(to, " url ")?;
    put_text(to, &member.url)?;
    put(to, "/")
}

/// Answers the class of a level.
pub(crate) fn answer_class(alloc: Global, level: &str, to: &mut String) -> Result<(), Stop> {
    let class = class_of(number(level)?);
    put_debug(alloc, "", &class, to)
}
