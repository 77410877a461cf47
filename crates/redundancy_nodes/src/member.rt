ghost use Rattle.std.specs.Prelude.{◌≡◌, IfOk};

use std::alloc::Global;
use std::marker::Model;
use ua_base::OutOfMemory;
use ua_values::UaText;

/// A server of a redundant set.
#[derive(Debug, Drop)]
pub struct Member {
    /// Its ApplicationUri, which names it in ServerUriArray (OPC 10000-5, 6.3.9).
    pub uri: UaText,
    /// The url under which clients find it.
    pub url: UaText,
}

impl Member {
    /// The same member once more.
    pub fn copy(&self, alloc: Global) -> Result<Member, OutOfMemory>
        ensures { IfOk result (λ copied. copied ≡ self.now) }
    {
        let uri = self.uri.copy(alloc)?;
        let url = self.url.copy(alloc)?;
        Ok(Member { uri, url })
    }
}

/// The servers of a redundant set, in order: the first has number 1.
#[derive(Debug, Drop)]
pub struct Members {
    list: Vec<Member>,
}

impl Model for Members {
    ghost use Rattle.std.specs.Prelude.{List};
    ghost use Rattle.redundancy_nodes.specs.declared.member.Member.{Member};

    ghost Value = { List Member };

    ghost view = { λ m. m.list.items };
}

impl Members {
    /// These members. It takes no memory.
    pub fn new(list: Vec<Member>) -> Members
        ensures { result ≡ list.items }
    {
        Members { list }
    }

    /// The members, in order.
    pub fn as_slice(&self) -> &[Member]
        ensures { result.now ≡ self.now }
    {
        self.list.as_slice()
    }

    /// The members, in order. It takes no memory.
    pub fn into_vec(self) -> Vec<Member>
        ensures { result.items ≡ self }
    {
        self.list
    }
}
