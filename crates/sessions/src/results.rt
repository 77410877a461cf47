ghost use Rattle.std.specs.Prelude.{◌≡◌};

use std::marker::Model;

/// What became of the acknowledgements of one Publish: a status code for each, in their order (OPC 10000-4, 5.13.5.2).
#[derive(Debug, Drop)]
pub struct AckResults {
    list: Vec<u32>,
}

impl Model for AckResults {
    ghost use Rattle.std.specs.Prelude.{List, ℕ};

    ghost Value = { List ℕ };

    ghost view = { λ r. r.list.items };
}

impl AckResults {
    /// These codes. It takes no memory.
    pub fn new(list: Vec<u32>) -> AckResults
        ensures { result ≡ list.items }
    {
        AckResults { list }
    }

    /// The codes, in order.
    pub fn as_slice(&self) -> &[u32]
        ensures { result.now ≡ self.now }
    {
        self.list.as_slice()
    }

    /// The codes, in order. It takes no memory.
    pub fn into_vec(self) -> Vec<u32>
        ensures { result.items ≡ self }
    {
        self.list
    }
}
