//! What refuses a request as a whole.

ghost use Rattle.std.specs.Prelude.{◌≡◌, option_copied};
ghost use Rattle.server_rules.specs.Operations.{operations_fault, own_checked, own_sub, passes};

use server_subs::ServerData;
use subscription::Subscription;
use ua_base::status::{BAD_NOTHING_TO_DO, BAD_SUBSCRIPTION_ID_INVALID, BAD_TOO_MANY_OPERATIONS};

/// How many operations one request has at the most.
const MOST_OPERATIONS: usize = 1000;

/// The status code that refuses a list of so many operations.
fn operations_fault(count: usize) -> Option<u32>
    ensures { result ≡ operations_fault count }
{
    if count == 0 {
        Some(BAD_NOTHING_TO_DO)
    } else if MOST_OPERATIONS < count {
        Some(BAD_TOO_MANY_OPERATIONS)
    } else {
        None
    }
}

/// Nothing refuses so far, or else this code does.
pub(crate) fn passes(fault: Option<u32>) -> Result<(), u32>
    ensures { result ≡ passes fault }
{
    match fault {
        None => Ok(()),
        Some(code) => Err(code),
    }
}

/// A list of so many operations is taken, or refused by this code.
pub(crate) fn operations(count: usize) -> Result<(), u32>
    ensures { result ≡ passes (operations_fault count) }
{
    passes(operations_fault(count))
}

/// The session's subscription of this id.
pub(crate) fn own_sub<'a>(server: &'a ServerData, session: u32, id: u32) -> Option<&'a Subscription>
    ensures { option_copied result ≡ own_sub session id server.now }
{
    if server.owns(session, id) {
        server.sub(id)
    } else {
        None
    }
}

/// There is a subscription of this id, and it is the session's.
pub(crate) fn is_own(server: &ServerData, session: u32, id: u32) -> Result<(), u32>
    ensures { result ≡ own_checked session id server.now }
{
    match own_sub(server, session, id) {
        Some(_) => Ok(()),
        None => Err(BAD_SUBSCRIPTION_ID_INVALID),
    }
}
