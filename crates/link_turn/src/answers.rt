//! Which reply answers what, and whether it does so well.

ghost use Rattle.std.specs.Prelude.{◌≡◌};
ghost use Rattle.link_rules.specs.Asking.{is_answer, is_fault, is_good, is_reply_to};
ghost use Rattle.link_rules.specs.Ready.{is_answer_to, is_good_status};

use crate::link::Link;
use link_rules::Asked;
use ua_structures::ResponseHeader;

/// Whether a StatusCode is good: its highest two bits are 0 then (OPC 10000-4, 7.39).
pub fn is_good(code: u32) -> bool
    ensures { result ≡ is_good code }
{
    code < 0x4000_0000
}

/// Whether a status is good; one that isn't there is.
pub fn is_good_status(status: Option<u32>) -> bool
    ensures { result ≡ is_good_status status }
{
    match status {
        None => true,
        Some(code) => is_good(code),
    }
}

/// Whether a reply answers the request of this handle, and well.
pub fn is_reply_to(handle: u32, header: ResponseHeader) -> bool
    ensures { result ≡ is_reply_to handle header }
{
    header.request_handle == handle && is_good(header.service_result)
}

/// Whether a reply answers the last request, and well.
pub fn is_answer(header: ResponseHeader, link: &Link) -> bool
    ensures { result ≡ is_answer header link.now }
{
    is_reply_to(link.conversation.last, header)
}

/// Whether a reply answers this request, if there is one, and well.
pub fn is_answer_to(asked: Option<Asked>, header: ResponseHeader) -> bool
    ensures { result ≡ is_answer_to asked header }
{
    match asked {
        None => false,
        Some(asked) => is_reply_to(asked.handle, header),
    }
}

/// Whether a ServiceFault answers the request of this handle by this code.
pub fn is_fault(handle: u32, code: u32, header: ResponseHeader) -> bool
    ensures { result ≡ is_fault handle code header }
{
    header.request_handle == handle && header.service_result == code
}
