//! Laws of requests and replies, each the contract of a function that does nothing.

ghost use Rattle.std.specs.Prelude.{◌≡◌, true, List, ℕ, Ok};
ghost use Rattle.ua_structures.specs.Body.{AreLawful, body_at};
ghost use Rattle.ua_structures.specs.Header.{header_at};
ghost use Rattle.ua_services.specs.declared.reply.Reply.{Reply};
ghost use Rattle.ua_services.specs.declared.request.Request.{Request};
ghost use Rattle.ua_services.specs.Families.{replies, reply_put, request_put, requests, written_reply, written_request};
ghost use Rattle.ua_services.specs.Requests.{header_of, is_service, request_at};

/// Bytes are the body of one request at most, and what is written of a request that keeps the rules is a body of it.
/// It is read again as what it asks for, where a message may ask for it.
pub fn requests_are_read_again()
    ensures lawful { AreLawful requests request_put }
    ensures again { (request : Request) → (request_put request).keeps → is_service (request_put request).kind ≡ true
        → request_at (written_request request) ≡ Ok request }
{}

/// A body that is read as a request begins with the header that the request has: so the handle of a refusal and that
/// of a reply are said of the same bytes.
pub fn requests_begin_with_their_header()
    ensures { (bytes : List ℕ) (request : Request) → body_at requests bytes ≡ Ok request
        → header_at bytes ≡ Ok (header_of request) }
{}

/// Bytes are the body of one reply at most, and what is written of a reply that keeps the rules is a body of it, and
/// read again.
pub fn replies_are_read_again()
    ensures lawful { AreLawful replies reply_put }
    ensures again { (reply : Reply) → (reply_put reply).keeps → body_at replies (written_reply reply) ≡ Ok reply }
{}
