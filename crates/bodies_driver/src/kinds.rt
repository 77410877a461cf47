//! The numbers of structures' types.

use rows::{Stop, put_debug};
use std::alloc::Global;
use ua_session_msgs::{IdentityTokenType, SessionReplyType, SessionRequestType};
use ua_sub_msgs::{FilterType, NotificationType, SubReplyType, SubRequestType};

/// Says which structure of each family has the number.
pub(crate) fn tell_kind(alloc: Global, id: u32, to: &mut String) -> Result<(), Stop> {
    put_debug(alloc, "", &SessionRequestType::of(id), to)?;
    put_debug(alloc, " ", &SessionReplyType::of(id), to)?;
    put_debug(alloc, " ", &IdentityTokenType::of(id), to)?;
    put_debug(alloc, " ", &SubRequestType::of(id), to)?;
    put_debug(alloc, " ", &SubReplyType::of(id), to)?;
    put_debug(alloc, " ", &NotificationType::of(id), to)?;
    put_debug(alloc, " ", &FilterType::of(id), to)
}
