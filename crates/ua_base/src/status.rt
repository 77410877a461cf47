//! The status codes that this project sends or reads (OPC 10000-4, 7.34; OPC 10000-6, annex A.2).

ghost use Rattle.std.specs.Prelude.{◌≡◌};
ghost use Rattle.ua_base.specs.Status as codes;

/// `Good`
pub const GOOD: u32 = 0x0000_0000;

/// `Good_SubscriptionTransferred`
pub const GOOD_SUBSCRIPTION_TRANSFERRED: u32 = 0x002D_0000;

/// `Bad_DecodingError`
pub const BAD_DECODING_ERROR: u32 = 0x8007_0000;

/// `Bad_EncodingLimitsExceeded`
pub const BAD_ENCODING_LIMITS_EXCEEDED: u32 = 0x8008_0000;

/// `Bad_Timeout`
pub const BAD_TIMEOUT: u32 = 0x800A_0000;

/// `Bad_ServiceUnsupported`
pub const BAD_SERVICE_UNSUPPORTED: u32 = 0x800B_0000;

/// `Bad_NothingToDo`
pub const BAD_NOTHING_TO_DO: u32 = 0x800F_0000;

/// `Bad_TooManyOperations`
pub const BAD_TOO_MANY_OPERATIONS: u32 = 0x8010_0000;

/// `Bad_IdentityTokenRejected`
pub const BAD_IDENTITY_TOKEN_REJECTED: u32 = 0x8021_0000;

/// `Bad_SecureChannelIdInvalid`
pub const BAD_SECURE_CHANNEL_ID_INVALID: u32 = 0x8022_0000;

/// `Bad_SessionIdInvalid`
pub const BAD_SESSION_ID_INVALID: u32 = 0x8025_0000;

/// `Bad_SessionClosed`
pub const BAD_SESSION_CLOSED: u32 = 0x8026_0000;

/// `Bad_SessionNotActivated`
pub const BAD_SESSION_NOT_ACTIVATED: u32 = 0x8027_0000;

/// `Bad_SubscriptionIdInvalid`
pub const BAD_SUBSCRIPTION_ID_INVALID: u32 = 0x8028_0000;

/// `Bad_TimestampsToReturnInvalid`
pub const BAD_TIMESTAMPS_TO_RETURN_INVALID: u32 = 0x802B_0000;

/// `Bad_NodeIdUnknown`
pub const BAD_NODE_ID_UNKNOWN: u32 = 0x8034_0000;

/// `Bad_AttributeIdInvalid`
pub const BAD_ATTRIBUTE_ID_INVALID: u32 = 0x8035_0000;

/// `Bad_IndexRangeInvalid`
pub const BAD_INDEX_RANGE_INVALID: u32 = 0x8036_0000;

/// `Bad_DataEncodingInvalid`
pub const BAD_DATA_ENCODING_INVALID: u32 = 0x8038_0000;

/// `Bad_MonitoringModeInvalid`
pub const BAD_MONITORING_MODE_INVALID: u32 = 0x8041_0000;

/// `Bad_MonitoredItemIdInvalid`
pub const BAD_MONITORED_ITEM_ID_INVALID: u32 = 0x8042_0000;

/// `Bad_MonitoredItemFilterUnsupported`
pub const BAD_MONITORED_ITEM_FILTER_UNSUPPORTED: u32 = 0x8044_0000;

/// `Bad_SecurityPolicyRejected`
pub const BAD_SECURITY_POLICY_REJECTED: u32 = 0x8055_0000;

/// `Bad_TooManySessions`
pub const BAD_TOO_MANY_SESSIONS: u32 = 0x8056_0000;

/// `Bad_MethodInvalid`
pub const BAD_METHOD_INVALID: u32 = 0x8075_0000;

/// `Bad_ArgumentsMissing`
pub const BAD_ARGUMENTS_MISSING: u32 = 0x8076_0000;

/// `Bad_TooManySubscriptions`
pub const BAD_TOO_MANY_SUBSCRIPTIONS: u32 = 0x8077_0000;

/// `Bad_TooManyPublishRequests`
pub const BAD_TOO_MANY_PUBLISH_REQUESTS: u32 = 0x8078_0000;

/// `Bad_NoSubscription`
pub const BAD_NO_SUBSCRIPTION: u32 = 0x8079_0000;

/// `Bad_SequenceNumberUnknown`
pub const BAD_SEQUENCE_NUMBER_UNKNOWN: u32 = 0x807A_0000;

/// `Bad_MessageNotAvailable`
pub const BAD_MESSAGE_NOT_AVAILABLE: u32 = 0x807B_0000;

/// `Bad_TcpMessageTypeInvalid`
pub const BAD_TCP_MESSAGE_TYPE_INVALID: u32 = 0x807E_0000;

/// `Bad_TcpSecureChannelUnknown`
pub const BAD_TCP_SECURE_CHANNEL_UNKNOWN: u32 = 0x807F_0000;

/// `Bad_TcpMessageTooLarge`
pub const BAD_TCP_MESSAGE_TOO_LARGE: u32 = 0x8080_0000;

/// `Bad_SecureChannelTokenUnknown`
pub const BAD_SECURE_CHANNEL_TOKEN_UNKNOWN: u32 = 0x8087_0000;

/// `Bad_SequenceNumberInvalid`
pub const BAD_SEQUENCE_NUMBER_INVALID: u32 = 0x8088_0000;

/// `Bad_InvalidArgument`
pub const BAD_INVALID_ARGUMENT: u32 = 0x80AB_0000;

/// `Bad_ResponseTooLarge`
pub const BAD_RESPONSE_TOO_LARGE: u32 = 0x80B9_0000;

/// `Bad_TooManyMonitoredItems`
pub const BAD_TOO_MANY_MONITORED_ITEMS: u32 = 0x80DB_0000;

/// The bits of a status that say that its queue dropped values (OPC 10000-4, 7.34.1): the type of the
/// information bits, `DataValue`, and the overflow bit.
pub const OVERFLOW_BITS: u32 = 0x0000_0480;

/// The bits of a status among which `OVERFLOW_BITS` are looked for: both bits of the type, and the overflow bit.
pub const OVERFLOW_MASK: u32 = 0x0000_0C80;

/// Law: each constant is the code that the standard has under its name.
pub fn codes_are_the_standards()
    ensures good { GOOD ≡ codes.good }
    ensures good_subscription_transferred { GOOD_SUBSCRIPTION_TRANSFERRED ≡ codes.good_subscription_transferred }
    ensures bad_decoding_error { BAD_DECODING_ERROR ≡ codes.bad_decoding_error }
    ensures bad_encoding_limits_exceeded { BAD_ENCODING_LIMITS_EXCEEDED ≡ codes.bad_encoding_limits_exceeded }
    ensures bad_timeout { BAD_TIMEOUT ≡ codes.bad_timeout }
    ensures bad_service_unsupported { BAD_SERVICE_UNSUPPORTED ≡ codes.bad_service_unsupported }
    ensures bad_nothing_to_do { BAD_NOTHING_TO_DO ≡ codes.bad_nothing_to_do }
    ensures bad_too_many_operations { BAD_TOO_MANY_OPERATIONS ≡ codes.bad_too_many_operations }
    ensures bad_identity_token_rejected { BAD_IDENTITY_TOKEN_REJECTED ≡ codes.bad_identity_token_rejected }
    ensures bad_secure_channel_id_invalid { BAD_SECURE_CHANNEL_ID_INVALID ≡ codes.bad_secure_channel_id_invalid }
    ensures bad_session_id_invalid { BAD_SESSION_ID_INVALID ≡ codes.bad_session_id_invalid }
    ensures bad_session_closed { BAD_SESSION_CLOSED ≡ codes.bad_session_closed }
    ensures bad_session_not_activated { BAD_SESSION_NOT_ACTIVATED ≡ codes.bad_session_not_activated }
    ensures bad_subscription_id_invalid { BAD_SUBSCRIPTION_ID_INVALID ≡ codes.bad_subscription_id_invalid }
    ensures bad_timestamps_to_return_invalid { BAD_TIMESTAMPS_TO_RETURN_INVALID
        ≡ codes.bad_timestamps_to_return_invalid }
    ensures bad_node_id_unknown { BAD_NODE_ID_UNKNOWN ≡ codes.bad_node_id_unknown }
    ensures bad_attribute_id_invalid { BAD_ATTRIBUTE_ID_INVALID ≡ codes.bad_attribute_id_invalid }
    ensures bad_index_range_invalid { BAD_INDEX_RANGE_INVALID ≡ codes.bad_index_range_invalid }
    ensures bad_data_encoding_invalid { BAD_DATA_ENCODING_INVALID ≡ codes.bad_data_encoding_invalid }
    ensures bad_monitoring_mode_invalid { BAD_MONITORING_MODE_INVALID ≡ codes.bad_monitoring_mode_invalid }
    ensures bad_monitored_item_id_invalid { BAD_MONITORED_ITEM_ID_INVALID ≡ codes.bad_monitored_item_id_invalid }
    ensures bad_monitored_item_filter_unsupported { BAD_MONITORED_ITEM_FILTER_UNSUPPORTED
        ≡ codes.bad_monitored_item_filter_unsupported }
    ensures bad_security_policy_rejected { BAD_SECURITY_POLICY_REJECTED ≡ codes.bad_security_policy_rejected }
    ensures bad_too_many_sessions { BAD_TOO_MANY_SESSIONS ≡ codes.bad_too_many_sessions }
    ensures bad_method_invalid { BAD_METHOD_INVALID ≡ codes.bad_method_invalid }
    ensures bad_arguments_missing { BAD_ARGUMENTS_MISSING ≡ codes.bad_arguments_missing }
    ensures bad_too_many_subscriptions { BAD_TOO_MANY_SUBSCRIPTIONS ≡ codes.bad_too_many_subscriptions }
    ensures bad_too_many_publish_requests { BAD_TOO_MANY_PUBLISH_REQUESTS ≡ codes.bad_too_many_publish_requests }
    ensures bad_no_subscription { BAD_NO_SUBSCRIPTION ≡ codes.bad_no_subscription }
    ensures bad_sequence_number_unknown { BAD_SEQUENCE_NUMBER_UNKNOWN ≡ codes.bad_sequence_number_unknown }
    ensures bad_message_not_available { BAD_MESSAGE_NOT_AVAILABLE ≡ codes.bad_message_not_available }
    ensures bad_tcp_message_type_invalid { BAD_TCP_MESSAGE_TYPE_INVALID ≡ codes.bad_tcp_message_type_invalid }
    ensures bad_tcp_secure_channel_unknown { BAD_TCP_SECURE_CHANNEL_UNKNOWN ≡ codes.bad_tcp_secure_channel_unknown }
    ensures bad_tcp_message_too_large { BAD_TCP_MESSAGE_TOO_LARGE ≡ codes.bad_tcp_message_too_large }
    ensures bad_secure_channel_token_unknown { BAD_SECURE_CHANNEL_TOKEN_UNKNOWN
        ≡ codes.bad_secure_channel_token_unknown }
    ensures bad_sequence_number_invalid { BAD_SEQUENCE_NUMBER_INVALID ≡ codes.bad_sequence_number_invalid }
    ensures bad_invalid_argument { BAD_INVALID_ARGUMENT ≡ codes.bad_invalid_argument }
    ensures bad_response_too_large { BAD_RESPONSE_TOO_LARGE ≡ codes.bad_response_too_large }
    ensures bad_too_many_monitored_items { BAD_TOO_MANY_MONITORED_ITEMS ≡ codes.bad_too_many_monitored_items }
    ensures overflow_bits { OVERFLOW_BITS ≡ codes.overflow_bits }
    ensures overflow_mask { OVERFLOW_MASK ≡ codes.overflow_mask }
{}
