//! What replies share.

ghost use Rattle.std.specs.Prelude.{◌≡◌, if◌then◌else◌};
ghost use Rattle.ua_base.specs.Status.{bad_monitored_item_id_invalid, good};
ghost use Rattle.server_rules.specs.Operations.{coded_results};

use ua_base::status::{BAD_MONITORED_ITEM_ID_INVALID, GOOD};
use ua_structures::{ResponseHeader, UaArray, UnusedDiagnostics};
use ua_sub_msgs::ResultsResponse;

/// A code for each operation.
pub(crate) fn coded_results(header: ResponseHeader, codes: Vec<u32>) -> ResultsResponse
    ensures { result ≡ coded_results codes.items header }
{
    ResultsResponse {
        response_header: header,
        results: UaArray::new(codes),
        diagnostic_infos: UnusedDiagnostics,
    }
}

/// The code for an item that is there, or isn't.
pub(crate) fn item_code(there: bool) -> u32
    ensures { result ≡ (if there then good else bad_monitored_item_id_invalid) }
{
    if there {
        GOOD
    } else {
        BAD_MONITORED_ITEM_ID_INVALID
    }
}
