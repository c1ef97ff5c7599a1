//! The eleven tables in which a plan and receipts are kept, and the nine of the first version: the SQL texts on them, what
//! each text means, and the columns of rows and receipts.
#![tactic(auto)]

mod columns;
mod meaning;
mod texts;

pub use meaning::{blob, int, letters, text};
pub use status_rules::OccStatus;
pub use texts::{
    CREATE_AMOUNT, CREATE_DEPENDENCY, CREATE_INTERVAL, CREATE_META, CREATE_NEED, CREATE_OCCURRENCE,
    CREATE_OPERATION, CREATE_QUANTITY, CREATE_RECEIPT, CREATE_RESOURCE, CREATE_WORKSTATION,
    DROP_AMOUNT, DROP_DEPENDENCY, DROP_INTERVAL, DROP_NEED, DROP_OCCURRENCE, DROP_OPERATION,
    PUT_AMOUNT, PUT_DEPENDENCY, PUT_INTERVAL, PUT_META, PUT_NEED, PUT_OCCURRENCE, PUT_OPERATION,
    PUT_QUANTITY, PUT_RECEIPT, PUT_RESOURCE, PUT_WORKSTATION, READ_AMOUNT, READ_DEPENDENCY,
    READ_INTERVAL, READ_META, READ_NEED, READ_OCCURRENCE, READ_OPERATION, READ_QUANTITY,
    READ_RECEIPT, READ_RESOURCE, READ_WORKSTATION, Version,
};
pub use tracker_receipts::{OperationRow, PlanRow, ReceiptRow, RowKey};
