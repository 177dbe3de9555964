//! The error that an invocation ends with, its codes, and what it names; `errors` has those that convert to it.

pub use shared_core_base::error::{
    CommandMetadata, Error, InvocationErrorCode, NotificationMetadata, codes,
};
